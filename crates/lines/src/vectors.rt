// The answer that a line of vectors has after its command, taken byte by byte:
//
//     => number place
//     => 0 count : code,detail,children,size code,... : kind[.text] ...
//     => R number place W number place
//
// Its numbers are told apart, up to the second colon: what is behind that, the writing, is a line of the first form.
ghost use Rattle.std.specs.Prelude.{◌≡◌};
ghost use Rattle.lines.specs.Vectors.{has_writing, none_told, number_told, told_with};
ghost use Rattle.lines.specs.Vectors as vectors;

use crate::number::{digit, with_digit};

// The parts of an answer, parted by its colons.
#[derive(Clone, Copy, PartialEq, Eq, Debug, Default)]
enum Part {
    #[default]
    Head,
    Records,
    Writing,
}

impl Part {
    fn after_colon(self) -> Part
        ensures { result ≡ vectors.after_colon self }
    {
        match self {
            Part::Head => Part::Records,
            Part::Records | Part::Writing => Part::Writing,
        }
    }
}

#[derive(Clone, Copy, PartialEq, Eq, Debug, Default)]
pub struct Expected {
    // The number that the answer is in.
    inside: Option<u32>,
    // How many numbers are behind.
    pub count: usize,
    part: Part,
    pub wrong: bool,
}

impl Expected {
    pub fn new() -> Expected
        ensures { result ≡ none_told }
    {
        Expected::default()
    }

    // Whether the rest is the writing.
    pub fn has_writing(&self) -> bool
        ensures { result ≡ has_writing self.now }
    {
        self.part == Part::Writing
    }

    // One byte more; a line end ends the last number. The answer is the number that the byte ended, if it ended one.
    pub fn take(&mut self, byte: u8) -> Option<u32>
        ensures value { self.new ≡ told_with self.old byte }
        ensures number { result ≡ number_told self.old byte }
    {
        if self.has_writing() {
            return None;
        }
        let Some(d) = digit(byte) else {
            let ended = self.end_number();
            self.separate(byte);
            return ended;
        };
        self.figure(d);
        None
    }

    fn figure(&mut self, d: u32)
        ensures { self.new ≡ vectors.with_figure self.old d }
    {
        match with_digit(self.inside.unwrap_or(0), d, u32::MAX) {
            Some(n) => self.inside = Some(n),
            None => self.wrong = true,
        }
    }

    fn end_number(&mut self) -> Option<u32>
        ensures value { self.new ≡ vectors.ended_number self.old }
        ensures number { result ≡ self.old.inside }
    {
        let ended = self.inside.take();
        if ended.is_some() {
            self.count = self.count.wrapping_add(1);
        }
        ended
    }

    fn separate(&mut self, byte: u8)
        ensures { self.new ≡ vectors.separated self.old byte }
    {
        match byte {
            b':' => self.part = self.part.after_colon(),
            b' ' | b',' | b'=' | b'>' | b'R' | b'W' | b'\n' => {}
            _ => self.wrong = true,
        }
    }
}
