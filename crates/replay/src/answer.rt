// The answer that a line of vectors tells, held against the reader's and the writer's.
use lines::{Expected, Line};
use reading::{Reading, Writing};

// What an answer tells after the reader's number and its place.
#[derive(Clone, Copy, PartialEq, Eq, Debug)]
enum Rest {
    // Of a line of the first form every record.
    Records,
    // Of one of the second form the writer's number and place; 0, and not an Option, until it is told: the writer's
    // answer is held against 0 where the line breaks off.
    Writer { number: u32, place: u32 },
}

// What the reader said, and what the line told so far.
#[derive(Clone, Copy)]
pub struct Answer {
    pub reading: Reading,
    expected: Expected,
    is_right: bool,
    rest: Rest,
}

impl Answer {
    pub fn new(reading: Reading, line: &Line) -> Answer {
        let rest = if line.is_room() {
            Rest::Writer {
                number: 0,
                place: 0,
            }
        } else {
            Rest::Records
        };
        Answer {
            reading,
            expected: Expected::new(),
            is_right: reading.changed.is_none(),
            rest,
        }
    }

    // Of a line that ends before its command does.
    pub fn missing(line: &Line) -> Answer {
        let mut answer = Answer::new(reading::none(), line);
        answer.is_right = false;
        answer
    }

    pub fn has_writing(&self) -> bool {
        self.expected.has_writing()
    }

    // How many numbers of the table the answer tells.
    pub fn told(&self) -> usize {
        match self.rest {
            Rest::Records => self.reading.used,
            Rest::Writer { .. } => 0,
        }
    }

    // A byte of the answer, before the writing.
    pub fn take(&mut self, byte: u8, nodes: &[u32]) {
        if let Some(n) = self.expected.take(byte) {
            self.compare(n, nodes);
        }
    }

    // A number of the answer.
    fn compare(&mut self, n: u32, nodes: &[u32]) {
        match (self.expected.count, &mut self.rest) {
            (3, Rest::Writer { number, .. }) => *number = n,
            (4, Rest::Writer { place, .. }) => *place = n,
            (count, _) => {
                if !self.agrees(count, n, nodes) {
                    self.is_right = false;
                }
            }
        }
    }

    // Whether the number that the answer tells as the `count`th is what the reader said.
    fn agrees(&self, count: usize, n: u32, nodes: &[u32]) -> bool {
        match count {
            0 => false,
            1 => n == reading::number(self.reading.got),
            2 => n as usize == reading::place(self.reading.got),
            _ => nodes.iter().take(self.told()).nth(count - 3) == Some(&n),
        }
    }

    // Whether the whole answer of the reader was right: each number told, and none left out.
    pub fn is_right(&self) -> bool {
        let rest = match self.rest {
            Rest::Records => self.reading.used,
            Rest::Writer { .. } => 2,
        };
        self.is_right && !self.expected.wrong && self.expected.count.wrapping_sub(2) == rest
    }

    // Whether the writer said what the line tells: where that is no number of its own, what the reader said, and as
    // many tokens as the writing has.
    pub fn is_said(&self, writing: Writing, wanted: &Line) -> bool {
        match self.rest {
            Rest::Writer { number, place } => {
                reading::number(writing.got) == number
                    && reading::place(writing.got) == place as usize
            }
            Rest::Records => {
                let is_ours = match (writing.got, self.reading.got) {
                    (Ok(count), Ok(_)) => count == wanted.kinds,
                    (Err(writer), Err(reader)) => writer == reader,
                    _ => false,
                };
                is_ours && wanted.may_end() && writing.used == wanted.kinds
            }
        }
    }
}
