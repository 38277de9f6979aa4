// An answer that a line tells, held against the reader's.
use lines::Expected;
use reading::Reading;

// What the reader said, and what was told so far.
#[derive(Clone, Copy)]
pub struct Answer {
    pub reading: Reading,
    expected: Expected,
    // Whether a number was another.
    differs: bool,
}

impl Answer {
    pub fn new(reading: Reading) -> Answer {
        Answer {
            reading,
            expected: Expected::new(),
            differs: false,
        }
    }

    pub fn take(&mut self, byte: u8, nodes: &[u32]) {
        if let Some(n) = self.expected.take(byte) {
            if !self.agrees(n, nodes) {
                self.differs = true;
            }
        }
    }

    // Whether the number that was told last is what the reader said.
    fn agrees(&self, n: u32, nodes: &[u32]) -> bool {
        match self.expected.count {
            0 => false,
            1 => n == reading::number(self.reading.got),
            2 => n as usize == reading::place(self.reading.got),
            count => nodes.iter().take(self.reading.used).nth(count - 3) == Some(&n),
        }
    }

    // Whether it is the reader's: each number, and none left out.
    pub fn is_same(&self) -> bool {
        let e = &self.expected;
        !self.differs && !e.wrong && e.count.wrapping_sub(2) == self.reading.used
    }
}
