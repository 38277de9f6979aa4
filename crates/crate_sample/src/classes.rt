// The classes of docs/DIFFERENCES.md.
use report::Output;

const CLASSES: usize = 29;

const LETTERS: &[u8; CLASSES] = b"abcdefghijklmnopqrstuvwxyzABC";

// Of each how many lines are of it.
#[derive(Clone, Copy, PartialEq, Eq, Debug)]
pub struct Classes {
    counts: [u64; CLASSES],
}

impl Classes {
    pub fn new() -> Classes {
        Classes {
            counts: [0; CLASSES],
        }
    }

    // A line more of the class that a letter names, if it names one.
    pub fn add(&mut self, letter: u8) -> Option<()> {
        let class = LETTERS.iter().position(|l| *l == letter)?;
        let count = self.counts.get_mut(class)?;
        *count = count.wrapping_add(1);
        Some(())
    }

    // A line for each.
    pub fn tell<P: Print>(&self, out: &mut Output<'_, P>) {
        for (letter, count) in LETTERS.iter().zip(self.counts.iter()) {
            out.byte(*letter);
            out.byte(b' ');
            out.number(*count);
            out.byte(b'\n');
        }
    }
}
