// What the lines of a file gave.
use report::{Output, mixed};

// Of the reader or the writer: how many answers count, how many were wrong, and a digest of all.
#[derive(Clone, Copy, PartialEq, Eq, Debug, Default)]
pub struct Counts {
    pub answers: u64,
    pub wrong: u64,
    pub digest: u64,
}

impl Counts {
    pub fn add(&mut self) {
        self.answers = self.answers.wrapping_add(1);
    }

    pub fn add_wrong(&mut self) {
        self.wrong = self.wrong.wrapping_add(1);
    }

    pub fn mix(&mut self, number: u32, place: usize) {
        self.digest = mixed(mixed(self.digest, u64::from(number)), place as u64);
    }

    // The first `count` numbers.
    pub fn mix_list(&mut self, list: &[u32], count: usize) {
        self.digest = report::digest(self.digest, list, count);
    }

    pub fn tell<P: Print>(&self, out: &mut Output<'_, P>) {
        out.number(self.answers);
        out.bytes(b", wrong ");
        out.number(self.wrong);
        out.bytes(b", digest ");
        out.number(self.digest);
    }
}
