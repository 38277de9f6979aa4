// Output, gathered in a block and written when it is full. A write that fails is passed over, so that nothing here
// fails.
ghost use Rattle.std.specs.Prelude.{◌≡◌, ◌+◌, IsOk, replicate};
ghost use Rattle.report.specs.Blocks.{place_in, block_with, waiting_after, block_after, Shows};

use std::fmt;

pub const BLOCK: usize = 65536;

// Where bytes go, and the block, of which the first `waiting` bytes are yet to be written.
pub struct Output<'a, P: Print> {
    pub to: &'a P,
    pub block: [u8; BLOCK],
    pub waiting: usize,
}

impl<'a, P: Print> Output<'a, P> {
    pub fn new(to: &'a P) -> Self
        ensures to { result.to ≡ to.entry }
        ensures block { result.block ≡ replicate 65536 0 }
        ensures waiting { result.waiting ≡ 0 }
    {
        Output {
            to,
            block: [0; BLOCK],
            waiting: 0,
        }
    }

    pub fn byte(&mut self, b: u8)
        ensures waiting { self.new.waiting ≡ place_in self.old.waiting + 1 }
        ensures block { self.new.block ≡ block_with self.old.block self.old.waiting b }
        ensures to { self.new.to ≡ self.old.to }
    {
        if self.waiting >= BLOCK {
            self.flush();
        }
        self.block[self.waiting] = b;
        self.waiting += 1;
    }

    // At once, where the block has room for all: byte by byte a tree of deep lines took half as long again.
    pub fn bytes(&mut self, s: &[u8])
        ensures waiting { self.new.waiting ≡ waiting_after self.old.waiting s.now }
        ensures block { self.new.block ≡ block_after self.old.block self.old.waiting s.now }
        ensures to { self.new.to ≡ self.old.to }
    {
        let start = self.waiting;
        if s.len() <= BLOCK && start <= BLOCK - s.len() {
            let end = start + s.len();
            self.block[start..end].copy_from_slice(s);
            self.waiting = end;
            return;
        }
        for b in s {
            self.byte(*b);
        }
    }

    // The decimal digits of a number.
    pub fn number(&mut self, n: u64)
        ensures shows { Shows self.old.block self.old.waiting n self.new.waiting self.new.block }
        ensures to { self.new.to ≡ self.old.to }
    {
        let mut text = [0u8; 20];
        let k = io::decimal(n, &mut text);
        self.bytes(&text[..k]);
    }

    // Writes what waits.
    pub fn flush(&mut self)
        ensures waiting { self.new.waiting ≡ 0 }
        ensures block { self.new.block ≡ self.old.block }
        ensures to { self.new.to ≡ self.old.to }
    {
        let n = self.waiting.min(BLOCK);
        let _ = self.to.write_all(&self.block[..n]);
        self.waiting = 0;
    }
}

impl<'a, P: Print> fmt::Write for Output<'a, P> {
    ghost write_str_gives = { λ old s new. (new.waiting ≡ waiting_after old.waiting s) × (new.block ≡ block_after old.block old.waiting s) };

    // Never fails.
    fn write_str(&mut self, s: &str) -> fmt::Result
        ensures ok { IsOk result → (self.new.waiting ≡ waiting_after self.old.waiting s.now) × (self.new.block ≡ block_after self.old.block self.old.waiting s.now) }
        ensures never_fails { IsOk result }
        ensures to { self.new.to ≡ self.old.to }
    {
        self.bytes(s.as_bytes());
        Ok(())
    }
}

// What waits then is not written: that is for `flush`. By hand, where a derive would ask it of P too.
impl<'a, P: Print> Drop for Output<'a, P> {
    fn drop(self) {
        let Output {
            to: _,
            block: _,
            waiting: _,
        } = self;
    }
}
