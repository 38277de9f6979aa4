// A line, and the two lists that its numbers go into.
ghost use Rattle.std.specs.Prelude.{◌≡◌, take};
ghost use Rattle.lines.specs.Commands.{no_command, begun_command, command_with, ended_command};

use crate::{Line, TOKENS};

// Two lists, not one of pairs: document 01 has the reader lent two.
#[derive(Drop)]
pub struct Command {
    line: Line,
    kinds: [u32; TOKENS],
    texts: [u32; TOKENS],
}

impl Command {
    pub fn new() -> Command
        ensures { result ≡ no_command }
    {
        Command {
            line: Line::new(),
            kinds: [0; TOKENS],
            texts: [0; TOKENS],
        }
    }

    pub fn line(&self) -> &Line
        ensures { result.now ≡ self.now.line }
    {
        &self.line
    }

    // The kinds that were taken.
    pub fn kinds(&self) -> &[u32]
        ensures { result.now ≡ take self.now.line.kinds self.now.kinds }
    {
        let count = self.line.kinds.min(TOKENS);
        &self.kinds[..count]
    }

    // The text numbers that were taken.
    pub fn texts(&self) -> &[u32]
        ensures { result.now ≡ take self.now.line.texts self.now.texts }
    {
        let count = self.line.texts.min(TOKENS);
        &self.texts[..count]
    }

    // The next line begins, in the same lists.
    pub fn begin(&mut self)
        ensures { self.new ≡ begun_command self.old }
    {
        self.line = Line::new();
    }

    // One byte more of the line.
    pub fn take(&mut self, byte: u8)
        ensures { self.new ≡ command_with self.old byte }
    {
        self.line.take(byte, &mut self.kinds, &mut self.texts);
    }

    // The line is at its end.
    pub fn end(&mut self)
        ensures { self.new ≡ ended_command self.old }
    {
        self.line.end();
    }
}
