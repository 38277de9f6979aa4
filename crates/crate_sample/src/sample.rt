// Takes lines, a byte at a time, and judges each when its end has come.
use crate::answer::Answer;
use crate::classes::Classes;
use crate::part::{Mark, Part};
use lines::Command;
use report::{Output, mixed};
use std::io;

// Where words go; the line that is being taken; a node table, clear between lines; and what the lines so far gave.
#[derive(Drop)]
pub struct Sample<'a, P: Print> {
    out: Output<'a, P>,
    command: Command,
    mark: Mark,
    part: Part,
    nodes: [u32; lines::TABLE as usize],
    lines: u64,
    wrong: u64,
    same: u64,
    digest: u64,
    classes: Classes,
}

impl<'a, P: Print> Sample<'a, P> {
    pub fn new(to: &'a P) -> Self {
        Sample {
            out: Output::new(to),
            command: Command::new(),
            mark: Mark::default(),
            part: Part::Mark,
            nodes: [0; lines::TABLE as usize],
            lines: 0,
            wrong: 0,
            same: 0,
            digest: 0,
            classes: Classes::new(),
        }
    }

    fn take(&mut self, byte: u8) {
        if byte == b'\n' {
            self.end();
        } else {
            self.take_within(byte);
        }
    }

    // A byte that is no line end: a blank ends the mark, `=` the command and `;` the answer of document 01.
    fn take_within(&mut self, byte: u8) {
        match &mut self.part {
            Part::Mark if byte == b' ' => self.part = Part::Command,
            Part::Mark => self.mark(byte),
            Part::Command if byte == b'=' && self.command.line().may_end() => self.read(),
            Part::Command => self.command.take(byte),
            Part::Ours(answer) if byte == b';' => {
                self.part = Part::Crate {
                    answer: Answer::new(answer.reading),
                    is_ours_right: answer.is_same(),
                };
            }
            Part::Ours(answer) | Part::Crate { answer, .. } => answer.take(byte, &self.nodes),
        }
    }

    fn mark(&mut self, byte: u8) {
        if byte == b'=' {
            self.mark.is_same = true;
            return;
        }
        self.mark.is_classed = true;
        if self.classes.add(byte).is_none() {
            self.mark.is_wrong = true;
        }
    }

    fn read(&mut self) {
        let command = &self.command;
        let reading = reading::of_line(
            *command.line(),
            command.kinds(),
            command.texts(),
            &mut self.nodes,
        );
        self.part = Part::Ours(Answer::new(reading));
    }

    // A line's end has come, and the next begins.
    fn end(&mut self) {
        if let Part::Ours(answer) | Part::Crate { answer, .. } = &mut self.part {
            answer.take(b'\n', &self.nodes);
        }
        self.judge();
        self.command.begin();
        self.mark = Mark::default();
        self.part = Part::Mark;
    }

    // What a line adds to the counts. The table is clear again.
    fn judge(&mut self) {
        let reading = self.part.reading().unwrap_or(reading::none());
        let number = reading::number(reading.got);
        let place = reading::place(reading.got);
        let said = mixed(mixed(self.digest, u64::from(number)), place as u64);
        self.digest = report::digest(said, &self.nodes, reading.used);
        reading::clear(reading, &mut self.nodes);
        self.lines = self.lines.wrapping_add(1);
        if self.mark.is_same {
            self.same = self.same.wrapping_add(1);
        }
        let is_kept = reading.changed.is_none();
        if !(is_kept && !self.mark.is_wrong && self.part.is_right(self.mark)) {
            self.wrong = self.wrong.wrapping_add(1);
            self.out.bytes(b"wrong: line ");
            self.out.number(self.lines);
            self.out.bytes(b": ");
            self.out.number(u64::from(number));
            self.out.byte(b' ');
            self.out.number(place as u64);
            self.out.byte(b'\n');
        }
    }

    // The file's end: the last line may lack its own.
    pub fn finish(&mut self) {
        if !matches!(self.part, Part::Mark) {
            self.end();
        }
        self.out.bytes(b"lines ");
        self.out.number(self.lines);
        self.out.bytes(b", wrong ");
        self.out.number(self.wrong);
        self.out.bytes(b", same ");
        self.out.number(self.same);
        self.out.bytes(b", digest ");
        self.out.number(self.digest);
        self.out.byte(b'\n');
        self.classes.tell(&mut self.out);
    }

    pub fn flush(&mut self) {
        self.out.flush();
    }
}

impl<P: Print> io::Write for Sample<'_, P> {
    fn write(&mut self, part: &[u8]) -> io::Result<usize> {
        for byte in part {
            self.take(*byte);
        }
        Ok(part.len())
    }

    fn flush(&mut self) -> io::Result<()> {
        self.out.flush();
        Ok(())
    }
}
