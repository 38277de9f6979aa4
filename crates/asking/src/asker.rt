// Takes lines, a byte at a time, and answers each when its end has come.
use crate::refusals::{Many, Refused};
use crate::tree;
use crate::unread::Misfit;
use crate::writing::{self, Form};
use lines::Command;
use reading::{Reading, WIDTH};
use report::Output;
use std::fmt::Write;
use std::{fmt, io};

// How answers are given.
#[derive(Clone, Copy, PartialEq, Eq, Debug)]
pub enum Voice {
    Numbers,
    Words,
}

// Where answers go, and what is said of a line that is neither form; the command that is being taken, its line's number
// from 1, its last two bytes up to the first that did not fit; and a node table, clear between lines.
pub struct Asker<'a, P: Print, E: Print> {
    out: Output<'a, P>,
    errors: &'a E,
    voice: Voice,
    command: Command,
    row: u64,
    last: u8,
    before: u8,
    nodes: [u32; lines::TABLE as usize],
}

impl<'a, P: Print, E: Print> Asker<'a, P, E> {
    pub fn new(to: &'a P, errors: &'a E, voice: Voice) -> Self {
        Asker {
            out: Output::new(to),
            errors,
            voice,
            command: Command::new(),
            row: 1,
            last: 0,
            before: 0,
            nodes: [0; lines::TABLE as usize],
        }
    }

    // A byte of the input; after one that did not fit no other of its line counts.
    fn take(&mut self, byte: u8) {
        if byte == b'\n' {
            self.end();
            self.command.begin();
            self.row = self.row.wrapping_add(1);
            self.last = 0;
            self.before = 0;
        } else if !self.command.line().is_wrong() {
            self.command.take(byte);
            self.before = self.last;
            self.last = byte;
        }
    }

    // The last line may lack its end.
    pub fn finish(&mut self) {
        if self.command.line().column > 0 {
            self.end();
        }
        self.out.flush();
    }

    // A line's end has come.
    fn end(&mut self) {
        let is_misfit = self.command.line().is_wrong();
        self.command.end();
        let line = *self.command.line();
        if line.is_wrong() {
            let (byte, before) = if is_misfit {
                (self.last, self.before)
            } else {
                (b'\n', self.last)
            };
            self.misread(Misread {
                row: self.row,
                column: line.column,
                misfit: Misfit {
                    byte,
                    before,
                    is_room: line.is_room(),
                },
            });
        } else {
            self.answer();
        }
    }

    // In words, or else on standard output just the byte's place, and the words on standard error.
    fn misread(&mut self, misread: Misread) {
        match self.voice {
            Voice::Words => {
                let _ = writeln!(self.out, "{misread}");
            }
            Voice::Numbers => {
                self.out.flush();
                let _ = self.errors.println(misread);
                self.out.bytes(b"? at ");
                self.out.number(misread.column);
                self.out.byte(b'\n');
            }
        }
    }

    // The table is clear before and after.
    fn answer(&mut self) {
        let command = &self.command;
        let reading = reading::of_line(
            *command.line(),
            command.kinds(),
            command.texts(),
            &mut self.nodes,
        );
        let _ = self.write_answer(reading);
        reading::clear(reading, &mut self.nodes);
    }

    fn write_answer(&mut self, reading: Reading) -> fmt::Result {
        if let Some(place) = reading.changed {
            self.out.bytes(b"! table changed at ");
            self.out.number(place as u64);
            self.out.byte(b'\n');
            return Ok(());
        }
        match self.voice {
            Voice::Words => self.write_words(reading),
            Voice::Numbers if self.command.line().is_room() => self.write_short(reading),
            Voice::Numbers => self.write_full(reading),
        }
    }

    // The answer to a line of the first form, with the records and the writing of an acceptance.
    fn write_full(&mut self, reading: Reading) -> fmt::Result {
        writing::tell_answer(&mut self.out, reading.got);
        if reading.got.is_err() {
            return writeln!(self.out);
        }
        write!(self.out, " :")?;
        let used = report::within(reading.used, &self.nodes);
        let (records, _) = self.nodes[..used].as_chunks::<WIDTH>();
        for [code, detail, children, size] in records {
            self.out.byte(b' ');
            self.out.number(u64::from(*code));
            for number in [detail, children, size] {
                self.out.byte(b',');
                self.out.number(u64::from(*number));
            }
        }
        writing::tell(&mut self.out, &self.command, &mut self.nodes, Form::Full)
    }

    // To one of the second form.
    fn write_short(&mut self, reading: Reading) -> fmt::Result {
        self.out.bytes(b"R ");
        writing::tell_answer(&mut self.out, reading.got);
        writing::tell(&mut self.out, &self.command, &mut self.nodes, Form::Short)
    }

    // In words: a refusal with its token, an accepted reading as a tree with the writing below it.
    fn write_words(&mut self, reading: Reading) -> fmt::Result {
        write!(self.out, "line {}: ", self.row)?;
        let count = match reading.got {
            Ok(count) => count,
            Err(refusal) => {
                let command = &self.command;
                return writeln!(self.out, "{}", Refused { refusal, command });
            }
        };
        writeln!(self.out, "accepted, {}", Many(count, "record"))?;
        tree::draw(&mut self.out, &self.nodes, count)?;
        writing::tell(&mut self.out, &self.command, &mut self.nodes, Form::Words)
    }
}

// Whoever types a line has the answer before the next: what came is answered, and written, at once.
impl<P: Print, E: Print> io::Write for Asker<'_, P, E> {
    fn write(&mut self, part: &[u8]) -> io::Result<usize> {
        for byte in part {
            self.take(*byte);
        }
        self.out.flush();
        Ok(part.len())
    }

    fn flush(&mut self) -> io::Result<()> {
        self.out.flush();
        Ok(())
    }
}

// By hand, where a derive would ask it of P and E too.
impl<P: Print, E: Print> Drop for Asker<'_, P, E> {
    fn drop(self) {
        let Asker {
            out: _,
            errors: _,
            voice: _,
            command: _,
            row: _,
            last: _,
            before: _,
            nodes: _,
        } = self;
    }
}

// A line that is neither form, or asks for too much: its number, the byte's, and what is wrong.
#[derive(Clone, Copy)]
struct Misread {
    row: u64,
    column: u64,
    misfit: Misfit,
}

impl fmt::Display for Misread {
    fn fmt<W: fmt::Write>(&self, f: &mut fmt::Formatter<W>) -> fmt::Result {
        write!(
            f,
            "line {}, byte {}: {}",
            self.row, self.column, self.misfit
        )
    }
}
