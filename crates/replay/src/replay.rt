// Takes the lines of a file, a byte at a time, and judges each when its end has come.
use crate::answer::Answer;
use crate::counts::Counts;
use crate::tokens::Tokens;
use lines::{Command, Line};
use reader::Reason;
use reading::{Reading, Writing};
use report::Output;
use std::io;

// Where words go; the line that is being taken: its command, its answer once that is whole, and the writing that it
// tells; a node table, clear between lines; and what the file gave so far.
#[derive(Drop)]
pub struct Replay<'a, P: Print> {
    out: Output<'a, P>,
    command: Command,
    answer: Option<Answer>,
    wanted: Line,
    tokens: Tokens,
    nodes: [u32; lines::TABLE as usize],
    reader: Counts,
    writer: Counts,
}

impl<'a, P: Print> Replay<'a, P> {
    pub fn new(to: &'a P) -> Self {
        Replay {
            out: Output::new(to),
            command: Command::new(),
            answer: None,
            wanted: Line::new(),
            tokens: Tokens::new(),
            nodes: [0; lines::TABLE as usize],
            reader: Counts::default(),
            writer: Counts::default(),
        }
    }

    fn take(&mut self, byte: u8) {
        if byte == b'\n' {
            self.end();
        } else {
            self.take_within(byte);
        }
    }

    // A byte that is no line end; `=` after the command ends it.
    fn take_within(&mut self, byte: u8) {
        match &mut self.answer {
            Some(answer) if answer.has_writing() => {
                let Tokens { kinds, texts } = &mut self.tokens;
                self.wanted.take(byte, kinds, texts);
            }
            Some(answer) => answer.take(byte, &self.nodes),
            None if byte == b'=' && self.command.line().may_end() => self.read(),
            None => self.command.take(byte),
        }
    }

    fn read(&mut self) {
        let command = &self.command;
        let reading = reading::of_line(
            *command.line(),
            command.kinds(),
            command.texts(),
            &mut self.nodes,
        );
        self.answer = Some(Answer::new(reading, command.line()));
    }

    // A line's end has come, and the next begins.
    fn end(&mut self) {
        let missing = Answer::missing(self.command.line());
        let mut answer = self.answer.unwrap_or(missing);
        answer.take(b'\n', &self.nodes);
        self.judge_reading(&answer);
        self.judge_writing(&answer);
        self.begin();
    }

    fn begin(&mut self) {
        self.command.begin();
        self.answer = None;
        self.wanted = Line::new();
    }

    fn complain(&mut self, what: &str, number: u32, place: usize) {
        let line = self.reader.answers;
        self.out.bytes(what.as_bytes());
        self.out.bytes(b": line ");
        self.out.number(line);
        self.out.bytes(b": ");
        self.out.number(u64::from(number));
        self.out.byte(b' ');
        self.out.number(place as u64);
        self.out.byte(b'\n');
    }

    fn judge_reading(&mut self, answer: &Answer) {
        let got = answer.reading.got;
        let (number, place) = (reading::number(got), reading::place(got));
        self.reader.add();
        self.reader.mix(number, place);
        self.reader.mix_list(&self.nodes, answer.told());
        if !answer.is_right() {
            self.reader.add_wrong();
            self.complain("wrong", number, place);
        }
    }

    fn judge_writing(&mut self, answer: &Answer) {
        let mut tokens = Tokens::new();
        let (writing, is_left) = self.write(answer.reading, &mut tokens);
        let Writing { got, used, kept } = writing;
        let (number, place) = (reading::number(got), reading::place(got));
        self.writer.mix(number, place);
        self.writer.mix_list(&tokens.kinds, used);
        self.writer.mix_list(&tokens.texts, used);
        if got.is_ok() {
            self.writer.add();
        }
        // The second form tells no writing.
        let is_same = self.command.line().is_room() || tokens.agree(&self.tokens, used);
        if !(is_same && kept && is_left && answer.is_said(writing, &self.wanted)) {
            self.writer.add_wrong();
            self.complain("wrong writing", number, place);
        }
    }

    // Writes the command, over a table that is cleared before and after; whether the table held what it should.
    fn write(&mut self, reading: Reading, tokens: &mut Tokens) -> (Writing, bool) {
        let records = report::digest(0, &self.nodes, reading.used);
        reading::clear(reading, &mut self.nodes);
        let command = &self.command;
        let writing = reading::written(
            *command.line(),
            command.kinds(),
            command.texts(),
            &mut self.nodes,
            &mut tokens.kinds,
            &mut tokens.texts,
        );
        let is_left = self.is_left(writing, reading, records);
        let end = if is_left {
            reading.used
        } else {
            self.nodes.len()
        };
        report::clear(&mut self.nodes, end);
        (writing, is_left)
    }

    // Whether the table holds the reading again where the writer accepts, or has too little room for the writing alone,
    // and nothing else; `records` is the digest of the reading.
    fn is_left(&self, writing: Writing, reading: Reading, records: u64) -> bool {
        let is_read = match writing.got {
            Ok(_) => true,
            Err(refusal) => refusal.why == Reason::OutputShort,
        };
        if !is_read {
            return report::changed(&self.nodes, 0).is_none();
        }
        let used = reading.used;
        report::changed(&self.nodes, used).is_none()
            && report::digest(0, &self.nodes, used) == records
    }

    // A file's end: the last line may lack its own.
    pub fn finish(&mut self, path: &str) {
        if self.command.line().column > 0 {
            self.end();
        }
        self.out.bytes(path.as_bytes());
        self.out.bytes(b": lines ");
        self.reader.tell(&mut self.out);
        self.out.bytes(b"; written ");
        self.writer.tell(&mut self.out);
        self.out.byte(b'\n');
        self.begin();
        self.reader = Counts::default();
        self.writer = Counts::default();
    }

    pub fn flush(&mut self) {
        self.out.flush();
    }
}

impl<P: Print> io::Write for Replay<'_, P> {
    fn write(&mut self, part: &[u8]) -> io::Result<usize> {
        for byte in part {
            self.take(*byte);
        }
        Ok(part.len())
    }

    fn flush(&mut self) -> io::Result<()> {
        self.out.flush();
        Ok(())
    }
}
