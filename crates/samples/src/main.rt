// The sample commands K1 to K13: for each a line with its name, the number and the place of the reader's
// answer, and a digest of its records; and then, after a colon, the canonical writing, where the writer has one.
#![tactic(auto)]

use kinds::{
    ALL, COMMA, EQ, FROM, HAVING, ID, IN, INTEGER, JOIN, JOIN_KW, LIMIT, LP, NOT, PLUS, RP, SELECT,
    SEMI, STAR, VALUES,
};
use reading::PLACES;
use std::io::Result;
use words::{INNER, LEFT, OUTER};

// The text number of a command's first name or number; the next ones have the next.
const FIRST_TEXT: u32 = 8;

// A command in arrays of 4,096 places, as document 01 has them, which are clear beyond its tokens.
#[derive(Drop)]
struct Command {
    kinds: [u32; PLACES],
    texts: [u32; PLACES],
    count: usize,
    next_text: u32,
}

impl Command {
    fn new() -> Command {
        Command {
            kinds: [0; PLACES],
            texts: [0; PLACES],
            count: 0,
            next_text: FIRST_TEXT,
        }
    }

    // Tokens of these kinds; the words are those of the JOIN_KWs.
    fn push_all(&mut self, kinds: &[u32], words: &[u32]) {
        let mut words = words.iter();
        for kind in kinds {
            if *kind != JOIN_KW {
                self.push(*kind);
            } else if let Some(word) = words.next() {
                self.put(JOIN_KW, *word);
            }
        }
    }

    // One more token, with its text number.
    fn push(&mut self, kind: u32) {
        match kind {
            ID | INTEGER => {
                let text = self.next_text;
                self.next_text = text.wrapping_add(1);
                self.put(kind, text);
            }
            _ => self.put(kind, 0),
        }
    }

    // One more token, where there is place for it.
    fn put(&mut self, kind: u32, text: u32) {
        let at = self.count;
        if at < PLACES {
            reading::put(&mut self.kinds, at, kind);
            reading::put(&mut self.texts, at, text);
            self.count = at + 1;
        }
    }

    // SELECT, then 1 in so many pairs of parentheses.
    fn push_parentheses(&mut self, pairs: usize) {
        self.push(SELECT);
        for _ in 0..pairs {
            self.push(LP);
        }
        self.push(INTEGER);
        for _ in 0..pairs {
            self.push(RP);
        }
    }

    // So many SELECTs and one more, each in the last's column.
    fn push_columns(&mut self, outer: usize) {
        for _ in 0..outer {
            self.push(SELECT);
            self.push(LP);
        }
        self.push(SELECT);
        self.push(INTEGER);
        for _ in 0..outer {
            self.push(RP);
        }
    }

    // Its line: the reader and the writer with a node table each.
    fn show(&self, out: &impl Print, name: &str) -> Result<()> {
        self.show_reading(out, name)?;
        self.show_writing(out)
    }

    // What the reader says, and a digest of the records that it left, of which there are none after a refusal.
    fn show_reading(&self, out: &impl Print, name: &str) -> Result<()> {
        let mut nodes = [0; PLACES];
        let got = reading::read_places(&self.kinds, &self.texts, self.count, &mut nodes);
        let r = reading::left(got, &nodes);
        print!(out;
            "{name} {} {} {}",
            reading::number(r.got),
            reading::place(r.got),
            report::digest(0, &nodes, r.used)
        )?;
        if r.changed.is_some() {
            print!(out; " and the table is changed beyond")?;
        }
        Ok(())
    }

    // What the writer writes, or its refusal.
    fn show_writing(&self, out: &impl Print) -> Result<()> {
        let mut nodes = [0; PLACES];
        let mut written = Command::new();
        let got = reading::write_places(
            &self.kinds,
            &self.texts,
            self.count,
            &mut nodes,
            &mut written.kinds,
            &mut written.texts,
        );
        match got {
            Ok(count) => {
                print!(out; " :")?;
                written.count = count;
                written.show_tokens(out)?;
            }
            Err(refusal) => {
                print!(out; ", not written: {} {}", refusal.why.number(), refusal.place)?;
            }
        }
        println!(out; "")
    }

    // Each token; a text number 0 is left out.
    fn show_tokens(&self, out: &impl Print) -> Result<()> {
        for (kind, text) in self.kinds.iter().zip(&self.texts).take(self.count) {
            print!(out; " {kind}")?;
            if *text > 0 {
                print!(out; ".{text}")?;
            }
        }
        Ok(())
    }
}

// Its name, its kinds, and the words of its JOIN_KWs.
type Sample = (&'static str, &'static [u32], &'static [u32]);

// Those before the ones that are made of a number, and those after them.
const FIRST: [Sample; 11] = [
    ("K1", &[SELECT, STAR], &[]),
    ("K2 nothing", &[], &[]),
    ("K2 SEMI", &[SEMI], &[]),
    ("K3", &[SELECT, ID, FROM, ID, JOIN_KW, JOIN, ID], &[OUTER]),
    ("K4", &[SELECT, ID, FROM, ID, JOIN_KW, JOIN, ID], &[LEFT]),
    (
        "K5",
        &[SELECT, ID, FROM, ID, JOIN_KW, JOIN_KW, JOIN, ID],
        &[LEFT, INNER],
    ),
    (
        "K6",
        &[SELECT, INTEGER, LIMIT, INTEGER, COMMA, INTEGER],
        &[],
    ),
    (
        "K7",
        &[
            VALUES, LP, INTEGER, RP, COMMA, LP, INTEGER, COMMA, INTEGER, RP,
        ],
        &[],
    ),
    ("K8", &[SELECT, INTEGER, HAVING, INTEGER], &[]),
    ("K9 empty", &[SELECT, ID, IN, LP, RP], &[]),
    ("K9 comma", &[SELECT, ID, IN, LP, INTEGER, COMMA, RP], &[]),
];

const LAST: [Sample; 2] = [
    ("K12", &[SELECT, ID, EQ, NOT, ID], &[]),
    (
        "K13",
        &[SELECT, ALL, LP, ID, RP, PLUS, LP, ID, STAR, ID, RP, ID],
        &[],
    ),
];

// A command is made where it is shown, and filled there: it is 32 KiB, which would else be moved.
fn show_sample(out: &impl Print, sample: Sample) -> Result<()> {
    let (name, kinds, words) = sample;
    let mut command = Command::new();
    command.push_all(kinds, words);
    command.show(out, name)
}

fn show_parentheses(out: &impl Print, name: &str, pairs: usize) -> Result<()> {
    let mut command = Command::new();
    command.push_parentheses(pairs);
    command.show(out, name)
}

fn show_columns(out: &impl Print, name: &str, outer: usize) -> Result<()> {
    let mut command = Command::new();
    command.push_columns(outer);
    command.show(out, name)
}

fn main(rt: HostRuntime) -> Result<()> {
    for sample in FIRST {
        show_sample(&rt, sample)?;
    }
    show_parentheses(&rt, "K10 63", 63)?;
    show_parentheses(&rt, "K10 64", 64)?;
    show_columns(&rt, "K11", 16)?;
    for sample in LAST {
        show_sample(&rt, sample)?;
    }
    Ok(())
}
