// What the writer answers: the canonical writing in numbers or in words, or why there is none.
use crate::names::{join_word, like, operator};
use crate::refusals::Missing;
use kinds::{COMMA, DOT, ID, INDEXED, JOIN_KW, LIKE_KW, LP, RP};
use lines::Command;
use reader::{Reason, Refusal};
use report::Output;
use std::fmt;
use std::fmt::Write;

// The forms of an answer: in numbers after the records, or after those of the reader, or in words.
#[derive(Clone, Copy, PartialEq, Eq, Debug)]
pub enum Form {
    Full,
    Short,
    Words,
}

// 01's number of an answer, and its place.
pub fn tell_answer<P: Print>(out: &mut Output<'_, P>, got: Result<usize, Refusal>) {
    out.number(u64::from(reading::number(got)));
    out.byte(b' ');
    out.number(reading::place(got) as u64);
}

// A token in numbers.
fn tell_token<P: Print>(out: &mut Output<'_, P>, kind: u32, text: u32) {
    out.number(u64::from(kind));
    if text > 0 {
        out.byte(b'.');
        out.number(u64::from(text));
    }
}

// A token in words. An ID is its text number alone.
#[derive(Clone, Copy)]
struct Words {
    kind: u32,
    text: u32,
}

impl Words {
    // Whether the token has a text number to show; INDEXED has one only where it is a name.
    fn has_text(&self) -> bool {
        if self.kind == INDEXED {
            self.text > 0
        } else {
            kinds::reads_text(self.kind)
        }
    }
}

impl fmt::Display for Words {
    fn fmt<W: fmt::Write>(&self, f: &mut fmt::Formatter<W>) -> fmt::Result {
        let Words { kind, text } = *self;
        match kind {
            ID => write!(f, "#{text}"),
            LP => f.write_str("("),
            RP => f.write_str(")"),
            COMMA => f.write_str(","),
            DOT => f.write_str("."),
            JOIN_KW => f.write_str(join_word(text)),
            LIKE_KW => f.write_str(like(text)),
            _ if self.has_text() => write!(f, "{} #{text}", operator(kind)),
            _ => f.write_str(operator(kind)),
        }
    }
}

// Why there is no writing of a command that was read: its lists have too little room, or differ.
fn none<W: fmt::Write>(out: &mut W, refusal: Refusal) -> fmt::Result {
    write!(out, "  no writing: refusal {}", refusal.why.number())?;
    if refusal.why == Reason::Lengths {
        write!(out, ": the writer's outputs differ in length")
    } else {
        write!(out, "{}", Missing(refusal))
    }
}

// The writer's answer to the command, in one of the forms; the table holds the reading, or is clear.
pub fn tell<P: Print>(
    out: &mut Output<'_, P>,
    command: &Command,
    nodes: &mut [u32],
    form: Form,
) -> fmt::Result {
    // Two lists, as the writer takes them: its C interface has two.
    let mut out_kinds = [0u32; lines::TOKENS];
    let mut out_texts = [0u32; lines::TOKENS];
    let w = reading::written(
        *command.line(),
        command.kinds(),
        command.texts(),
        nodes,
        &mut out_kinds,
        &mut out_texts,
    );
    let tokens = out_kinds
        .iter()
        .copied()
        .zip(out_texts.iter().copied())
        .take(w.used);
    if !w.kept {
        return writeln!(out, " ! output changed beyond the writing");
    }
    match form {
        Form::Short => {
            out.bytes(b" W ");
            tell_answer(out, w.got);
        }
        Form::Full => {
            out.bytes(b" :");
            for (kind, text) in tokens {
                out.byte(b' ');
                tell_token(out, kind, text);
            }
        }
        Form::Words => match w.got {
            Err(refusal) => none(out, refusal)?,
            Ok(_) => {
                write!(out, "  writing:")?;
                for (kind, text) in tokens {
                    write!(out, " {}", Words { kind, text })?;
                }
            }
        },
    }
    writeln!(out)
}
