// A refusal in words, from document 01's table, with the place of its token.
use crate::names;
use kinds::{JOIN_KW, LIKE_KW};
use lines::{Command, Line};
use reader::{Reason, Refusal};
use std::fmt;

// The number at a place of a list, 0 beyond its end.
fn at(list: &[u32], place: usize) -> u32 {
    list.get(place).copied().unwrap_or(0)
}

// So many of something.
#[derive(Clone, Copy)]
pub struct Many(pub usize, pub &'static str);

impl fmt::Display for Many {
    fn fmt<W: fmt::Write>(&self, f: &mut fmt::Formatter<W>) -> fmt::Result {
        let Many(count, what) = *self;
        write!(f, "{count} {what}{}", if count == 1 { "" } else { "s" })
    }
}

// The refusal of a command.
#[derive(Clone, Copy)]
pub struct Refused<'a> {
    pub refusal: Refusal,
    pub command: &'a Command,
}

impl fmt::Display for Refused<'_> {
    fn fmt<W: fmt::Write>(&self, f: &mut fmt::Formatter<W>) -> fmt::Result {
        let Refusal { why, place } = self.refusal;
        write!(f, "refusal {}", why.number())?;
        match why {
            Reason::Lengths => lengths(f, self.command.line()),
            Reason::Unfinished | Reason::TableShort | Reason::OutputShort => {
                f.write(Missing(self.refusal))
            }
            _ => {
                write!(f, ", token {place}: ")?;
                token(f, why, place, self.command)
            }
        }
    }
}

fn lengths<W: fmt::Write>(f: &mut fmt::Formatter<W>, line: &Line) -> fmt::Result {
    if line.kinds == line.texts {
        return write!(
            f,
            ": input over 4,096, it has {}",
            Many(line.kinds, "token")
        );
    }
    write!(
        f,
        ": list lengths differ, {} and {}",
        Many(line.kinds, "kind"),
        Many(line.texts, "text number")
    )
}

// What there is too little of. The place is how much there is, or would have to be.
#[derive(Clone, Copy)]
pub struct Missing(pub Refusal);

impl fmt::Display for Missing {
    fn fmt<W: fmt::Write>(&self, f: &mut fmt::Formatter<W>) -> fmt::Result {
        let Refusal { why, place } = self.0;
        match why {
            Reason::Unfinished => write!(
                f,
                ": the command ends too soon, after {}",
                Many(place, "token")
            ),
            Reason::TableShort => write!(
                f,
                ": the node table is too short for {}",
                Many(place, "record")
            ),
            _ => write!(
                f,
                ": the writer's output is too short for {}",
                Many(place, "token")
            ),
        }
    }
}

// The place is that of a token.
fn token<W: fmt::Write>(
    f: &mut fmt::Formatter<W>,
    why: Reason,
    place: usize,
    command: &Command,
) -> fmt::Result {
    let kind = at(command.kinds(), place);
    match why {
        Reason::Unfit => unfit(f, kind, at(command.texts(), place)),
        Reason::CannotFollow if place == 0 => write!(
            f,
            "{} can't begin a command",
            names::kind(kind)
        ),
        Reason::CannotFollow => write!(f, "{} can't follow", names::kind(kind)),
        Reason::TooDeep => f.write_str("a level-65 expression starts, 64 are the most"),
        Reason::TooManyQueries => f.write_str("a 17th query opens, 16 are the most"),
        Reason::JoinFlags => f.write(Clash::before(command, place)),
        Reason::RowLength => f.write_str("row length differs from the first row's"),
        _ => f.write_str("refused"),
    }
}

fn unfit<W: fmt::Write>(f: &mut fmt::Formatter<W>, kind: u32, text: u32) -> fmt::Result {
    match kind {
        JOIN_KW | LIKE_KW => write!(f, "{} can't have text number {text}", names::kind(kind)),
        _ => write!(f, "there is no kind {kind}"),
    }
}

// A word before a JOIN that means OUTER, and one that means INNER.
#[derive(Clone, Copy)]
struct Clash {
    outer: Option<u32>,
    inner: Option<u32>,
}

impl Clash {
    // Of the words before the JOIN at a place. A join word may also be a name, but only the first of those in a row, and
    // only where what stands before it asks for one.
    fn before(command: &Command, place: usize) -> Clash {
        let mut clash = Clash {
            outer: None,
            inner: None,
        };
        for distance in 1..4 {
            let Some(word) = join_word(command, place, distance) else {
                break;
            };
            match word {
                words::CROSS | words::INNER => clash.inner = Some(word),
                words::FULL | words::LEFT | words::RIGHT | words::OUTER => clash.outer = Some(word),
                _ => {}
            }
        }
        clash
    }
}

// Flags are refused for a word that means INNER beside one that means OUTER, or for an OUTER of no side.
impl fmt::Display for Clash {
    fn fmt<W: fmt::Write>(&self, f: &mut fmt::Formatter<W>) -> fmt::Result {
        match (self.outer, self.inner) {
            (Some(outer), Some(inner)) => write!(
                f,
                "{} and {} don't go together",
                names::join_word(outer),
                names::join_word(inner)
            ),
            _ => f.write_str("OUTER goes only with LEFT, RIGHT or FULL"),
        }
    }
}

// The join word so many places before JOIN, if there is one.
fn join_word(command: &Command, place: usize, distance: usize) -> Option<u32> {
    let here = place.checked_sub(distance)?;
    let before = here.checked_sub(1)?;
    if at(command.kinds(), here) == JOIN_KW && is_after_source(at(command.kinds(), before)) {
        Some(at(command.texts(), here)).filter(|word| *word != words::NO_WORD)
    } else {
        None
    }
}

// Whether a source or a constraint may end with the kind, or it is a join word; after any other kind a join word is a name.
fn is_after_source(kind: u32) -> bool {
    matches!(
        kind,
        kinds::ID..=kinds::NULL | kinds::RP | kinds::ISNULL | kinds::NOTNULL | kinds::END
    )
}
