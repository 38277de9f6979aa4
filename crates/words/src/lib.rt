// The join words: from bytes to a word's number, its flags, their union, whether they are legal, and
// the fewest words that have them.
#![tactic(auto)]

ghost use Rattle.std.specs.Prelude.{◌≡◌, map};
ghost use Rattle.words.specs.Words.{upper_of, equal, word_of};
ghost use Rattle.words.specs.Flags.{flags_of, united, has, legal};
ghost use Rattle.words.specs.Fewest.{ending_of, fewest_of, word_there, writing_of};

// A word is a number, not an enum: it is a JOIN_KW's text number in the lists that C lends.
pub const CROSS: u32 = 1;

pub const FULL: u32 = 2;

pub const INNER: u32 = 3;

pub const LEFT: u32 = 4;

pub const NATURAL: u32 = 5;

pub const RIGHT: u32 = 6;

pub const OUTER: u32 = 7;

// Where a word may stand and none does, and what bytes that are no word give.
pub const NO_WORD: u32 = 0;

// Flags are a number, not a type of their own: document 01 unites them as bits, and the number stands in a join's record.
pub const INNER_BIT: u32 = 1;

pub const CROSS_BIT: u32 = 2;

pub const NATURAL_BIT: u32 = 4;

pub const LEFT_BIT: u32 = 8;

pub const RIGHT_BIT: u32 = 16;

pub const OUTER_BIT: u32 = 32;

pub const NO_FLAGS: u32 = 0;

const CROSS_FLAGS: u32 = INNER_BIT | CROSS_BIT;

const FULL_FLAGS: u32 = LEFT_BIT | RIGHT_BIT | OUTER_BIT;

const INNER_FLAGS: u32 = INNER_BIT;

const LEFT_FLAGS: u32 = LEFT_BIT | OUTER_BIT;

const NATURAL_FLAGS: u32 = NATURAL_BIT;

const RIGHT_FLAGS: u32 = RIGHT_BIT | OUTER_BIT;

const OUTER_FLAGS: u32 = OUTER_BIT;

// Whether the upper-cased bytes are the word: the one comparison, for all seven.
fn same(s: &[u8], word: &[u8]) -> bool
    ensures { result ≡ equal (map upper_of s.now) word.now }
{
    s.len() == word.len()
        && s.iter()
            .zip(word)
            .all(|(b, w)| b.to_ascii_uppercase() == *w)
}

// The number of the word that the bytes spell, whatever their case. 0 for none, not an Option: document 01 asks for it.
// Carried from `join_type_from_bytes` of turso_parser's parser.rs.
#[tactic(auto, unfolding(crate::specs::Words::word_of, crate::specs::Words::words))]
pub fn word(s: &[u8]) -> u32
    ensures { result ≡ word_of s.now }
{
    match s {
        _ if same(s, b"CROSS") => CROSS,
        _ if same(s, b"FULL") => FULL,
        _ if same(s, b"INNER") => INNER,
        _ if same(s, b"LEFT") => LEFT,
        _ if same(s, b"NATURAL") => NATURAL,
        _ if same(s, b"RIGHT") => RIGHT,
        _ if same(s, b"OUTER") => OUTER,
        _ => NO_WORD,
    }
}

// Carried from `join_type_from_bytes` of turso_parser's parser.rs.
#[tactic(auto, unfolding(crate::specs::Flags::flags_of, crate::specs::Words::words))]
pub fn flags(word: u32) -> u32
    ensures { result ≡ flags_of word }
{
    match word {
        CROSS => CROSS_FLAGS,
        FULL => FULL_FLAGS,
        INNER => INNER_FLAGS,
        LEFT => LEFT_FLAGS,
        NATURAL => NATURAL_FLAGS,
        RIGHT => RIGHT_FLAGS,
        OUTER => OUTER_FLAGS,
        _ => NO_FLAGS,
    }
}

pub fn united(a: u32, b: u32) -> u32
    ensures { result ≡ united a b }
{
    a | b
}

fn has(flags: u32, bit: u32) -> bool
    ensures { result ≡ has flags bit }
{
    flags & bit != 0
}

// Judges the united flags, never one word's: OUTER LEFT is legal.
// Carried from `new_join_type` of turso_parser's parser.rs.
pub fn legal(flags: u32) -> bool
    ensures { result ≡ legal flags }
{
    !has(flags, OUTER_BIT)
        || !has(flags, INNER_BIT) && (has(flags, LEFT_BIT) || has(flags, RIGHT_BIT))
}

// One word or two, or none.
#[derive(Clone, Copy)]
pub struct Writing {
    pub first: Option<u32>,
    pub second: Option<u32>,
}

// The word that ends a writing and has these flags.
#[tactic(auto, unfolding(crate::specs::Fewest::ending_of, crate::specs::Fewest::endings, crate::specs::Flags::flags_of, crate::specs::Words::words))]
fn ending(flags: u32) -> Option<u32>
    ensures { result ≡ word_there (ending_of flags) }
{
    match flags {
        CROSS_FLAGS => Some(CROSS),
        INNER_FLAGS => Some(INNER),
        FULL_FLAGS => Some(FULL),
        LEFT_FLAGS => Some(LEFT),
        RIGHT_FLAGS => Some(RIGHT),
        _ => None,
    }
}

// The fewest words that have these flags; none for flags that no legal words have.
#[tactic(auto, unfolding(crate::specs::Fewest::fewest_of, crate::specs::Fewest::ending_of, crate::specs::Fewest::endings, crate::specs::Flags::flags_of, crate::specs::Words::words))]
pub fn fewest(flags: u32) -> Writing
    ensures { result ≡ writing_of (fewest_of flags) }
{
    if !has(flags, NATURAL_BIT) {
        return Writing {
            first: ending(flags),
            second: None,
        };
    }
    let rest = flags - NATURAL_BIT;
    let last = ending(rest);
    Writing {
        first: (rest == NO_FLAGS || last.is_some()).then_some(NATURAL),
        second: last,
    }
}
