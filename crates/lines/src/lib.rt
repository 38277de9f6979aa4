// Lines of commands, taken byte by byte: no line is too long for a buffer. Two forms:
//
//     kind[.text] kind[.text] ...
//     table=N outk=N outt=N kinds: K K .. texts: T T ..
//
// Blanks may stand before, between and after; the first form may be empty. The numbers are stored as they come.
#![tactic(auto)]

mod command;
mod number;
mod state;
mod vectors;

ghost use Rattle.std.specs.Prelude.{◌≡◌, ◌≤◌, slice_get};
ghost use Rattle.lines.specs.Numbers.{last_set};
ghost use Rattle.lines.specs.Forms.{no_line, is_wrong, is_room, table_of, out_kinds_of, out_texts_of, may_end, ended_line, line_with, kinds_with, texts_with};
ghost use Rattle.lines.specs.Forms as forms;

pub use command::Command;
pub use number::{digit, with_digit};
use state::State;
pub use vectors::Expected;

// The most tokens that a line may have, and the longest output that it may ask for.
pub const TOKENS: usize = 8192;

const OUTPUT: u32 = 8192;

// The longest node table that a line may ask for.
pub const TABLE: u32 = 65536;

// The words of the second form, and how many of their bytes are behind after each: numbers, not an enum of words, for a
// line is between two letters as well.
const WORDS: &[u8] = b"table=outk=outt=kinds:texts:";

const AFTER_TABLE: usize = b"table=".len();

const AFTER_OUTK: usize = b"table=outk=".len();

const AFTER_OUTT: usize = b"table=outk=outt=".len();

const AFTER_KINDS: usize = b"table=outk=outt=kinds:".len();

const AFTER_TEXTS: usize = WORDS.len();

#[derive(Clone, Copy, PartialEq, Eq, Debug, Default)]
pub struct Line {
    state: State,
    // Bytes of WORDS that are behind.
    spelled: usize,
    // The number that the line is in.
    number: u32,
    // How many bytes were taken, up to the first that did not fit.
    pub column: u64,
    pub kinds: usize,
    pub texts: usize,
    // What the second form says after `table=`, `outk=` and `outt=`.
    table: u32,
    out_kinds: u32,
    out_texts: u32,
}

impl Line {
    pub fn new() -> Line
        ensures { result ≡ no_line }
    {
        Line::default()
    }

    pub fn is_wrong(&self) -> bool
        ensures { result ≡ is_wrong self.now }
    {
        self.state == State::Wrong
    }

    // Whether the line has the second form.
    pub fn is_room(&self) -> bool
        ensures { result ≡ is_room self.now }
    {
        self.spelled > 0
    }

    // How many numbers the node table is to have.
    pub fn table(&self) -> u32
        ensures { result ≡ table_of self.now }
    {
        self.size(self.table, TABLE)
    }

    // How many kinds and how many text numbers the writer's output is to have.
    pub fn out_kinds(&self) -> u32
        ensures { result ≡ out_kinds_of self.now }
    {
        self.size(self.out_kinds, OUTPUT)
    }

    pub fn out_texts(&self) -> u32
        ensures { result ≡ out_texts_of self.now }
    {
        self.size(self.out_texts, OUTPUT)
    }

    // A size that the second form asks for; the first has the largest.
    fn size(&self, asked: u32, most: u32) -> u32
        ensures { result ≡ forms.size_of self.now asked most }
    {
        if self.is_room() { asked } else { most }
    }

    // Whether what was taken is a line of one of the forms.
    pub fn may_end(&self) -> bool
        ensures { result ≡ may_end self.now }
    {
        match self.state {
            State::Start | State::Gap | State::Kind | State::Text => true,
            State::Colon | State::Between | State::Item => self.spelled == AFTER_TEXTS,
            _ => false,
        }
    }

    // The line's end: it is wrong, just after its last byte, where it is cut short.
    pub fn end(&mut self)
        ensures { self.new ≡ ended_line self.old }
    {
        if !self.is_wrong() && !self.may_end() {
            self.count();
            self.fail();
        }
    }

    // One byte more, that is no line end; a number of a list goes into its list.
    // The lists beside the line, of any length: what is promised of them may not change. `Command` has all in one.
    pub fn take(&mut self, byte: u8, kinds: &mut [u32], texts: &mut [u32])
        ensures value { self.new ≡ line_with self.old byte }
        ensures kinds_after { kinds.new ≡ kinds_with (line_with self.old byte) kinds.old }
        ensures texts_after { texts.new ≡ texts_with (line_with self.old byte) texts.old }
    {
        self.step(byte);
        self.store(kinds, texts);
    }

    fn step(&mut self, byte: u8)
        ensures { self.new ≡ line_with self.old byte }
    {
        if !self.is_wrong() {
            self.count();
            self.on_byte(byte);
        }
    }

    fn count(&mut self)
        ensures { self.new ≡ forms.counted self.old }
    {
        self.column = self.column.wrapping_add(1);
    }

    fn fail(&mut self)
        ensures { self.new ≡ forms.wrong_line self.old }
    {
        self.state = State::Wrong;
    }

    fn on_byte(&mut self, byte: u8)
        ensures { self.new ≡ forms.on_byte self.old byte }
    {
        match byte {
            b' ' => self.state = self.state.after_blank(),
            b'.' => self.state = self.state.after_dot(),
            _ => match digit(byte) {
                Some(d) => self.figure(d),
                None => self.letter(byte),
            },
        }
    }

    // A digit begins a number, or is one more of the number that the line is in.
    fn figure(&mut self, d: u32)
        ensures { self.new ≡ forms.on_digit self.old d }
    {
        match self.state {
            State::Start | State::Gap => self.enter(State::Kind),
            State::Dot => self.enter(State::Text),
            State::Equals => self.enter(State::Size),
            State::Between => self.enter(State::Item),
            State::Kind | State::Text | State::Size | State::Item => {}
            _ => self.fail(),
        }
        self.grow(d);
    }

    // A number begins, and is an entry more of the lists that it is in.
    fn enter(&mut self, state: State)
        ensures { self.new ≡ forms.entered state self.old }
    {
        let (kinds, texts) = self.entries(state);
        if self.kinds > TOKENS - kinds || self.texts > TOKENS - texts {
            self.fail();
            return;
        }
        self.state = state;
        self.number = 0;
        self.kinds += kinds;
        self.texts += texts;
    }

    // How many kinds and text numbers a number is that begins in that state: a token has one of each, a number of a list
    // is one of the two.
    fn entries(&self, state: State) -> (usize, usize)
        ensures kinds { result.0 ≡ forms.new_kinds state self.now.spelled }
        ensures texts { result.1 ≡ forms.new_texts state self.now.spelled }
        ensures upper_bound { (result.0 ≤ 1) × (result.1 ≤ 1) }
    {
        match state {
            State::Kind => (1, 1),
            State::Item if self.spelled == AFTER_KINDS => (1, 0),
            State::Item => (0, 1),
            _ => (0, 0),
        }
    }

    // A digit more.
    fn grow(&mut self, d: u32)
        ensures { self.new ≡ forms.grown self.old d }
    {
        if self.is_wrong() {
            return;
        }
        match with_digit(self.number, d, self.most()) {
            Some(n) => self.set_number(n),
            None => self.fail(),
        }
    }

    fn most(&self) -> u32
        ensures { result ≡ forms.most self.now }
    {
        match self.state {
            State::Size if self.spelled == AFTER_TABLE => TABLE,
            State::Size => OUTPUT,
            _ => u32::MAX,
        }
    }

    // A number after `=` is the size that the word before it asks for.
    fn set_number(&mut self, n: u32)
        ensures { self.new ≡ forms.numbered n self.old }
    {
        self.number = n;
        if self.state == State::Size {
            match self.spelled {
                AFTER_TABLE => self.table = n,
                AFTER_OUTK => self.out_kinds = n,
                AFTER_OUTT => self.out_texts = n,
                _ => {}
            }
        }
    }

    // The byte of the words that is to come.
    fn next_letter(&self) -> Option<u8>
        ensures { result ≡ slice_get forms.WORDS self.now.spelled }
    {
        WORDS.get(self.spelled).copied()
    }

    // A byte of a word.
    fn letter(&mut self, byte: u8)
        ensures { self.new ≡ forms.on_letter self.old byte }
    {
        match self.state {
            State::Start | State::Word | State::Space | State::Between => self.spell(byte),
            _ => self.fail(),
        }
    }

    fn spell(&mut self, byte: u8)
        ensures { self.new ≡ forms.spelt_by self.old byte }
    {
        if self.next_letter() == Some(byte) {
            self.spelled += 1;
            self.state = State::after_letter(byte);
        } else {
            self.fail();
        }
    }

    // The number that the line is in goes into its list; a token's text number is 0 until it comes.
    fn store(&self, kinds: &mut [u32], texts: &mut [u32])
        ensures kinds_after { kinds.new ≡ kinds_with self.now kinds.old }
        ensures texts_after { texts.new ≡ texts_with self.now texts.old }
    {
        match self.state {
            State::Kind => {
                put(kinds, self.kinds, self.number);
                put(texts, self.texts, 0);
            }
            State::Text => put(texts, self.texts, self.number),
            State::Item if self.spelled == AFTER_KINDS => put(kinds, self.kinds, self.number),
            State::Item => put(texts, self.texts, self.number),
            _ => {}
        }
    }
}

// The last of `count` numbers.
fn put(list: &mut [u32], count: usize, n: u32)
    ensures { list.new ≡ last_set list.old count n }
{
    // Not by `get_mut`: tried, and the proof did not close, for its contract says nothing of the element.
    if count > 0 && count <= list.len() {
        list[count - 1] = n;
    }
}
