// Where a line stands, and where a byte takes it from there.
ghost use Rattle.std.specs.Prelude.{◌≡◌};
ghost use Rattle.lines.specs.States as states;

#[derive(Clone, Copy, PartialEq, Eq, Debug, Default)]
pub enum State {
    // A byte did not fit.
    Wrong,
    // Nothing but blanks so far.
    #[default]
    Start,
    // After a blank that follows a token.
    Gap,
    // In a kind.
    Kind,
    // After its dot.
    Dot,
    // In a text number.
    Text,
    // In a word.
    Word,
    // After `=`.
    Equals,
    // In the number after `=`.
    Size,
    // After a blank that follows such a number.
    Space,
    // After `:`.
    Colon,
    // After a blank that follows `:` or a number of its list.
    Between,
    // In a number of such a list.
    Item,
}

impl State {
    // A blank may stand before, between and after numbers and words.
    pub fn after_blank(self) -> State
        ensures { result ≡ states.after_blank self }
    {
        match self {
            State::Start => State::Start,
            State::Gap | State::Kind | State::Text => State::Gap,
            State::Space | State::Size => State::Space,
            State::Between | State::Colon | State::Item => State::Between,
            _ => State::Wrong,
        }
    }

    pub fn after_dot(self) -> State
        ensures { result ≡ states.after_dot self }
    {
        match self {
            State::Kind => State::Dot,
            _ => State::Wrong,
        }
    }

    // After a byte of a word.
    pub fn after_letter(byte: u8) -> State
        ensures { result ≡ states.after_letter byte }
    {
        match byte {
            b'=' => State::Equals,
            b':' => State::Colon,
            _ => State::Word,
        }
    }
}
