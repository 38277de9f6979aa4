// Why a command is refused, by document 01's numbers, and where.
ghost use Rattle.std.specs.Prelude.{◌≡◌};
ghost use Rattle.reader.specs.Refusals.{number_of};

#[derive(Clone, Copy, PartialEq, Eq, Debug)]
pub enum Reason {
    // The lists' lengths differ, or there are more tokens than 4,096.
    Lengths = 1,
    // The token's kind or its text number is none of 01's.
    Unfit = 2,
    // The token can't follow.
    CannotFollow = 3,
    // The list begins a command and isn't one.
    Unfinished = 4,
    // A level-65 expression starts.
    TooDeep = 5,
    // A 17th query opens.
    TooManyQueries = 6,
    // The united flags of join words mean no join.
    JoinFlags = 7,
    // A row is not as long as the first.
    RowLength = 8,
    // The node table is too short for the records.
    TableShort = 9,
    // The writer's output is too short for the tokens.
    OutputShort = 10,
}

impl Reason {
    pub fn number(self) -> u32
        ensures { result ≡ number_of self }
    {
        self as u32
    }
}

// A refusal: its place is a token's, or how much there is, or would have to be.
#[derive(Clone, Copy, PartialEq, Eq, Debug)]
pub struct Refusal {
    pub why: Reason,
    pub place: usize,
}
