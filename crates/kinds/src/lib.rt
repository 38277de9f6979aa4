// The token kinds of document 01: their names, the fit test, the strengths, and the classes of kinds.
// Whoever tests a kind asks here; no other crate tests one by its number.
#![tactic(auto)]

pub mod node;

ghost use Rattle.std.specs.Prelude.{◌≡◌};
ghost use Rattle.kinds.specs.Classes.{is_name, is_bare_alias, is_literal, heads_call, begins_expr, reads_text, is_binary, name_code, literal_code, code_there};
ghost use Rattle.kinds.specs.Fit.{fits};
ghost use Rattle.kinds.specs.Strength.{strength_table, entry_of, prefix_of};

// Numbers, not an enum: document 01 wants a match over ranges of them and a constant table from each to its strength, and they are the numbers in
// the lists that C lends.
pub const ID: u32 = 1;

pub const KWID: u32 = 2;

pub const STRING: u32 = 3;

pub const INDEXED: u32 = 4;

pub const JOIN_KW: u32 = 5;

pub const INTEGER: u32 = 6;

pub const FLOAT: u32 = 7;

pub const BLOB: u32 = 8;

pub const VARIABLE: u32 = 9;

pub const CTIME_KW: u32 = 10;

pub const NULL: u32 = 11;

pub const LP: u32 = 12;

pub const RP: u32 = 13;

pub const COMMA: u32 = 14;

pub const DOT: u32 = 15;

pub const SEMI: u32 = 16;

pub const STAR: u32 = 17;

pub const PLUS: u32 = 18;

pub const MINUS: u32 = 19;

pub const SLASH: u32 = 20;

pub const REM: u32 = 21;

pub const CONCAT: u32 = 22;

pub const BITAND: u32 = 23;

pub const BITOR: u32 = 24;

pub const LSHIFT: u32 = 25;

pub const RSHIFT: u32 = 26;

pub const BITNOT: u32 = 27;

pub const EQ: u32 = 28;

pub const NE: u32 = 29;

pub const LT: u32 = 30;

pub const LE: u32 = 31;

pub const GT: u32 = 32;

pub const GE: u32 = 33;

pub const AND: u32 = 34;

pub const OR: u32 = 35;

pub const NOT: u32 = 36;

pub const IS: u32 = 37;

pub const IN: u32 = 38;

pub const BETWEEN: u32 = 39;

pub const LIKE_KW: u32 = 40;

pub const ISNULL: u32 = 41;

pub const NOTNULL: u32 = 42;

pub const COLLATE: u32 = 43;

pub const CASE: u32 = 44;

pub const WHEN: u32 = 45;

pub const THEN: u32 = 46;

pub const ELSE: u32 = 47;

pub const END: u32 = 48;

pub const CAST: u32 = 49;

pub const AS: u32 = 50;

pub const EXISTS: u32 = 51;

pub const SELECT: u32 = 52;

pub const VALUES: u32 = 53;

pub const DISTINCT: u32 = 54;

pub const ALL: u32 = 55;

pub const FROM: u32 = 56;

pub const JOIN: u32 = 57;

pub const ON: u32 = 58;

pub const USING: u32 = 59;

pub const WHERE: u32 = 60;

pub const GROUP: u32 = 61;

pub const BY: u32 = 62;

pub const HAVING: u32 = 63;

pub const ORDER: u32 = 64;

pub const ASC: u32 = 65;

pub const DESC: u32 = 66;

pub const NULLS: u32 = 67;

pub const FIRST: u32 = 68;

pub const LAST: u32 = 69;

pub const LIMIT: u32 = 70;

pub const OFFSET: u32 = 71;

// How many kinds there are: they are numbered from 1 to this.
pub const KINDS: u32 = 71;

// How many text numbers JOIN_KW has, and LIKE_KW: each is numbered from 1.
const JOIN_WORDS: u32 = 7;

const LIKE_WORDS: u32 = 3;

// Whether a token may stand in a list at all (else refusal 2): its kind is one of 01's, and so is the text number of JOIN_KW and of LIKE_KW.
#[tactic(auto, unfolding(crate::specs::Fit::fits, crate::specs::Fit::fit_text))]
pub fn fit(kind: u32, text: u32) -> bool
    ensures { result ≡ fits kind text }
{
    match kind {
        JOIN_KW => matches!(text, 1..=JOIN_WORDS),
        LIKE_KW => matches!(text, 1..=LIKE_WORDS),
        ID..=KINDS => true,
        _ => false,
    }
}

// The strength of each kind after an operand, from ID on; 0 where the kind goes on with no expression.
const STRENGTHS: [u32; KINDS as usize] = [
    0, // ID
    0, // KWID
    0, // STRING
    0, // INDEXED
    0, // JOIN_KW
    0, // INTEGER
    0, // FLOAT
    0, // BLOB
    0, // VARIABLE
    0, // CTIME_KW
    0, // NULL
    0, // LP
    0, // RP
    0, // COMMA
    0, // DOT
    0, // SEMI
    8, // STAR
    7, // PLUS
    7, // MINUS
    8, // SLASH
    8, // REM
    9, // CONCAT
    6, // BITAND
    6, // BITOR
    6, // LSHIFT
    6, // RSHIFT
    0, // BITNOT
    4, // EQ
    4, // NE
    5, // LT
    5, // LE
    5, // GT
    5, // GE
    2, // AND
    1, // OR
    4, // NOT
    4, // IS
    4, // IN
    4, // BETWEEN
    4, // LIKE_KW
    4, // ISNULL
    4, // NOTNULL
    10, // COLLATE
    0, // CASE
    0, // WHEN
    0, // THEN
    0, // ELSE
    0, // END
    0, // CAST
    0, // AS
    0, // EXISTS
    0, // SELECT
    0, // VALUES
    0, // DISTINCT
    0, // ALL
    0, // FROM
    0, // JOIN
    0, // ON
    0, // USING
    0, // WHERE
    0, // GROUP
    0, // BY
    0, // HAVING
    0, // ORDER
    0, // ASC
    0, // DESC
    0, // NULLS
    0, // FIRST
    0, // LAST
    0, // LIMIT
    0, // OFFSET
];

// The table of strengths, for `strength`. A constant array is laid on the stack of whoever reads it, so a reader lays it once and lends it.
#[tactic(auto, unfolding(crate::specs::Strength::strength_table, crate::specs::Strength::strength_of))]
pub fn strengths() -> [u32; KINDS as usize]
    ensures { result ≡ strength_table }
{
    STRENGTHS
}

// By that table, how tightly a kind binds that goes on after an operand; 0 for any that doesn't. 0, not an Option: it is the table's entry, and
// strengths are compared with it as the loosest.
pub fn strength(table: &[u32], kind: u32) -> u32
    ensures { result ≡ entry_of table.now kind }
{
    // No kind, 0, wraps to beyond every table.
    let i = (kind as usize).wrapping_sub(ID as usize);
    table.get(i).copied().unwrap_or(0)
}

// How tightly a kind binds before an operand; 0 for any that can't stand there, as in the table.
#[tactic(auto, unfolding(crate::specs::Strength::prefix_of))]
pub fn prefix(kind: u32) -> u32
    ensures { result ≡ prefix_of kind }
{
    match kind {
        NOT => 3,
        PLUS | MINUS | BITNOT => 11,
        _ => 0,
    }
}

// Whether a token of the kind is a name.
#[tactic(auto, unfolding(crate::specs::Classes::is_name))]
pub fn is_name(kind: u32) -> bool
    ensures { result ≡ is_name kind }
{
    matches!(kind, ID..=JOIN_KW)
}

// Whether it may be an alias with no AS before it.
#[tactic(auto, unfolding(crate::specs::Classes::is_bare_alias))]
pub fn is_bare_alias(kind: u32) -> bool
    ensures { result ≡ is_bare_alias kind }
{
    matches!(kind, ID..=STRING)
}

// Whether it is a literal, an operand by itself.
#[tactic(auto, unfolding(crate::specs::Classes::is_literal))]
pub fn is_literal(kind: u32) -> bool
    ensures { result ≡ is_literal kind }
{
    matches!(kind, STRING | INTEGER..=NULL)
}

// Whether it may be the name of a call.
#[tactic(auto, unfolding(crate::specs::Classes::heads_call))]
pub fn heads_call(kind: u32) -> bool
    ensures { result ≡ heads_call kind }
{
    matches!(kind, ID | KWID | JOIN_KW)
}

// Whether an expression can begin with it. From ID to LP stand the names, the literals and LP.
#[tactic(auto, unfolding(crate::specs::Classes::begins_expr))]
pub fn begins_expr(kind: u32) -> bool
    ensures { result ≡ begins_expr kind }
{
    matches!(kind, ID..=LP | PLUS..=MINUS | BITNOT | NOT | CASE | CAST | EXISTS)
}

// Whether its text number is read.
#[tactic(auto, unfolding(crate::specs::Classes::reads_text))]
pub fn reads_text(kind: u32) -> bool
    ensures { result ≡ reads_text kind }
{
    matches!(kind, ID..=CTIME_KW | LIKE_KW)
}

// Whether it is a binary operator by itself: its record has code 39 and the kind as detail. (IS may go on to IS NOT, so it is none.)
#[tactic(auto, unfolding(crate::specs::Classes::is_binary))]
pub fn is_binary(kind: u32) -> bool
    ensures { result ≡ is_binary kind }
{
    matches!(kind, STAR..=RSHIFT | EQ..=OR)
}

// The code of a name's record; none where the kind is no name.
#[tactic(auto, unfolding(crate::specs::Classes::name_code))]
pub fn name_code(kind: u32) -> Option<u32>
    ensures { result ≡ code_there (name_code kind) }
{
    match kind {
        ID..=KWID => Some(node::ID),
        STRING => Some(node::STRING_NAME),
        INDEXED => Some(node::INDEXED_NAME),
        JOIN_KW => Some(node::JOIN_NAME),
        _ => None,
    }
}

// The code of a literal's record; none where the kind is no literal.
#[tactic(auto, unfolding(crate::specs::Classes::literal_code))]
pub fn literal_code(kind: u32) -> Option<u32>
    ensures { result ≡ code_there (literal_code kind) }
{
    match kind {
        INTEGER => Some(node::INTEGER),
        FLOAT => Some(node::FLOAT),
        STRING => Some(node::STRING),
        BLOB => Some(node::BLOB),
        VARIABLE => Some(node::VARIABLE),
        CTIME_KW => Some(node::CTIME),
        NULL => Some(node::NULL),
        _ => None,
    }
}
