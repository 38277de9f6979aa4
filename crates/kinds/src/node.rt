// The codes of document 01's records by name, and what the details of some say. Numbers, not an enum: records lie in the table that a
// caller lends as numbers, and are told apart by ranges of them.
pub const ABSENT: u32 = 0;

pub const QUERY: u32 = 1;

pub const SELECT: u32 = 2;

pub const VALUES: u32 = 3;

pub const LIST: u32 = 4;

pub const STAR: u32 = 5;

pub const NAME_STAR: u32 = 6;

pub const COLUMN: u32 = 7;

pub const FROM: u32 = 8;

pub const JOIN: u32 = 9;

pub const ON: u32 = 10;

pub const USING: u32 = 11;

pub const TABLE: u32 = 12;

pub const QUERY_SOURCE: u32 = 13;

pub const SORT: u32 = 14;

pub const ID: u32 = 20;

pub const STRING_NAME: u32 = 21;

pub const INDEXED_NAME: u32 = 22;

pub const JOIN_NAME: u32 = 23;

pub const INTEGER: u32 = 24;

pub const FLOAT: u32 = 25;

pub const STRING: u32 = 26;

pub const BLOB: u32 = 27;

pub const VARIABLE: u32 = 28;

pub const CTIME: u32 = 29;

pub const NULL: u32 = 30;

pub const NAMES: u32 = 31;

pub const CALL: u32 = 32;

pub const PARENS: u32 = 33;

pub const SUBQUERY: u32 = 34;

pub const EXISTS: u32 = 35;

pub const CASE: u32 = 36;

pub const CAST: u32 = 37;

pub const PREFIX: u32 = 38;

// From here on the first child is an operand that stands first.
pub const BINARY: u32 = 39;

pub const NULL_TEST: u32 = 40;

pub const IN_LIST: u32 = 41;

pub const IN_QUERY: u32 = 42;

pub const BETWEEN: u32 = 43;

pub const COLLATE: u32 = 44;

// Details. Of a select or a call: DISTINCT; of a call: STAR.
pub const DISTINCT: u32 = 1;

pub const STAR_CALL: u32 = 2;

// Of a join: COMMA, or flags from here on.
pub const COMMA: u32 = 0;

pub const FLAGS: u32 = 64;

// Of a table and a sort term: the upper part.
pub const UPPER: u32 = 4;

pub const NOT_INDEXED: u32 = 2;

pub const FIRST: u32 = 1;

pub const LAST: u32 = 2;

// Of a sort term: the lower part.
pub const DESC: u32 = 2;

// Of a binary operator, where it is no kind.
pub const WORDS: u32 = 100;

pub const IS_NOT: u32 = 137;

pub const LIKE: u32 = 200;

pub const NOT_LIKE: u32 = 300;

// Of IN and BETWEEN.
pub const NOT: u32 = 1;
