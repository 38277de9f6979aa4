// Names of kinds, join words and operators.
use kinds::node;

// Kinds, as document 01 has them, from 0 on. A table, not a `match`, which would have 72 arms with no more in them.
static KINDS: [&str; 72] = [
    "no kind", "ID", "KWID", "STRING", "INDEXED", "JOIN_KW", "INTEGER", "FLOAT", "BLOB",
    "VARIABLE", "CTIME_KW", "NULL", "LP", "RP", "COMMA", "DOT", "SEMI", "STAR", "PLUS", "MINUS",
    "SLASH", "REM", "CONCAT", "BITAND", "BITOR", "LSHIFT", "RSHIFT", "BITNOT", "EQ", "NE", "LT",
    "LE", "GT", "GE", "AND", "OR", "NOT", "IS", "IN", "BETWEEN", "LIKE_KW", "ISNULL", "NOTNULL",
    "COLLATE", "CASE", "WHEN", "THEN", "ELSE", "END", "CAST", "AS", "EXISTS", "SELECT", "VALUES",
    "DISTINCT", "ALL", "FROM", "JOIN", "ON", "USING", "WHERE", "GROUP", "BY", "HAVING", "ORDER",
    "ASC", "DESC", "NULLS", "FIRST", "LAST", "LIMIT", "OFFSET",
];

// Nothing where there is no such kind.
pub fn kind(kind: u32) -> &'static str {
    KINDS.get(kind as usize).copied().unwrap_or("")
}

// A join word, by its text number.
pub fn join_word(text: u32) -> &'static str {
    match text {
        words::NO_WORD => "a word",
        words::CROSS => "CROSS",
        words::FULL => "FULL",
        words::INNER => "INNER",
        words::LEFT => "LEFT",
        words::NATURAL => "NATURAL",
        words::RIGHT => "RIGHT",
        words::OUTER => "OUTER",
        _ => "",
    }
}

// The word of a LIKE_KW, by its text number.
pub fn like(text: u32) -> &'static str {
    match text {
        1 => "LIKE",
        2 => "GLOB",
        _ => "REGEXP",
    }
}

// A prefix or binary operator, by the detail of its record; any other kind has its name.
pub fn operator(detail: u32) -> &'static str {
    match detail {
        kinds::STAR..=kinds::GE => sign(detail),
        node::IS_NOT => "IS NOT",
        201..=203 => like(detail - node::LIKE),
        301 => "NOT LIKE",
        302 => "NOT GLOB",
        303 => "NOT REGEXP",
        _ => kind(detail),
    }
}

// The sign of a kind from STAR to GE.
fn sign(kind: u32) -> &'static str {
    match kind {
        kinds::STAR => "*",
        kinds::PLUS => "+",
        kinds::MINUS => "-",
        kinds::SLASH => "/",
        kinds::REM => "%",
        kinds::CONCAT => "||",
        kinds::BITAND => "&",
        kinds::BITOR => "|",
        kinds::LSHIFT => "<<",
        kinds::RSHIFT => ">>",
        kinds::BITNOT => "~",
        kinds::EQ => "=",
        kinds::NE => "<>",
        kinds::LT => "<",
        kinds::LE => "<=",
        kinds::GT => ">",
        _ => ">=",
    }
}
