// Names of records and of their details, as document 01's table of the reading has them. Codes and details are numbers,
// not enums: a record is four numbers of the table that a caller lends, and document 01 tells them apart by ranges.
use crate::names::{join_word, operator};
use kinds::node;
use std::fmt;

// Names of codes, from 0 on. A table, not a `match`: see `names`.
static CODES: [&str; 45] = [
    "absent",
    "query",
    "select",
    "values",
    "list",
    "STAR",
    "name STAR",
    "column",
    "FROM",
    "join",
    "ON",
    "USING",
    "table",
    "query in FROM",
    "sort",
    "",
    "",
    "",
    "",
    "",
    "name",
    "name",
    "name",
    "name",
    "INTEGER",
    "FLOAT",
    "STRING",
    "BLOB",
    "VARIABLE",
    "CTIME_KW",
    "NULL",
    "names",
    "call",
    "parentheses",
    "subquery",
    "EXISTS",
    "CASE",
    "CAST",
    "prefix",
    "binary",
    "postfix",
    "IN list",
    "IN query",
    "BETWEEN",
    "COLLATE",
];

// A record: its name, and its detail in words.
#[derive(Clone, Copy)]
pub struct Label {
    pub code: u32,
    pub detail: u32,
}

impl fmt::Display for Label {
    fn fmt<W: fmt::Write>(&self, f: &mut fmt::Formatter<W>) -> fmt::Result {
        let code = self.code;
        let detail = self.detail;
        f.write_str(negation(code, detail))?;
        f.write_str(CODES.get(code as usize).copied().unwrap_or(""))?;
        match code {
            node::SELECT => f.write_str(select(detail)),
            node::COLUMN => f.write_str(alias(detail)),
            node::CALL => f.write_str(call(detail)),
            node::JOIN => f.write(Join(detail)),
            node::TABLE | node::QUERY_SOURCE => {
                f.write_str(alias(detail % node::UPPER))?;
                f.write_str(index(detail / node::UPPER))
            }
            node::SORT => {
                f.write_str(direction(detail % node::UPPER))?;
                f.write_str(nulls(detail / node::UPPER))
            }
            node::JOIN_NAME => write!(f, " #{detail} from JOIN_KW {}", join_word(detail)),
            node::ID..=node::CTIME => write!(f, " #{detail}{}", origin(code)),
            node::PREFIX..=node::NULL_TEST => write!(f, " {}", operator(detail)),
            _ => Ok(()),
        }
    }
}

// NOT before IN and BETWEEN.
fn negation(code: u32, detail: u32) -> &'static str {
    match code {
        node::IN_LIST..=node::BETWEEN if detail != 0 => "NOT ",
        _ => "",
    }
}

fn select(detail: u32) -> &'static str {
    match detail {
        node::DISTINCT => " DISTINCT",
        2 => " ALL",
        _ => "",
    }
}

fn call(detail: u32) -> &'static str {
    match detail {
        node::DISTINCT => " DISTINCT",
        node::STAR_CALL => " STAR",
        _ => "",
    }
}

fn alias(mode: u32) -> &'static str {
    match mode {
        1 => " AS",
        2 => " bare alias",
        _ => "",
    }
}

fn index(mode: u32) -> &'static str {
    match mode {
        1 => " INDEXED BY",
        node::NOT_INDEXED => " NOT INDEXED",
        _ => "",
    }
}

fn direction(mode: u32) -> &'static str {
    match mode {
        1 => " ASC",
        node::DESC => " DESC",
        _ => "",
    }
}

fn nulls(mode: u32) -> &'static str {
    match mode {
        node::FIRST => " NULLS FIRST",
        node::LAST => " NULLS LAST",
        _ => "",
    }
}

// The kind that a name's token had, where it is not ID.
fn origin(code: u32) -> &'static str {
    match code {
        node::STRING_NAME => " from STRING",
        node::INDEXED_NAME => " from INDEXED",
        _ => "",
    }
}

// The detail of a join: COMMA, or the words that its flags stand for.
#[derive(Clone, Copy)]
struct Join(u32);

impl Join {
    fn has(&self, flag: u32) -> bool {
        self.0 & flag != 0
    }

    fn side(&self) -> &'static str {
        match (self.has(words::LEFT_BIT), self.has(words::RIGHT_BIT)) {
            (true, true) => " FULL",
            (true, false) => " LEFT",
            (false, true) => " RIGHT",
            (false, false) => "",
        }
    }

    fn inner(&self) -> &'static str {
        if self.has(words::CROSS_BIT) {
            " CROSS"
        } else if self.has(words::INNER_BIT) {
            " INNER"
        } else {
            ""
        }
    }
}

impl fmt::Display for Join {
    fn fmt<W: fmt::Write>(&self, f: &mut fmt::Formatter<W>) -> fmt::Result {
        if self.0 == node::COMMA {
            return f.write_str(" COMMA");
        }
        if self.has(words::NATURAL_BIT) {
            f.write_str(" NATURAL")?;
        }
        f.write_str(self.side())?;
        if self.has(words::OUTER_BIT) {
            f.write_str(" OUTER")?;
        }
        f.write_str(self.inner())
    }
}
