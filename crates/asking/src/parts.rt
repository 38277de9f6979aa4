// The parts that the children of a record are, as document 01's table of the reading has them.
use kinds::node;
use std::fmt;

#[derive(Clone, Copy, PartialEq, Eq, Debug)]
pub enum Part {
    // One that its record itself names.
    Plain,
    OrderBy,
    Limit,
    Offset,
    Columns,
    Where,
    GroupBy,
    Having,
    Row,
    Alias,
    Schema,
    Index,
    Arguments,
    Base,
    When,
    Then,
    Else,
    As,
    Low,
    High,
}

impl Part {
    // Which part of its parent, of that code, a child is: the one after `before` others, of `count`.
    pub fn of(parent: u32, before: u32, count: u32) -> Part {
        match parent {
            node::QUERY => Part::of_query(before),
            node::SELECT => Part::of_select(before),
            node::VALUES => Part::Row,
            node::COLUMN | node::QUERY_SOURCE => Part::second(before, Part::Alias),
            node::TABLE => Part::of_table(before),
            node::CALL => Part::second(before, Part::Arguments),
            node::CASE => Part::of_case(before, count),
            node::CAST => Part::second(before, Part::As),
            node::BETWEEN => Part::of_between(before),
            _ => Part::Plain,
        }
    }

    fn second(before: u32, part: Part) -> Part {
        if before == 1 { part } else { Part::Plain }
    }

    fn of_query(before: u32) -> Part {
        match before {
            1 => Part::OrderBy,
            2 => Part::Limit,
            3 => Part::Offset,
            _ => Part::Plain,
        }
    }

    fn of_select(before: u32) -> Part {
        match before {
            0 => Part::Columns,
            2 => Part::Where,
            3 => Part::GroupBy,
            4 => Part::Having,
            _ => Part::Plain,
        }
    }

    fn of_table(before: u32) -> Part {
        match before {
            0 => Part::Schema,
            2 => Part::Alias,
            3 => Part::Index,
            _ => Part::Plain,
        }
    }

    fn of_case(before: u32, count: u32) -> Part {
        if before == 0 {
            Part::Base
        } else if before.wrapping_add(1) == count {
            Part::Else
        } else if before % 2 == 1 {
            Part::When
        } else {
            Part::Then
        }
    }

    fn of_between(before: u32) -> Part {
        match before {
            1 => Part::Low,
            2 => Part::High,
            _ => Part::Plain,
        }
    }
}

// What stands before a child.
impl fmt::Display for Part {
    fn fmt<W: fmt::Write>(&self, f: &mut fmt::Formatter<W>) -> fmt::Result {
        f.write_str(match self {
            Part::Plain => "",
            Part::OrderBy => "ORDER BY: ",
            Part::Limit => "LIMIT: ",
            Part::Offset => "OFFSET: ",
            Part::Columns => "columns: ",
            Part::Where => "WHERE: ",
            Part::GroupBy => "GROUP BY: ",
            Part::Having => "HAVING: ",
            Part::Row => "row: ",
            Part::Alias => "alias: ",
            Part::Schema => "schema: ",
            Part::Index => "index: ",
            Part::Arguments => "arguments: ",
            Part::Base => "base: ",
            Part::When => "WHEN: ",
            Part::Then => "THEN: ",
            Part::Else => "ELSE: ",
            Part::As => "AS: ",
            Part::Low => "low: ",
            Part::High => "high: ",
        })
    }
}
