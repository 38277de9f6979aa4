// A reading as the programs see it: what the reader says, and what it leaves in a node table that was clear.
#![tactic(auto)]

mod places;
mod writing;

ghost use Rattle.std.specs.Prelude.{◌≡◌};
ghost use Rattle.report.specs.Tables.{Cleared};
ghost use Rattle.reading.specs.Readings.{no_reading, used_by, Left, ReadIn, OfLine, to_clear};
ghost use Rattle.reader.specs.Answers.{number, place};

use lines::Line;
pub use places::{PLACES, put, read_places, write_places};
use reader::Refusal;
pub use reader::WIDTH;
pub use writing::{Writing, written};

#[derive(Clone, Copy)]
pub struct Reading {
    // How many records there are, or why the command is refused.
    pub got: Result<usize, Refusal>,
    // How many numbers of the table are the records.
    pub used: usize,
    // The first number beyond that is not clear, if there is one.
    pub changed: Option<usize>,
}

// No reading yet.
pub fn none() -> Reading
    ensures { result ≡ no_reading }
{
    Reading {
        got: Ok(0),
        used: 0,
        changed: None,
    }
}

// 01's number of an answer, and its place.
pub fn number(got: Result<usize, Refusal>) -> u32
    ensures { result ≡ number got }
{
    match got {
        Ok(_) => 0,
        Err(refusal) => refusal.why.number(),
    }
}

pub fn place(got: Result<usize, Refusal>) -> usize
    ensures { result ≡ place got }
{
    match got {
        Ok(count) => count,
        Err(refusal) => refusal.place,
    }
}

// The answer, and what was left in the table.
pub fn left(got: Result<usize, Refusal>, nodes: &[u32]) -> Reading
    ensures { Left got nodes.now result }
{
    let used = used(got, nodes);
    Reading {
        got,
        used,
        changed: report::changed(nodes, used),
    }
}

// How many numbers the records have, of those that the table holds.
fn used(got: Result<usize, Refusal>, nodes: &[u32]) -> usize
    ensures { result ≡ used_by got nodes.now }
{
    match got {
        Ok(count) => count.min(nodes.len() / WIDTH) * WIDTH,
        Err(_) => 0,
    }
}

fn read<'a>(kinds: &'a [u32], texts: &'a [u32], nodes: &mut [u32]) -> Reading
    ensures { ReadIn kinds.now texts.now nodes.old nodes.new result }
{
    let got = reader::read(kinds, texts, nodes);
    left(got, nodes)
}

// The command of a line, from the lists that it was taken into, with as much of the table as it asks for.
pub fn of_line<'a>(line: Line, kinds: &'a [u32], texts: &'a [u32], nodes: &mut [u32]) -> Reading
    ensures { OfLine line kinds.now texts.now nodes.old nodes.new result }
{
    let k = report::within(line.kinds, kinds);
    let t = report::within(line.texts, texts);
    let n = report::within(line.table() as usize, nodes);
    read(&kinds[..k], &texts[..t], &mut nodes[..n])
}

// Clears a table after a reading.
pub fn clear(r: Reading, nodes: &mut [u32])
    ensures { Cleared nodes.old (to_clear r nodes.old) nodes.new }
{
    let count = r.changed.map_or(r.used, |_| nodes.len());
    report::clear(nodes, count);
}
