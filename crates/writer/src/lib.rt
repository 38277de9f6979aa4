// The writer: a command's canonical writing. It is read into records; one walker then goes through them from
// the last token to the first, three times: lent no list it counts, then it writes the kinds, then the texts.
#![tactic(auto)]

mod lent;
mod spelling;

ghost use Rattle.std.specs.Prelude.{◌≡◌, ◌≤◌, length};
ghost use Rattle.grammar.specs.NodeNames.{node_query};
ghost use Rattle.grammar.specs.Promise.{Writes};
ghost use Rattle.shapes.specs.Shape.{a_query};
ghost use Rattle.scribe.proofs.Whole.{Whole};
ghost use Rattle.scribe.proofs.Parts.{Spells, Coded, coded_toks};
ghost use Rattle.reader.specs.Answers.{number, place, Plain};
ghost use Rattle.writer.specs.Pages.{nodes_of, lane_in, MOST, Walks};

use lent::{Numbers, Pages};
use reader::{Reason, Refusal};
use spelling::Pen;

// Where the walk that counts begins: above every place that a writing reaches.
const HIGH: u32 = 1 << 20;

// One walk of a table that holds so many records.
fn walk(pages: &Pages, records: u32, out: &mut [u32], to: u32) -> u32
    requires { Coded node_query (nodes_of pages.now) records }
    ensures { Spells (coded_toks node_query) (nodes_of pages.now) (lane_in pages.now) out.old out.new result to records }
{
    let mut pen = Pen { out, to };
    pen.query(pages, records);
    pen.to
}

// The three walks. No part of `write`: what lies on the stack here is not there while `write` reads.
#[inline(never)]
fn walks(
    nodes: &[u32],
    records: u32,
    out_kinds: &mut [u32],
    out_texts: &mut [u32],
) -> Result<usize, Refusal>
    requires { Whole a_query nodes.now records × (records ≤ MOST) × (length out_kinds.old ≡ length out_texts.old) }
    ensures { Walks nodes.now records out_kinds.old out_texts.old (number result) (place result) out_kinds.new out_texts.new × Plain result }
{
    let strengths = kinds::strengths();
    let mut pages = Pages {
        nodes,
        strengths: &strengths,
        numbers: Numbers::Kinds,
    };
    let count = HIGH - walk(&pages, records, &mut out_kinds[..0], HIGH);
    let need = count as usize;
    if need > out_kinds.len() {
        return Err(Refusal {
            why: Reason::OutputShort,
            place: need,
        });
    }
    walk(&pages, records, out_kinds, count);
    pages.numbers = Numbers::Texts;
    walk(&pages, records, out_texts, count);
    Ok(need)
}

// Writes the command's canonical writing, or refuses it; what is refused leaves the lists as they were, but 10
// leaves the reading in the table.
pub fn write<'a>(
    kinds: &'a [u32],
    texts: &'a [u32],
    nodes: &mut [u32],
    out_kinds: &mut [u32],
    out_texts: &mut [u32],
) -> Result<usize, Refusal>
    ensures { Writes kinds.now texts.now nodes.old out_kinds.old out_texts.old (number result) (place result) nodes.new out_kinds.new out_texts.new × Plain result }
{
    if out_kinds.len() != out_texts.len() {
        return Err(Refusal {
            why: Reason::Lengths,
            place: 0,
        });
    }
    let records = reader::read(kinds, texts, nodes)?;
    walks(nodes, records as u32, out_kinds, out_texts)
}
