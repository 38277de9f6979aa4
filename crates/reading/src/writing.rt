// A writing as the programs see it: what the writer says, and what it leaves in two lists that were clear.
ghost use Rattle.reading.specs.Writings.{LeftIn, Written};

use lines::Line;
use reader::Refusal;

#[derive(Clone, Copy)]
pub struct Writing {
    // How many tokens there are, or why there is no writing.
    pub got: Result<usize, Refusal>,
    // How many numbers of each list are the writing.
    pub used: usize,
    // Whether all numbers beyond are still clear.
    pub kept: bool,
}

// The answer, and what was left in the lists.
fn left<'a>(got: Result<usize, Refusal>, out_kinds: &'a [u32], out_texts: &'a [u32]) -> Writing
    ensures { LeftIn got out_kinds.now out_texts.now result }
{
    let used = got.unwrap_or(0);
    let kind = report::changed(out_kinds, used);
    let text = report::changed(out_texts, used);
    Writing {
        got,
        used,
        kept: kind.is_none() && text.is_none(),
    }
}

// The command of a line, from the lists that it was taken into, with as much of the table and of each output list
// as it asks for.
pub fn written<'a>(
    line: Line,
    kinds: &'a [u32],
    texts: &'a [u32],
    nodes: &mut [u32],
    out_kinds: &mut [u32],
    out_texts: &mut [u32],
) -> Writing
    ensures { Written line kinds.now texts.now nodes.old out_kinds.old out_texts.old nodes.new out_kinds.new out_texts.new result }
{
    let k = report::within(line.kinds, kinds);
    let t = report::within(line.texts, texts);
    let n = report::within(line.table() as usize, nodes);
    let a = report::within(line.out_kinds() as usize, out_kinds);
    let b = report::within(line.out_texts() as usize, out_texts);
    let got = writer::write(
        &kinds[..k],
        &texts[..t],
        &mut nodes[..n],
        &mut out_kinds[..a],
        &mut out_texts[..b],
    );
    left(got, out_kinds, out_texts)
}
