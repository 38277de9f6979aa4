// Commands in tables of 4,096 places, which are clear at first.
ghost use Rattle.std.specs.Prelude.{◌≡◌, take};
ghost use Rattle.grammar.specs.Promise.{Reads, Writes};
ghost use Rattle.reader.specs.Answers.{number, place, Few, Plain};
ghost use Rattle.reading.specs.Places.{placed};

use reader::Refusal;

pub const PLACES: usize = 4096;

// A number into a table, where it has the place.
pub fn put(list: &mut [u32; PLACES], at: usize, n: u32)
    ensures { list.new ≡ placed list.old at n }
{
    if at < PLACES {
        list[at] = n;
    }
}

// Reads the first `count` tokens.
pub fn read_places<'a>(
    kinds: &'a [u32; PLACES],
    texts: &'a [u32; PLACES],
    count: usize,
    nodes: &mut [u32; PLACES],
) -> Result<usize, Refusal>
    ensures { Reads (take count kinds.now) (take count texts.now) nodes.old (number result) (place result) nodes.new × Few (take count kinds.now) (place result) × Plain result }
{
    let k: &[u32] = kinds;
    let t: &[u32] = texts;
    let n = report::within(count, k);
    let m = report::within(count, t);
    reader::read(&k[..n], &t[..m], nodes)
}

// Writes the first `count` tokens.
pub fn write_places<'a>(
    kinds: &'a [u32; PLACES],
    texts: &'a [u32; PLACES],
    count: usize,
    nodes: &mut [u32; PLACES],
    out_kinds: &mut [u32; PLACES],
    out_texts: &mut [u32; PLACES],
) -> Result<usize, Refusal>
    ensures { Writes (take count kinds.now) (take count texts.now) nodes.old out_kinds.old out_texts.old (number result) (place result) nodes.new out_kinds.new out_texts.new × Plain result }
{
    let k: &[u32] = kinds;
    let t: &[u32] = texts;
    let n = report::within(count, k);
    let m = report::within(count, t);
    writer::write(&k[..n], &t[..m], nodes, out_kinds, out_texts)
}
