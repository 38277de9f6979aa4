// The two calls for C: each answers as the reader and the writer do, the answer as two plain numbers. A slice is
// a pointer and a length to C; include/cjarvint.h declares both functions.
#![tactic(auto)]

ghost use Rattle.std.specs.Prelude.{◌≡◌};
ghost use Rattle.grammar.specs.Promise.{Reads, Writes};
ghost use Rattle.reader.specs.Answers.{number, place, Few};

use reader::Refusal;

// 01's number and place of an answer: 0 and a count, or a refusal. C's `cjarvint_answer`.
#[repr(C)]
#[derive(Clone, Copy)]
pub struct Told {
    pub number: u32,
    pub place: usize,
}

impl From<Result<usize, Refusal>> for Told {
    ghost from_gives = { λ got told. (told.number ≡ number got) × (told.place ≡ place got) };

    fn from(got: Result<usize, Refusal>) -> Told {
        match got {
            Ok(count) => Told {
                number: 0,
                place: count,
            },
            Err(refusal) => Told {
                number: refusal.why.number(),
                place: refusal.place,
            },
        }
    }
}

#[unsafe(no_mangle)]
pub extern "C" fn cjarvint_read<'a>(kinds: &'a [u32], texts: &'a [u32], nodes: &mut [u32]) -> Told
    ensures { Reads kinds.now texts.now nodes.old result.number result.place nodes.new × Few kinds.now result.place }
{
    reader::read(kinds, texts, nodes).into()
}

#[unsafe(no_mangle)]
pub extern "C" fn cjarvint_write<'a>(
    kinds: &'a [u32],
    texts: &'a [u32],
    nodes: &mut [u32],
    out_kinds: &mut [u32],
    out_texts: &mut [u32],
) -> Told
    ensures { Writes kinds.now texts.now nodes.old out_kinds.old out_texts.old result.number result.place nodes.new out_kinds.new out_texts.new }
{
    writer::write(kinds, texts, nodes, out_kinds, out_texts).into()
}
