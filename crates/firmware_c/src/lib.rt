// The static library for C: the two calls of `firmware`, under their names in include/cjarvint.h.
#![tactic(auto)]

ghost use Rattle.std.specs.Prelude.{◌≡◌};
ghost use Rattle.grammar.specs.Promise.{Reads, Writes};
ghost use Rattle.reader.specs.Answers.{Few};

use firmware::Told;

#[unsafe(no_mangle)]
pub extern "C" fn cjarvint_read<'a>(kinds: &'a [u32], texts: &'a [u32], nodes: &mut [u32]) -> Told
    ensures { Reads kinds.now texts.now nodes.old result.number result.place nodes.new × Few kinds.now result.place }
{
    firmware::cjarvint_read(kinds, texts, nodes)
}

#[unsafe(no_mangle)]
pub extern "C" fn cjarvint_write<'a>(
    kinds: &'a [u32],
    texts: &'a [u32],
    nodes: &mut [u32],
    out_kinds: &mut [u32],
    out_texts: &mut [u32],
) -> Told
    ensures { Writes kinds.now texts.now nodes.old out_kinds.old out_texts.old result.number result.place nodes.new out_kinds.new out_texts.new }
{
    firmware::cjarvint_write(kinds, texts, nodes, out_kinds, out_texts)
}
