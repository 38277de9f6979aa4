// What the reader is lent for a whole reading: the kinds and the text numbers of the tokens, and the table of strengths.
ghost use Rattle.std.specs.Prelude.{◌≡◌, ◌≤◌, length};
ghost use Rattle.grammar.specs.Sizes.{TOKENS};
ghost use Rattle.kinds.specs.Strength.{strength_table};
ghost use Rattle.reader.specs.Likes.{greatest_like};

#[derive(Clone, Copy)]
pub struct Lists<'a> {
    pub kinds: &'a [u32],
    pub texts: &'a [u32],
    // A constant array is laid on the stack of whoever reads it, so it is laid once and lent.
    pub strengths: &'a [u32],
    ghost short: { length kinds.now ≤ TOKENS },
    ghost paired: { length texts.now ≡ length kinds.now },
    ghost liked: { greatest_like kinds.now texts.now ≤ 3 },
    ghost ruled: { strengths.now ≡ strength_table },
}
