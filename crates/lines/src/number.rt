// Decimal digits, and numbers that grow by them.
ghost use Rattle.std.specs.Prelude.{◌≡◌};
ghost use Rattle.lines.specs.Numbers.{digit_of, with_digit};

// The digit that a byte is.
pub fn digit(byte: u8) -> Option<u32>
    ensures { result ≡ digit_of byte }
{
    char::from(byte).to_digit(10)
}

// The number with a digit more, where it is at most `most`.
pub fn with_digit(n: u32, d: u32, most: u32) -> Option<u32>
    ensures { result ≡ with_digit n d most }
{
    n.checked_mul(10)?
        .checked_add(d)
        .filter(|grown| *grown <= most)
}
