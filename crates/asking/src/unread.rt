// What is wrong with a line that has neither form, in words.
use std::fmt;

// The byte that did not fit, a line end where the line was cut short, the byte before it, and whether the line has the
// second form.
#[derive(Clone, Copy)]
pub struct Misfit {
    pub byte: u8,
    pub before: u8,
    pub is_room: bool,
}

impl fmt::Display for Misfit {
    fn fmt<W: fmt::Write>(&self, f: &mut fmt::Formatter<W>) -> fmt::Result {
        let byte = Quoted(self.byte);
        match (self.byte, self.before) {
            (b'0'..=b'9', b'0'..=b'9') => f.write_str("the number is too large"),
            (b'0'..=b'9', _) if !self.is_room => f.write_str("more than 8,192 tokens"),
            (b'0'..=b'9', _) => write!(f, "{byte}{UNFIT}"),
            (_, b'.') => write!(f, "{byte} stands where a text number must follow the dot"),
            (_, b'=') => write!(f, "{byte} stands where a number must follow the '='"),
            _ if self.is_room => write!(f, "{byte}{UNFIT}"),
            (b'.', _) => write!(f, "{byte} doesn't follow a kind"),
            _ => write!(f, "{byte} is no number"),
        }
    }
}

// A byte that doesn't belong in the second form.
const UNFIT: &str = " doesn't fit table=N outk=N outt=N kinds: K K .. texts: T T ..";

// A byte as it is written, or by its number where it can't be.
#[derive(Clone, Copy)]
struct Quoted(u8);

impl fmt::Display for Quoted {
    fn fmt<W: fmt::Write>(&self, f: &mut fmt::Formatter<W>) -> fmt::Result {
        let byte = self.0;
        match byte {
            b'!'..=b'~' => write!(f, "'{}'", char::from(byte)),
            b' ' => f.write_str("a blank"),
            b'\n' => f.write_str("the line's end"),
            _ => write!(f, "byte value {byte}"),
        }
    }
}
