// Lists of tokens, as the writer fills them.
use lines::TOKENS;

// Two lists, as the writer takes them: its C interface has two. Not a `Command`, for the writer fills them itself, and
// the writing that a line tells is compared with them up to a count that is not that line's.
#[derive(Drop)]
pub struct Tokens {
    pub kinds: [u32; TOKENS],
    pub texts: [u32; TOKENS],
}

impl Tokens {
    pub fn new() -> Tokens {
        Tokens {
            kinds: [0; TOKENS],
            texts: [0; TOKENS],
        }
    }

    // Whether the first `count` tokens are the same.
    pub fn agree(&self, other: &Tokens, count: usize) -> bool {
        let end = count.min(TOKENS);
        self.kinds[..end] == other.kinds[..end] && self.texts[..end] == other.texts[..end]
    }
}
