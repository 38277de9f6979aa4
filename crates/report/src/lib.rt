// What the programs over the reader share: lines of output gathered in a block, a digest, and a node table
// that is to be clear.
#![tactic(auto)]

mod output;
mod table;

ghost use Rattle.std.specs.Prelude.{◌≡◌, ◌≤◌, min, length};
ghost use Rattle.io.specs.Counts.{IsPrefixLen};
ghost use Rattle.report.specs.Digests.{mixed_of};

pub use output::{BLOCK, Output};
pub use table::{changed, clear, digest};

const MODULUS: u64 = 4294967296;

const FACTOR: u64 = 1000003;

// A digest with a number more.
pub fn mixed(digest: u64, n: u64) -> u64
    ensures { result ≡ mixed_of digest n }
{
    (digest % MODULUS * FACTOR + n % MODULUS) % MODULUS
}

// `count`, or the length of the list where it is shorter: `&list[..n]` may then be lent. A count, not the part itself, which
// shared and mutable lists would need a function each for.
pub fn within(count: usize, list: &[u32]) -> usize
    ensures value { result ≡ min count (length list.now) }
    ensures prefix_len { IsPrefixLen result list.now }
{
    count.min(list.len())
}
