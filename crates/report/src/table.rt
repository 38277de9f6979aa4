// A node table that is to be clear beyond a reading.
ghost use Rattle.std.specs.Prelude.{◌≡◌, true, length, take};
ghost use Rattle.report.specs.Digests.{digest_of};
ghost use Rattle.report.specs.Tables.{Cleared, ClearBelow, Changed};

use crate::{mixed, within};

// Clears the first `count` numbers.
pub fn clear(nodes: &mut [u32], count: usize)
    ensures { Cleared nodes.old count nodes.new }
{
    let end = within(count, nodes);
    nodes[..end].fill(0);
}

// The first number from `from` on that is not 0.
pub fn changed(nodes: &[u32], from: usize) -> Option<usize>
    ensures { Changed nodes.now from result }
{
    let tail = nodes.get(from..)?;
    if is_clear(tail) {
        return None;
    }
    let i = tail.iter().position(|n| *n != 0)?;
    Some(from + i)
}

// With no branch on a number, so that the loop goes several at a time.
fn is_clear(nodes: &[u32]) -> bool
    ensures { result ≡ true → ClearBelow nodes.now 0 (length nodes.now) }
{
    nodes.iter().fold(0, |all, n| all | n) == 0
}

// A digest with the first `count` numbers more.
pub fn digest(before: u64, nodes: &[u32], count: usize) -> u64
    ensures { result ≡ digest_of before (take count nodes.now) }
{
    nodes
        .iter()
        .take(count)
        .fold(before, |d, n| mixed(d, u64::from(*n)))
}
