// The caller's table, four numbers a record, and how many records were made. These are counted on where the table has no room
// for them: the first walk is lent an empty one.
ghost use Rattle.std.specs.Prelude.{◌≡◌, ℕ, List, ◌+◌, ◌*◌, ◌<◌, ◌≤◌, length};
ghost use Rattle.grammar.specs.Sizes.{WIDTH};
ghost use Rattle.descent.proofs.Fill.{Filled};
ghost use Rattle.reader.specs.Laying.{Fills, Swaps, one, absences};
ghost use Rattle.reader.specs.Turning.{swapped_at, Turned};

use crate::WIDTH;
use kinds::node;

#[derive(Drop)]
pub struct Table<'a> {
    pub nodes: &'a mut [u32],
    pub made: u32,
}

impl Table<'_> {
    // Stores a record after those that were made, if it fits whole, and counts it.
    pub fn emit(&mut self, code: u32, detail: u32, children: u32, size: u32)
        requires { self.old.made < 65536 }
        ensures { (self.new.made ≡ self.old.made + 1) × Fills self.old self.new (one code detail children size) }
    {
        let base = self.made as usize * WIDTH;
        if base + WIDTH <= self.nodes.len() {
            self.nodes[base] = code;
            self.nodes[base + 1] = detail;
            self.nodes[base + 2] = children;
            self.nodes[base + 3] = size;
        }
        self.made += 1;
    }

    // Missing parts, n side by side.
    pub fn absent(&mut self, n: u32)
        requires { self.old.made + n ≤ 65536 }
        ensures { (self.new.made ≡ self.old.made + n) × Fills self.old self.new (absences n) }
    {
        if n == 1 {
            self.emit(node::ABSENT, 0, 0, 1);
            return;
        }
        missing(self.nodes, self.made, n);
        self.made += n;
    }

    // By three reversals, for the library's `rotate_left` costs a call 992 bytes of stack and a long list a tenth of its instructions.
    // Brings the records from `mid` on before those from `base`, where the table has room for them all.
    pub fn rotate(&mut self, base: u32, mid: u32)
        requires { (base ≤ mid) × (mid ≤ self.old.made) × (self.old.made < 65536) }
        ensures { Swaps base mid self.old self.new }
    {
        let end = self.made;
        if end as usize * WIDTH <= self.nodes.len() {
            reverse(self.nodes, base, mid);
            reverse(self.nodes, mid, end);
            reverse(self.nodes, base, end);
        }
    }
}

// By a loop of its own: a call of `emit` for each costs the shortest command a twelfth more instructions.
fn missing(nodes: &mut [u32], made: u32, n: u32)
    requires { made + n ≤ 65536 }
    ensures { Filled nodes.old nodes.new made (made + n) (absences n) }
{
    for i in made..made + n {
        let base = i as usize * WIDTH;
        if base + WIDTH > nodes.len() {
            break;
        }
        nodes[base] = node::ABSENT;
        nodes[base + 1] = 0;
        nodes[base + 2] = 0;
        nodes[base + 3] = 1;
    }
}

// The records from `from` up to `to`, last first.
fn reverse(nodes: &mut [u32], from: u32, to: u32)
    requires { (from < 65536) × (to < 65536) × (to * WIDTH ≤ length nodes.old) }
    ensures { (E : List ℕ) → Turned nodes.old (from * WIDTH) (to * WIDTH) E → nodes.new ≡ E }
{
    let mut a = from as usize * WIDTH;
    let mut b = to as usize * WIDTH;
    while a + WIDTH < b {
        b -= WIDTH;
        swap(nodes, a, b);
        swap(nodes, a + 1, b + 1);
        swap(nodes, a + 2, b + 2);
        swap(nodes, a + 3, b + 3);
        a += WIDTH;
    }
}

// By hand: the library's `swap` costs the worst command a sixth more instructions.
fn swap(nodes: &mut [u32], a: usize, b: usize)
    requires { (a < length nodes.old) × (b < length nodes.old) }
    ensures { nodes.new ≡ swapped_at nodes.old a b }
{
    let x = nodes[a];
    nodes[a] = nodes[b];
    nodes[b] = x;
}
