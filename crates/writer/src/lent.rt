// What all who write are lent: a command's records, read by where a node ends.

ghost use Rattle.std.specs.Prelude.{◌≡◌, ◌-◌, ◌<◌, ◌≤◌};
ghost use Rattle.grammar.specs.Sizes.{WIDTH};
ghost use Rattle.grammar.specs.Writing.{toktext, node_str, binary_str};
ghost use Rattle.scribe.proofs.Standing.{lane_of};
ghost use Rattle.kinds.specs.Strength.{strength_table};
ghost use Rattle.scribe.proofs.Whole.{before_of};
ghost use Rattle.scribe.proofs.Leading.{backs};

use kinds::node;
use reader::WIDTH;

// Strengths, numbers since they are compared and one more is asked to the right of an operator: asked where all
// may stand; of IS NOT, IN, BETWEEN, LIKE_KW and the null tests; of COLLATE; of what is no operator.
pub const ANY: u32 = 0;

const TEST: u32 = 4;

const COLLATED: u32 = 10;

const WHOLE: u32 = 12;

// Which number of a token is written.
#[derive(Clone, Copy)]
pub enum Numbers {
    Kinds,
    Texts,
}

// The records, the table of strengths of document 01, and which numbers are written of them.
#[derive(Clone, Copy)]
pub struct Pages<'a> {
    pub nodes: &'a [u32],
    pub strengths: &'a [u32],
    pub numbers: Numbers,
    ghost ruled: { strengths.now ≡ strength_table },
}

// Where the last child of the node that ends at i ends.
pub fn last(i: u32) -> u32
    ensures { result ≡ i - 1 }
{
    i.saturating_sub(1)
}

impl Pages<'_> {
    ghost use Rattle.writer.specs.Pages.{nodes_of, lane_in, Field, First, Bared, Taken};

    // The number of a token that is written.
    pub fn number(&self, kind: u32, text: u32) -> u32
        ensures { result ≡ lane_of (lane_in self.now) (toktext kind text) }
    {
        match self.numbers {
            Numbers::Kinds => kind,
            Numbers::Texts => text,
        }
    }

    // A number of the record of the node that ends at i; 0 where there is none.
    fn field(&self, i: u32, f: usize) -> u32
        requires { f < WIDTH }
        ensures { Field f self.now i result }
    {
        if i == 0 {
            return 0;
        }
        // No `get` with `unwrap_or`: a token of a long command costs 431 instructions by it, and 404 so.
        let at = (i - 1) as usize * WIDTH + f;
        if at < self.nodes.len() {
            self.nodes[at]
        } else {
            0
        }
    }

    pub fn code(&self, i: u32) -> u32
        ensures { Field 0 self.now i result }
    {
        self.field(i, 0)
    }

    pub fn detail(&self, i: u32) -> u32
        ensures { Field 1 self.now i result }
    {
        self.field(i, 1)
    }

    pub fn children(&self, i: u32) -> u32
        ensures { Field 2 self.now i result }
    {
        self.field(i, 2)
    }

    // Where the sibling before the node that ends at i ends.
    pub fn before(&self, i: u32) -> u32
        ensures { result ≡ before_of (nodes_of self.now) i }
    {
        i.saturating_sub(self.field(i, 3))
    }

    // Where the child ends that has n children after it.
    pub fn child(&self, i: u32, n: u32) -> u32
        ensures { result ≡ backs (nodes_of self.now) n (i - 1) }
    {
        let mut j = last(i);
        for _ in 0..n {
            j = self.before(j);
        }
        j
    }

    // Where the first child ends.
    pub fn first(&self, i: u32) -> u32
        ensures { First self.now i result }
    {
        let mut j = last(i);
        for _ in 1..self.children(i) {
            j = self.before(j);
        }
        j
    }

    // The node without the one-member parentheses around it.
    pub fn bare(&self, end: u32) -> u32
        ensures { Bared self.now end result }
    {
        let mut i = end;
        while self.code(i) == node::PARENS && self.children(i) == 1 {
            i = last(i);
        }
        i
    }

    // The strength of a binary operator with this detail.
    fn binding(&self, detail: u32) -> u32
        ensures { (result ≡ binary_str detail) × (result ≤ 12) }
    {
        if detail >= node::WORDS {
            TEST
        } else {
            kinds::strength(self.strengths, detail)
        }
    }

    // How tightly a node holds; 0 for what is no expression.
    pub fn strength(&self, code: u32, detail: u32) -> u32
        ensures { (result ≡ node_str code detail) × (result ≤ 12) }
    {
        match code {
            node::INTEGER..=node::CAST => WHOLE,
            node::PREFIX => kinds::prefix(detail),
            node::BINARY => self.binding(detail),
            node::NULL_TEST..=node::BETWEEN => TEST,
            node::COLLATE => COLLATED,
            _ => ANY,
        }
    }

    // Where the source of a part of FROM ends.
    pub fn taken(&self, i: u32) -> u32
        ensures { Taken self.now i result }
    {
        if self.code(i) == node::JOIN {
            self.child(i, 1)
        } else {
            i
        }
    }
}
