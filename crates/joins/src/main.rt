// The 399 sequences of one to three join words through the reader, each as SELECT a FROM t words JOIN u: how
// many it accepts, how many it refuses by 7 at JOIN, and a digest of number, place and the join's detail.
#![tactic(auto)]

use kinds::{FROM, ID, JOIN, JOIN_KW, SELECT, node};
use reader::{Reason, Refusal};
use reading::{PLACES, WIDTH, put};
use report::mixed;
use std::io::Result;

// Text numbers: of the three names; and of a token that has none.
const A: u32 = 8;

const T: u32 = 9;

const U: u32 = 10;

const NONE: u32 = 0;

// The tokens before the words, and those after them.
const BEFORE: [(u32, u32); 4] = [(SELECT, NONE), (ID, A), (FROM, NONE), (ID, T)];

const AFTER: [(u32, u32); 2] = [(JOIN, NONE), (ID, U)];

// The join is the 17th record.
const JOIN_AT: usize = 16 * WIDTH;

// The detail of the join, or 0 where no join stands where it should.
fn detail(nodes: &[u32; PLACES]) -> u32 {
    if nodes[JOIN_AT] == node::JOIN {
        nodes[JOIN_AT + 1]
    } else {
        0
    }
}

// What the sequences so far gave.
#[derive(Default, Drop)]
struct Tally {
    sequences: u32,
    accepted: u32,
    refused: u32,
    digest: u64,
}

impl Tally {
    // In arrays of 4,096 places, as document 01 has them.
    fn read(&mut self, sequence: &[u32]) {
        let mut kinds = [0; PLACES];
        let mut texts = [0; PLACES];
        let mut nodes = [0; PLACES];
        let words = sequence.iter().map(|word| (JOIN_KW, *word));
        let tokens = BEFORE.into_iter().chain(words).chain(AFTER);
        for (at, (kind, text)) in tokens.enumerate() {
            put(&mut kinds, at, kind);
            put(&mut texts, at, text);
        }
        let join = BEFORE.len() + sequence.len();
        let got = reading::read_places(&kinds, &texts, join + AFTER.len(), &mut nodes);
        self.count(got, detail(&nodes), join);
    }

    // What the reader answered, the detail of the join that it left, and where JOIN stands.
    fn count(&mut self, got: std::result::Result<usize, Refusal>, detail: u32, join: usize) {
        self.sequences = self.sequences.wrapping_add(1);
        match got {
            Ok(count) => {
                self.accepted = self.accepted.wrapping_add(1);
                self.mix(0);
                self.mix(count as u64);
                self.mix(detail as u64);
            }
            Err(Refusal { why, place }) => {
                if why == Reason::JoinFlags && place == join {
                    self.refused = self.refused.wrapping_add(1);
                }
                self.mix(why.number() as u64);
                self.mix(place as u64);
            }
        }
    }

    fn mix(&mut self, answer: u64) {
        self.digest = mixed(self.digest, answer);
    }

    // All of them, in the order of their words' numbers.
    fn of_all() -> Tally {
        let mut tally = Tally::default();
        for first in words::CROSS..=words::OUTER {
            tally.read(&[first]);
            for second in words::CROSS..=words::OUTER {
                tally.read(&[first, second]);
                for third in words::CROSS..=words::OUTER {
                    tally.read(&[first, second, third]);
                }
            }
        }
        tally
    }
}

fn main(rt: HostRuntime) -> Result<()> {
    let tally = Tally::of_all();
    println!(rt; "sequences {}", tally.sequences)?;
    println!(rt; "accepted {}", tally.accepted)?;
    println!(rt; "refused by 7 at JOIN {}", tally.refused)?;
    println!(rt; "digest {}", tally.digest)
}
