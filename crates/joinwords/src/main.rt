// Runs the 399 sequences of one to three join words, the seven words in three cases, and bytes that are
// no word, and prints the answers: counts and a digest of the first, each number of the others.
#![tactic(auto)]

use report::mixed;
use std::io::Result;

// What the sequences so far gave.
#[derive(Default, Drop)]
struct Tally {
    sequences: u32,
    legal: u32,
    digest: u64,
}

impl Tally {
    fn judge(&mut self, sequence: &[u32]) {
        let flags = sequence.iter().fold(words::NO_FLAGS, |flags, word| {
            words::united(flags, words::flags(*word))
        });
        let legal = words::legal(flags) as u32;
        let written = words::fewest(flags);
        let first = written.first.unwrap_or(words::NO_WORD);
        let second = written.second.unwrap_or(words::NO_WORD);
        self.sequences = self.sequences.wrapping_add(1);
        self.legal = self.legal.wrapping_add(legal);
        for answer in [flags, legal, first, second] {
            self.digest = mixed(self.digest, answer as u64);
        }
    }

    // All of them, in the order of their words' numbers.
    fn of_all() -> Tally {
        let mut tally = Tally::default();
        for first in words::CROSS..=words::OUTER {
            tally.judge(&[first]);
            for second in words::CROSS..=words::OUTER {
                tally.judge(&[first, second]);
                for third in words::CROSS..=words::OUTER {
                    tally.judge(&[first, second, third]);
                }
            }
        }
        tally
    }
}

// The words, each in three cases; then no word: nothing, too short, too long, another word, and bytes that are
// 32 away from a letter and no letter.
const SPELLINGS: [&str; 27] = [
    "CROSS", "cross", "cRosS", "FULL", "full", "fUlL", "INNER", "inner", "InnEr", "LEFT", "left",
    "leFT", "NATURAL", "natural", "NatUral", "RIGHT", "right", "rIGHt", "OUTER", "outer", "OuTeR",
    "", "CROS", "LEFTS", "JOIN", "&ULL", "lef4",
];

fn main(rt: HostRuntime) -> Result<()> {
    let tally = Tally::of_all();
    println!(rt; "sequences {}", tally.sequences)?;
    println!(rt; "legal {}", tally.legal)?;
    println!(rt; "digest {}", tally.digest)?;
    for spelling in SPELLINGS {
        println!(rt; "{spelling} {}", words::word(spelling.as_bytes()))?;
    }
    Ok(())
}
