// Replays a sample of what the Rust crate answers, held against the reader, so that no Rust is needed for it. Of each
// line the reader's number, its place and every record have to be those of document 01; where the line is marked as the
// same they are the crate's too, else the crate's answer has to be another and the line carries a letter for each class
// of docs/DIFFERENCES.md that it is of. Prints how many lines there are, how many were wrong, how many are the same and
// a digest, and of each class how many lines are of it; and a line for each that was wrong.
//
//     = kind[.text] ... => number place
//     = kind[.text] ... => 0 count : code,detail,children,size ...
//     LETTERS kind[.text] ... => answer of document 01 ; answer of the crate
//
// The crate's answer has the same two forms; one that has no number or record in document 01 is a word.
#![tactic(auto)]

mod answer;
mod classes;
mod part;
mod sample;

use sample::Sample;
use std::rt::Files;
use std::{fs, io};

// What fails ends it.
fn replay_file<P: Print>(rt: &impl Files, sample: &mut Sample<'_, P>) -> io::Result<()> {
    let mut file = fs::open(rt, "sample.txt")?;
    io::copy(&mut file, sample)?;
    sample.finish();
    Ok(())
}

fn main(rt: HostRuntime) -> io::Result<()> {
    let mut sample = Sample::new(&rt);
    let done = replay_file(&rt, &mut sample);
    sample.flush();
    done
}
