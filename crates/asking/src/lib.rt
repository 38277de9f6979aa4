// The program `ask`: commands from standard input, one a line, each answered on standard output. All of it is
// here, so that programs of one line can be run with each option.
#![tactic(auto)]

mod asker;
mod help;
mod labels;
mod names;
mod parts;
mod refusals;
mod tree;
mod unread;
mod writing;

use asker::{Asker, Voice};
use std::env::{Env, FillError};
use std::io;

// Answers each line. A read that fails ends it.
fn listen(rt: &(impl Input + Print), errors: &impl Print, voice: Voice) -> io::Result<()> {
    let mut asker = Asker::new(rt, errors, voice);
    io::copy(&mut rt.reader(), &mut asker)?;
    asker.finish();
    Ok(())
}

// Does what the arguments ask. A write that fails is passed over.
pub fn run(rt: &(impl Env + Input + Print), errors: &impl Print) -> io::Result<()> {
    // Room for an option, and not for a longer word: no heap.
    let mut word = [0u8; 2];
    match rt.arg(1, &mut word) {
        Err(FillError::NotPresent) => return listen(rt, errors, Voice::Numbers),
        Ok(n) => match &word[..n] {
            b"-v" => return listen(rt, errors, Voice::Words),
            b"-h" => help::tell(rt),
            _ => help::point(errors),
        },
        Err(FillError::TooLong) => help::point(errors),
    }
    Ok(())
}
