// Replays the vectors of commands.txt and room.txt: of each line the reader's number, its place, every record,
// and that no number of the table changed beyond them; and the writer's number, its place, every token, and that
// no number of its lists changed beyond them. Prints for each file how many lines it has, how many answers of the
// reader were wrong and a digest, how many writings there were, how many answers of the writer were wrong and a
// digest; and a line for each answer that was wrong.
#![tactic(auto)]

mod answer;
mod counts;
mod replay;
mod tokens;

use replay::Replay;
use std::rt::Files;
use std::{fs, io};

const PATHS: [&str; 2] = ["commands.txt", "room.txt"];

// What fails ends it.
fn replay_files<P: Print>(rt: &impl Files, replay: &mut Replay<'_, P>) -> io::Result<()> {
    for path in PATHS {
        let mut file = fs::open(rt, path)?;
        io::copy(&mut file, replay)?;
        replay.finish(path);
    }
    Ok(())
}

fn main(rt: HostRuntime) -> io::Result<()> {
    let mut replay = Replay::new(&rt);
    let done = replay_files(&rt, &mut replay);
    replay.flush();
    done
}
