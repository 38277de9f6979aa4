// Reads commands from standard input, one a line, and answers each. `ask -h` says more.
#![tactic(auto)]

use std::io::Result;

fn main(rt: HostRuntime) -> Result<()> {
    asking::run(&rt, &rt.stderr())
}
