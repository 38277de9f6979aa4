// `ask`, run with -v.
#![tactic(auto)]

use std::io::Result;

fn main(rt: HostRuntime) -> Result<()> {
    asking::run(&rt, &rt.stderr())
}
