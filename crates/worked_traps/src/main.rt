// Worked values of the calls on a core, as `worked_examples` has those of the others. The two are programs of their own, since what a
// program costs to check grows with the library functions that it calls.

#![tactic(auto)]

use std::io;

mod print;
mod replies;
mod traps;

fn main(rt: HostRuntime) -> io::Result<()> {
    traps::rows(&rt)?;
    traps::handlers(&rt)?;
    traps::calls(&rt)?;
    replies::rows(&rt)
}
