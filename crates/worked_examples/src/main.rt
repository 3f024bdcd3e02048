// Worked values in tables: a row is a line with the numbers that are given to the library and, after a bar, what it answers. The file
// `stdout` has what the lines must be. Rows after a comment "Bench" are of document 01's bench table.

#![tactic(auto)]

use std::io;

mod accesses;
mod maps;
mod page;
mod policies;
mod print;
mod ranges;
mod registers;

fn main(rt: HostRuntime) -> io::Result<()> {
    accesses::rows(&rt)?;
    ranges::rows(&rt)?;
    policies::rows(&rt)?;
    maps::rows(&rt)?;
    registers::rows(&rt)?;
    page::rows(&rt)
}
