// A table of the output: a line that names its columns, and a line for each row, the numbers given and, after a bar, those found. (The
// same as in `worked_traps`, where a line says why.)
use std::io;

pub(crate) fn columns(rt: &impl Print, text: &str) -> io::Result<()> {
    println!(rt; "{text}")
}

fn numbers(rt: &impl Print, numbers: &[u64]) -> io::Result<()> {
    for number in numbers {
        print!(rt; " {number:#x}")?;
    }
    Ok(())
}

pub(crate) fn row(rt: &impl Print, given: &[u64], found: &[u64]) -> io::Result<()> {
    numbers(rt, given)?;
    print!(rt; " |")?;
    numbers(rt, found)?;
    println!(rt)
}
