// A core's registers, written by value and by loan, and read.
use super::print::{columns, row};
use exceptions::{Core, GprWritten};
use lists::refusal::answer_number;
use std::io;

// The answer to a write, and the register then.
fn found(written: GprWritten, index: usize) -> (u64, u64) {
    let read = written.core.read_gpr(index);
    (answer_number(written.answer), exceptions::read_value(read))
}

// A write to the fresh core.
fn write(rt: &impl Print, index: usize, value: u64) -> io::Result<()> {
    let by_value = Core::fresh().write_gpr(index, value);
    let by_loan = exceptions::write_gpr_by_loan(Core::fresh(), index, value);
    let (answer, read) = found(by_value, index);
    let (lent_answer, lent_read) = found(by_loan, index);
    let found = [answer, read, lent_answer, lent_read];
    row(rt, &[index as u64, value], &found)
}

pub(crate) fn rows(rt: &impl Print) -> io::Result<()> {
    columns(rt, "write: register value | answer read, lent: answer read")?;
    write(rt, 5, 7)?;
    write(rt, 30, 7)?;
    write(rt, 31, 7)?;
    write(rt, 32, 7)
}
