// The filtered MMIO page.
use super::print::{columns, row};
use memory_access::{Ipa, MemoryAccessWidth};
use stage2_range::{MemoryReadAccess, MemoryReadResult};
use std::io;

fn load(rt: &impl Print, width: MemoryAccessWidth, offset: u64, counter: u64) -> io::Result<()> {
    let access = MemoryReadAccess {
        ipa: Ipa(offset),
        offset,
        width,
    };
    let read = qemu::read_filtered_mmio(access, counter);
    let (flag, value) = match read.result {
        MemoryReadResult::Value(value) => (1, value),
        MemoryReadResult::Fault => (0, 0),
    };
    let given = [width.bits().into(), offset, counter];
    row(rt, &given, &[flag, value, read.counter])
}

pub(crate) fn rows(rt: &impl Print) -> io::Result<()> {
    columns(rt, "page load: bits offset counter | found value counter")?;
    load(rt, MemoryAccessWidth::U64, 16, 0xFFFF_FFFF_FFFF_FFFF)?;
    load(rt, MemoryAccessWidth::U32, 16, 5)?;
    load(rt, MemoryAccessWidth::U64, 24, 5)
}
