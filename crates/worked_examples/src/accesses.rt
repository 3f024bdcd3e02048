// Accesses: decoded, and their values at the access width.
use super::print::{columns, row};
use exceptions::Core;
use memory_access::{Fipa, MemoryAccess};
use std::io;

fn decode(rt: &impl Print, iss: u32, fipa: u64, far: u64) -> io::Result<()> {
    let decoded = MemoryAccess::decode(iss, Fipa(fipa), far);
    let [ipa, bits, wnr, register, sse, sf] = memory_access::decoded_values(decoded);
    let found = [
        memory_access::decoded_number(decoded),
        ipa,
        bits,
        wnr,
        register,
        sse,
        sf,
    ];
    row(rt, &[iss.into(), fipa, far], &found)
}

fn load(rt: &impl Print, iss: u32, value: u64) -> io::Result<()> {
    let decoded = MemoryAccess::decode(iss, Fipa(0), 0);
    let loaded = decoded.map_or(0, |access| access.extend_read_result(value));
    row(rt, &[iss.into(), value], &[loaded])
}

// What a store puts into memory from a core whose x0 to x30 hold one value.
fn stored(access: MemoryAccess, value: u64) -> u64 {
    let mut core = Core::fresh();
    core.x = [value; 31];
    let read = core.read_gpr(access.register_index);
    access.store_value(exceptions::read_value(read))
}

fn store(rt: &impl Print, iss: u32, value: u64) -> io::Result<()> {
    let decoded = MemoryAccess::decode(iss, Fipa(0), 0);
    let stored = decoded.map_or(0, |access| stored(access, value));
    row(rt, &[iss.into(), value], &[stored])
}

pub(crate) fn rows(rt: &impl Print) -> io::Result<()> {
    columns(rt, "decode: ISS FIPA FAR | answer IPA bits WnR Rt SSE SF")?;
    // Bench: a 64-bit load into x5, SF set, SSE clear; 19; the IPA.
    decode(rt, 0x01C5_8000, 0xF000, 0x0ABC_D010)?;
    decode(rt, 0x00C5_8000, 0xF000, 0x0ABC_D010)?;
    // A page number of 53 bits, of which 52 count.
    decode(rt, 0x0167_0000, 0x10_0000_0000_9000, 0xFFFF)?;
    decode(rt, 0xFEFF_FFFF, 0, 0)?;
    columns(rt, "load: ISS value | register")?;
    // Bench: a byte with SSE set, SF set and clear; 64 bits with SF clear.
    load(rt, 0x0127_8000, 0x80)?;
    load(rt, 0x0127_0000, 0x80)?;
    load(rt, 0x01C7_0000, 0x1_0000_0002)?;
    load(rt, 0x0167_0000, 0x8001)?;
    columns(rt, "store: ISS x0..x30 | value")?;
    // Bench: a store from Rt 31, of 64 bits; then one of 16 bits from x7.
    store(rt, 0x01DF_8040, 0x1234_5678_9ABC_DEF0)?;
    store(rt, 0x0147_0040, 0x1234_5678)
}
