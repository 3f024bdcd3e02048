// Traps of core 0, which was saved with one value in x0 to x30, ELR 0x1000 and SPSR 5.
use super::print::{columns, row};
use data_abort::TrapRegisters;
use exceptions::Core;
use hypervisor::Trapped;
use lists::refusal::answer_number;
use memory_access::Fipa;
use stage2::Policy;
use std::io;

// The policy with the page at 0x0F000000 handled, loads and stores, or fresh.
fn policy_of(regions: u64) -> Policy {
    if regions == 0 {
        return Policy::new();
    }
    Policy::new().handle_range(0x0F00_0000, 0x1000, 1, 1).policy
}

pub(crate) fn saved_cores(x: u64) -> [Core; 8] {
    hypervisor::save(hypervisor::fresh_cores(), 0, [x; 31], 0x1000, 5).cores
}

// What the hardware says of a trap in the page at 0x0F000000.
pub(crate) fn trap_at(esr: u64, far: u64, vbar: u64) -> TrapRegisters {
    TrapRegisters {
        esr,
        fipa: Fipa(0xF000),
        far,
        vbar,
    }
}

// The answer and its kind, the counter, and core 0 then.
fn found(trapped: Trapped) -> [u64; 8] {
    let answer = trapped.result.answer;
    let core = trapped.cores[0];
    [
        answer_number(answer),
        core_answers::trap_kind(answer),
        trapped.counter,
        core.x[5],
        core.elr,
        core.spsr,
        core.el1.esr,
        core.el1.spsr,
    ]
}

// The same trap so many times, once at least.
fn trap(rt: &impl Print, times: u8, regions: u64, x: u64, trap: TrapRegisters) -> io::Result<()> {
    let mut step = hypervisor::trap(policy_of(regions), saved_cores(x), 0, 0, trap);
    for _ in 1..times {
        step = hypervisor::trap(step.policy, step.cores, step.counter, 0, trap);
    }
    let given = [times.into(), regions, x, trap.esr, trap.far, trap.vbar];
    row(rt, &given, &found(step))
}

// A trap in the page at 0x0F000000 with these handlers, 7 in x0 to x30 and the counter 9.
fn through(rt: &impl Print, read: u64, write: u64, trap: TrapRegisters) -> io::Result<()> {
    let built = Policy::new().handle_range(0x0F00_0000, 0x1000, read, write);
    let trapped = hypervisor::trap(built.policy, saved_cores(7), 9, 0, trap);
    let given = [read, write, trap.esr, trap.far, trap.vbar];
    row(rt, &given, &found(trapped))
}

// What a call hands out, and the core's own x0 then.
fn found_call(trapped: Trapped) -> [u64; 6] {
    let result = trapped.result;
    let [v0, v1, .., v17] = result.values;
    let core = trapped.cores[0];
    [
        core_answers::trap_kind(result.answer),
        v0,
        v1,
        v17,
        result.sve_hint,
        core.x[0],
    ]
}

fn call(rt: &impl Print, x: u64) -> io::Result<()> {
    let trapped = hypervisor::trap(Policy::new(), saved_cores(x), 0, 0, trap_at(ESR_HVC, 0, 0));
    row(rt, &[x], &found_call(trapped))
}

// ESR_EL2 of an HVC and of an SMC, of a 64-bit load and a 32-bit load into x5, and of 64-bit stores from x5 and from Rt 31.
pub const ESR_HVC: u64 = 0x5800_0000;

pub const ESR_SMC: u64 = 0x5C00_0000;

const ESR_LOAD: u64 = 0x93C5_8000;

const ESR_LOAD_32: u64 = 0x9385_0000;

const ESR_STORE: u64 = 0x93C5_8040;

const ESR_STORE_RT_31: u64 = 0x93DF_8040;

// The one word that the filtered MMIO page takes.
const STORED_WORD: u64 = 0x1234_5678_9ABC_DEF0;

pub(crate) fn rows(rt: &impl Print) -> io::Result<()> {
    columns(
        rt,
        "trap: times regions x0..x30 ESR FAR VBAR | answer kind counter x5 ELR SPSR ESR_EL1 SPSR_EL1",
    )?;
    // Bench: no region; a call for the firmware.
    trap(rt, 1, 0, 0, trap_at(ESR_LOAD, 0, 0x8_0000))?;
    trap(rt, 1, 0, 0xC400_0003, trap_at(ESR_SMC, 0, 0))?;
    // Refusals 12, 13 and 11.
    trap(rt, 1, 0, 0, trap_at(0, 0, 0x8_0000))?;
    trap(rt, 1, 0, 0, trap_at(ESR_LOAD, 0, 0))?;
    trap(rt, 2, 0, 0, trap_at(ESR_SMC, 0, 0))?;
    // The counter word, twice.
    trap(rt, 2, 1, 7, trap_at(ESR_LOAD, 0x10, 0x8_0000))?;
    // A store at offset 8, where each of x0 to x30 holds the word that the page takes: Rt 31 reads 0, which is another, and faults.
    trap(rt, 1, 1, STORED_WORD, trap_at(ESR_STORE, 8, 0x8_0000))?;
    trap(rt, 1, 1, STORED_WORD, trap_at(ESR_STORE_RT_31, 8, 0x8_0000))
}

pub(crate) fn handlers(rt: &impl Print) -> io::Result<()> {
    columns(
        rt,
        "access: read write ESR FAR VBAR | answer kind counter x5 ELR SPSR ESR_EL1 SPSR_EL1",
    )?;
    // Through the absent handler, at any width and offset; a store without a vector.
    through(rt, 0, 1, trap_at(ESR_LOAD, 0, 0x8_0000))?;
    through(rt, 0, 1, trap_at(ESR_LOAD_32, 3, 0x8_0000))?;
    through(rt, 2, 0, trap_at(ESR_STORE, 0, 0))?;
    // The counter word, through the absent handler and through the filtered MMIO page.
    through(rt, 0, 1, trap_at(ESR_LOAD, 0x10, 0))?;
    through(rt, 1, 0, trap_at(ESR_LOAD, 0x10, 0))?;
    // Through the fault, with a vector and without.
    through(rt, 2, 0, trap_at(ESR_LOAD, 0, 0x8_0000))?;
    through(rt, 2, 0, trap_at(ESR_LOAD, 0, 0))
}

pub(crate) fn calls(rt: &impl Print) -> io::Result<()> {
    columns(rt, "call by HVC: x0..x30 | kind v0 v1 v17 hint x0")?;
    // Bench: bits 63:32 decide nothing; a fast call's bit 16 is a hint, for the firmware and for the platform.
    call(rt, 0x1_8400_0000)?;
    call(rt, 0x8401_0000)?;
    call(rt, 0xC401_001F)?;
    call(rt, 0x8400_0020)?;
    call(rt, 0x8401_0020)?;
    // A yielding call keeps it. Both at once.
    call(rt, 0x0401_0000)?;
    call(rt, 0x1_FF01_0000)
}
