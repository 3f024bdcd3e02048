// RITM's src/hypervisor.rs, its data aborts: the access is handled, or the guest gets the abort.

#![tactic(auto)]

ghost use Rattle.std.specs.Prelude.{◌≡◌, Some};
ghost use Rattle.lists.specs.Lists.{held};
ghost use Rattle.memory_access.specs.declared.MemoryAccessKind.TheVariants.{Read, Write};
ghost use Rattle.memory_access.specs.Syndrome.{decode_access};
ghost use Rattle.data_abort.specs.DataAbort.{iss, through, emulate_access, try_memory_access, with_ec, injection_of, inject_data_abort, handle_data_abort};

use core_answers::{CoreError, TrapAnswer, TrapStep};
use exceptions::{Core, FaultRegisters};
use memory_access::{Fipa, MemoryAccess, MemoryAccessKind};
use stage2_range::{
    MemoryAccessHandlerMatch, MemoryAccessRegion, MemoryHandler, MemoryReadAccess,
    MemoryReadResult, MemoryWriteAccess, MemoryWriteResult,
};

// What the hardware says of a trap: ESR_EL2, the FIPA of HPFAR_EL2, FAR_EL2, and the guest's VBAR_EL1.
#[derive(Clone, Copy)]
pub struct TrapRegisters {
    pub esr: u64,
    pub fipa: Fipa,
    pub far: u64,
    pub vbar: u64,
}

// What a handled access does.
#[derive(Clone, Copy)]
pub enum HandledAccess {
    // A load: its register, what that takes, and the counter then.
    Loaded(usize, u64, u64),
    Stored,
}

// A data abort of one core, by the regions that are held.
#[tactic(auto, using(crate::proofs::Laws::by_outcome))]
pub fn handle_data_abort(
    regions: [MemoryAccessRegion; 16],
    region_count: u64,
    core: Core,
    counter: u64,
    trap: TrapRegisters,
) -> TrapStep
    ensures { result ≡ handle_data_abort (held 16 region_count regions) core counter trap }
{
    match try_memory_access_handler(regions, region_count, core, counter, trap) {
        Some(HandledAccess::Loaded(register_index, value, after)) => {
            let loaded = core.write_gpr(register_index, value).core;
            TrapStep::answered(
                Ok(TrapAnswer::AccessHandled(MemoryAccessKind::Read)),
                loaded.advance_pc(),
                after,
            )
        }
        Some(HandledAccess::Stored) => TrapStep::answered(
            Ok(TrapAnswer::AccessHandled(MemoryAccessKind::Write)),
            core.advance_pc(),
            counter,
        ),
        None => inject_data_abort(core, counter, trap),
    }
}

#[tactic(auto, using(crate::proofs::Laws::access_tried, crate::proofs::Laws::nothing_tried))]
fn try_memory_access_handler(
    regions: [MemoryAccessRegion; 16],
    region_count: u64,
    core: Core,
    counter: u64,
    trap: TrapRegisters,
) -> Option<HandledAccess>
    ensures { result ≡ try_memory_access (held 16 region_count regions) core counter trap }
{
    let access = decode_abort(trap)?;
    let rt = core.read_gpr(access.register_index).unwrap_or(0);
    let found = stage2_range::find_region(regions, region_count, access.ipa);
    emulate_access(found, access, rt, counter)
}

// ESR_EL2's ISS, bits 24:0 (Arm DDI 0601).
const ESR_ISS_MASK: u64 = 0x1FF_FFFF;

// The access that a data abort's syndrome describes.
pub fn decode_abort(trap: TrapRegisters) -> Option<MemoryAccess>
    ensures { result ≡ decode_access (iss trap.esr) trap.fipa trap.far }
{
    let iss = (trap.esr & ESR_ISS_MASK) as u32;
    MemoryAccess::decode(iss, trap.fipa, trap.far)
}

// What the access does, by the region that has its address and by what its register holds; `None` where it is not handled.
#[tactic(auto, unfolding(crate::specs::DataAbort::emulate_access))]
pub fn emulate_access(
    found: Option<MemoryAccessHandlerMatch>,
    access: MemoryAccess,
    rt: u64,
    counter: u64,
) -> Option<HandledAccess>
    ensures { result ≡ emulate_access found access rt counter }
{
    access_in(found?, access, rt, counter)
}

// The access to a region, through the handler for its direction.
#[tactic(auto, unfolding(crate::specs::DataAbort::through, crate::specs::DataAbort::emulate_access))]
fn access_in(
    found: MemoryAccessHandlerMatch,
    access: MemoryAccess,
    rt: u64,
    counter: u64,
) -> Option<HandledAccess>
    ensures { result ≡ emulate_access (Some found) access rt counter }
{
    let handler = found.region.handler;
    match access.kind {
        MemoryAccessKind::Read => read_through(handler.read, access, found.offset, counter),
        MemoryAccessKind::Write => write_through(handler.write, access, found.offset, rt),
    }
}

#[tactic(auto, unfolding(crate::specs::DataAbort::through))]
fn read_through(
    handler: MemoryHandler,
    access: MemoryAccess,
    offset: u64,
    counter: u64,
) -> Option<HandledAccess>
    ensures { result ≡ through Read handler access offset 0 counter }
{
    let register_index = access.register_index;
    match handler {
        MemoryHandler::Absent => Some(HandledAccess::Loaded(register_index, 0, counter)),
        MemoryHandler::FilteredMmio => {
            let asked = MemoryReadAccess {
                ipa: access.ipa,
                offset,
                width: access.width,
            };
            let read = qemu::read_filtered_mmio(asked, counter);
            match read.result {
                MemoryReadResult::Value(value) => Some(HandledAccess::Loaded(
                    register_index,
                    access.extend_read_result(value),
                    read.counter,
                )),
                MemoryReadResult::Fault => None,
            }
        }
        MemoryHandler::Fault => None,
    }
}

#[tactic(auto, unfolding(crate::specs::DataAbort::through))]
fn write_through(
    handler: MemoryHandler,
    access: MemoryAccess,
    offset: u64,
    rt: u64,
) -> Option<HandledAccess>
    ensures { result ≡ through Write handler access offset rt 0 }
{
    match handler {
        MemoryHandler::Absent => Some(HandledAccess::Stored),
        MemoryHandler::FilteredMmio => {
            let write = MemoryWriteAccess {
                ipa: access.ipa,
                offset,
                width: access.width,
                value: access.store_value(rt),
            };
            match qemu::write_filtered_mmio(write) {
                MemoryWriteResult::Handled => Some(HandledAccess::Stored),
                MemoryWriteResult::Fault => None,
            }
        }
        MemoryHandler::Fault => None,
    }
}

// What an injected abort puts into a core: where the guest goes on, and its EL1 registers.
#[derive(Clone, Copy)]
pub struct Injection {
    pub elr: u64,
    pub spsr: u64,
    pub el1: FaultRegisters,
}

// The vector "Current EL with SPx, Synchronous" stands this far above VBAR_EL1 (Arm DDI 0487).
const SYNC_SPX_OFFSET: u64 = 0x200;

// PSTATE on entry to it: D, A, I and F set, EL1h.
const SPSR_MASKED_EL1H: u64 = 0x3C5;

// The injection of an abort that was taken at `elr` with `spsr`.
pub fn injection_of(elr: u64, spsr: u64, trap: TrapRegisters) -> Injection
    ensures { result ≡ injection_of elr spsr trap }
{
    Injection {
        elr: std::num::wrapping_add_u64(trap.vbar, SYNC_SPX_OFFSET),
        spsr: SPSR_MASKED_EL1H,
        el1: FaultRegisters {
            elr,
            spsr,
            far: trap.far,
            esr: same_el_syndrome(trap.esr),
        },
    }
}

#[tactic(auto, unfolding(crate::specs::DataAbort::inject_data_abort, crate::specs::DataAbort::injected))]
fn inject_data_abort(core: Core, counter: u64, trap: TrapRegisters) -> TrapStep
    ensures { result ≡ inject_data_abort core counter trap }
{
    if trap.vbar == 0 {
        return TrapStep::refused(CoreError::NoGuestVector, core, counter);
    }
    let to = injection_of(core.elr, core.spsr, trap);
    let next = Core {
        elr: to.elr,
        spsr: to.spsr,
        el1: to.el1,
        ..core
    };
    TrapStep::answered(Ok(TrapAnswer::AbortInjected), next, counter)
}

const ESR_EC_SHIFT: u64 = 26;

const ESR_EC_MASK: u64 = 0x3F;

const EC_DATA_ABORT_SAME_EL: u64 = 0x25;

// EL2 sees the abort as coming from a lower EL, but the guest handles it at EL1.
fn same_el_syndrome(esr: u64) -> u64
    ensures { result ≡ with_ec esr 0x25 }
{
    (esr & !(ESR_EC_MASK << ESR_EC_SHIFT)) | (EC_DATA_ABORT_SAME_EL << ESR_EC_SHIFT)
}
