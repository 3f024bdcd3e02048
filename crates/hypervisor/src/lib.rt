// RITM's src/hypervisor.rs: what a guest's trap does to its core, and the host's calls over the eight cores.

#![tactic(auto)]

ghost use Rattle.std.specs.Prelude.{◌≡◌, ◌<◌, ◌≤◌};
ghost use Rattle.exceptions.specs.Registers.{core_of};
ghost use Rattle.core_answers.specs.declared.CoreStep.{CoreStep};
ghost use Rattle.lists.specs.Lists.{held};
ghost use Rattle.hypervisor.specs.Trap.{exception_class, forwarded, by_class, handle_sync_lower};
ghost use Rattle.hypervisor.specs.Cores.{fresh_cores, save_core, no_such_core, placed, save_on, reply_on, trap_on};

use core_answers::{CoreError, CoreStep, TrapAnswer, TrapResult, TrapStep};
use data_abort::TrapRegisters;
use exceptions::{Conduit, Core, Wait};
use forwarded_call::{ForwardedCall, HvcReply};
use stage2::Policy;
use stage2_range::MemoryAccessRegion;

// What `trap` gives, and the state then, of a refusal too (as `CoreStep`).
#[derive(Clone, Copy)]
pub struct Trapped {
    pub result: TrapResult,
    pub policy: Policy,
    pub cores: [Core; 8],
    pub counter: u64,
}

// What `save` and `reply` answer, and the cores then, of a refusal too (as `CoreStep`).
#[derive(Clone, Copy)]
pub struct CoresStep {
    pub answer: Result<(), CoreError>,
    pub cores: [Core; 8],
}

// A trap of one core, by the regions that are held. (The parameters stand apart, here and where it passes them on: README names this
// function as it is.)
#[tactic(auto, unfolding(crate::specs::Trap::handle_sync_lower))]
pub fn handle_sync_lower(
    regions: [MemoryAccessRegion; 16],
    region_count: u64,
    core: Core,
    counter: u64,
    trap: TrapRegisters,
) -> TrapStep
    ensures { result ≡ handle_sync_lower (held 16 region_count regions) core counter trap }
{
    match core.wait {
        None => dispatch(regions, region_count, core, counter, trap),
        Some(_) => TrapStep::refused(CoreError::CoreWaiting, core, counter),
    }
}

#[tactic(auto, unfolding(crate::specs::Trap::by_class))]
fn dispatch(
    regions: [MemoryAccessRegion; 16],
    region_count: u64,
    core: Core,
    counter: u64,
    trap: TrapRegisters,
) -> TrapStep
    ensures { result ≡ by_class (exception_class trap.esr) (held 16 region_count regions) core counter trap }
{
    match exception_class(trap.esr) {
        ExceptionClass::HvcTrappedInAArch64 => {
            forwarded(forwarded_call::forward_call(core, Conduit::Hvc), counter)
        }
        ExceptionClass::SmcTrappedInAArch64 => {
            forwarded(forwarded_call::forward_call(core, Conduit::Smc), counter)
        }
        ExceptionClass::DataAbortLowerEl => {
            data_abort::handle_data_abort(regions, region_count, core, counter, trap)
        }
        ExceptionClass::Unknown => {
            TrapStep::refused(CoreError::UnexpectedExceptionClass, core, counter)
        }
    }
}

// ESR_EL2 (Arm DDI 0601).
const ESR_EC_SHIFT: u64 = 26;

const ESR_EC_MASK: u64 = 0x3F;

// The class of an exception.
#[derive(Clone, Copy)]
pub enum ExceptionClass {
    HvcTrappedInAArch64,
    SmcTrappedInAArch64,
    DataAbortLowerEl,
    Unknown,
}

// The class that a syndrome names.
#[tactic(auto, using(crate::proofs::Laws::hvc_class, crate::proofs::Laws::smc_class, crate::proofs::Laws::abort_class, crate::proofs::Laws::other_class))]
pub fn exception_class(esr: u64) -> ExceptionClass
    ensures { result ≡ exception_class esr }
{
    match (esr >> ESR_EC_SHIFT) & ESR_EC_MASK {
        0x16 => ExceptionClass::HvcTrappedInAArch64,
        0x17 => ExceptionClass::SmcTrappedInAArch64,
        0x24 => ExceptionClass::DataAbortLowerEl,
        _ => ExceptionClass::Unknown,
    }
}

// A forwarded call as a trap's step.
fn forwarded(call: ForwardedCall, counter: u64) -> TrapStep
    ensures { result ≡ forwarded call counter }
{
    TrapStep {
        result: call.result,
        core: call.core,
        counter,
    }
}

// Puts in the registers that the hardware saved.
#[tactic(auto, unfolding(crate::specs::Cores::save_core))]
pub fn save_core(core: Core, x: [u64; 31], elr: u64, spsr: u64) -> CoreStep
    ensures { result ≡ save_core core x elr spsr }
{
    match core.wait {
        None => CoreStep {
            answer: Ok(()),
            core: Core {
                x,
                elr,
                spsr,
                ..core
            },
        },
        Some(_) => CoreStep::refused(CoreError::CoreWaiting, core),
    }
}

const MAX_CORES: u64 = 8;

// Eight fresh cores.
#[tactic(auto, unfolding(crate::specs::Cores::fresh_cores))]
pub fn fresh_cores() -> [Core; 8]
    ensures { result ≡ fresh_cores }
{
    [Core::fresh(); 8]
}

// A step of one of the eight: one core is replaced.
fn on_core<F: FnOnce(Core) -> CoreStep>(cores: [Core; 8], core: u64, step: F) -> CoresStep
    requires { F.IsAlwaysCallable step }
    ensures none { 7 < core → result ≡ no_such_core cores }
    ensures one { core ≤ 7 → (s : CoreStep) × F.post step (core_of cores core) s × (result ≡ placed cores core s) }
{
    if MAX_CORES <= core {
        return CoresStep {
            answer: Err(CoreError::NoSuchCore),
            cores,
        };
    }
    let stepped = step(cores[core as usize]);
    let mut next = cores;
    next[core as usize] = stepped.core;
    CoresStep {
        answer: stepped.answer,
        cores: next,
    }
}

// Puts in a core's registers as the hardware saved them.
#[tactic(auto, unfolding(crate::specs::Cores::on_core, crate::specs::Cores::save_on))]
pub fn save(cores: [Core; 8], core: u64, x: [u64; 31], elr: u64, spsr: u64) -> CoresStep
    ensures { result ≡ save_on cores core x elr spsr }
{
    on_core(cores, core, |one| save_core(one, x, elr, spsr))
}

// Gives a core the answer that it waits for.
#[tactic(auto, unfolding(crate::specs::Cores::on_core, crate::specs::Cores::reply_on))]
pub fn reply(cores: [Core; 8], core: u64, reply: HvcReply) -> CoresStep
    ensures { result ≡ reply_on cores core reply }
{
    on_core(cores, core, |one| forwarded_call::reply_core(one, reply))
}

// Takes a core's trap.
#[tactic(auto, using(lists::proofs::Laws::get_d_any), unfolding(crate::specs::Cores::trap_on))]
pub fn trap(
    policy: Policy,
    cores: [Core; 8],
    counter: u64,
    core: u64,
    trap: TrapRegisters,
) -> Trapped
    ensures { result ≡ trap_on policy cores counter core trap }
{
    if MAX_CORES <= core {
        return Trapped {
            result: TrapResult::without_values(Err(CoreError::NoSuchCore)),
            policy,
            cores,
            counter,
        };
    }
    let one = cores[core as usize];
    let step = handle_sync_lower(policy.regions, policy.region_count, one, counter, trap);
    let mut next = cores;
    next[core as usize] = step.core;
    Trapped {
        result: step.result,
        policy,
        cores: next,
        counter: step.counter,
    }
}
