// A core's trap on the bytes that a host lends, in place: it reads and stores the words that the trap asks for, and makes the decisions of `hypervisor`
// and the crates below it.
// (A call answers the number of its refusal, and no `Result`: `ritm` hands the number to C. Policy, cores, core and result stay apart: they are C's
// buffers, and of a struct of references each clause would name a field of a field.)

#![tactic(auto)]

ghost use Rattle.std.specs.Prelude.{◌≡◌, cond, ◌<◌, eqb};
ghost use Rattle.lent_words.specs.Words.{bytes_of, Leaves};
ghost use Rattle.lent_policy.specs.Layout.{policy_at};
ghost use Rattle.lent_cores.specs.Layout.{held_core, counter_at, with_counter};
ghost use Rattle.stage2.specs.Policy.{regions_held};
ghost use Rattle.core_answers.specs.Answers.{trap_number, without_values, result_words};
ghost use Rattle.data_abort.specs.DataAbort.{try_memory_access, inject_data_abort, handle_data_abort};
ghost use Rattle.forwarded_call.specs.ForwardedCall.{forward_call};
ghost use Rattle.hypervisor.specs.Trap.{exception_class, forwarded, by_class};
ghost use Rattle.lent_trap.specs.LentTrap.{trap_call, trapped_one};

use core_answers::{CoreError, TrapAnswer, TrapResult};
use data_abort::{HandledAccess, TrapRegisters};
use exceptions::Conduit;
use forwarded_call::GuestCall;
use hypervisor::ExceptionClass;
use lent_cores::{CORES_SIZE, LAST_CORE, TRAP_RESULT_SIZE};
use lent_policy::POLICY_SIZE;
use lists::refusal;
use memory_access::MemoryAccessKind;

// Writes an answer without values, and gives its number.
fn answer(answer: Result<TrapAnswer, CoreError>, res: &mut [u8; TRAP_RESULT_SIZE]) -> u64
    ensures { (result ≡ trap_number answer) × (res.new ≡ bytes_of (result_words (without_values answer))) }
{
    lent_cores::put_trap_result(res, TrapResult::without_values(answer));
    refusal::answer_number(answer)
}

// Hands a call out: the core waits, its own x0 as it was, and the result has the call's values and its hint.
#[tactic(auto, using(crate::proofs::Laws::left_alone), unfolding(forwarded_call::specs::ForwardedCall::forward_call, forwarded_call::specs::ForwardedCall::with_wait, exceptions::specs::Registers::read_gpr))]
fn forward_call(
    cores: &mut [u8; CORES_SIZE],
    core: u64,
    conduit: Conduit,
    res: &mut [u8; TRAP_RESULT_SIZE],
) -> u64
    requires { core < 8 }
    ensures { let step = forwarded (forward_call (held_core cores.old core) conduit) (counter_at cores.old) in
        Leaves (trapped_one cores.old core step) result cores.new res.new }
{
    lent_words::are_bytes(cores);
    let x0 = lent_core::get_gpr(cores, core, 0);
    let call = GuestCall::from_x0(x0.unwrap_or(0));
    lent_core::put_forwarded(res, call, cores, core);
    let recipient = call.recipient;
    lent_core::put_wait(cores, core, Some((conduit, recipient)));
    0
}

// What the access that a data abort describes comes to.
#[tactic(auto, using(data_abort::proofs::Laws::access_tried, data_abort::proofs::Laws::nothing_tried))]
fn try_memory_access_handler(
    policy: &[u8; POLICY_SIZE],
    cores: &[u8; CORES_SIZE],
    core: u64,
    counter: u64,
    trap: TrapRegisters,
) -> Option<HandledAccess>
    ensures { result ≡ try_memory_access (regions_held (policy_at policy.now)) (held_core cores.now core) counter trap }
{
    let access = data_abort::decode_abort(trap)?;
    let rt = lent_core::get_gpr(cores, core, access.register_index).unwrap_or(0);
    let found = lent_policy::find_region(policy, access.ipa);
    data_abort::emulate_access(found, access, rt, counter)
}

// Injects a data abort into a core.
#[tactic(auto, using(crate::proofs::Laws::left_alone), unfolding(data_abort::specs::DataAbort::inject_data_abort, data_abort::specs::DataAbort::injected))]
fn inject_data_abort(
    cores: &mut [u8; CORES_SIZE],
    core: u64,
    trap: TrapRegisters,
    res: &mut [u8; TRAP_RESULT_SIZE],
) -> u64
    requires { core < 8 }
    ensures { let step = inject_data_abort (held_core cores.old core) (counter_at cores.old) trap in
        Leaves (trapped_one cores.old core step) result cores.new res.new }
{
    if trap.vbar == 0 {
        return answer(Err(CoreError::NoGuestVector), res);
    }
    lent_words::are_bytes(cores);
    let elr = lent_core::get_elr(cores, core);
    let spsr = lent_core::get_spsr(cores, core);
    let to = data_abort::injection_of(elr, spsr, trap);
    lent_core::put_return(cores, core, to);
    answer(Ok(TrapAnswer::AbortInjected), res)
}

// Stores the counter, where it is another than before.
fn put_grown(cores: &mut [u8; CORES_SIZE], before: u64, after: u64)
    ensures { cores.new ≡ cond (eqb after before) cores.old (with_counter cores.old after) }
{
    if after != before {
        lent_cores::put_counter(cores, after);
    }
}

// A data abort of one core.
#[tactic(auto, using(crate::proofs::Laws::left_alone, crate::proofs::Laws::grown, data_abort::proofs::Laws::by_outcome, exceptions::proofs::Laws::write_length), unfolding(exceptions::specs::Registers::advance_pc))]
fn handle_data_abort(
    policy: &[u8; POLICY_SIZE],
    cores: &mut [u8; CORES_SIZE],
    core: u64,
    trap: TrapRegisters,
    res: &mut [u8; TRAP_RESULT_SIZE],
) -> u64
    requires { core < 8 }
    ensures { let step = handle_data_abort (regions_held (policy_at policy.now)) (held_core cores.old core) (counter_at cores.old) trap in
        Leaves (trapped_one cores.old core step) result cores.new res.new }
{
    lent_words::are_bytes(cores);
    let counter = lent_cores::get_counter(cores);
    match try_memory_access_handler(policy, cores, core, counter, trap) {
        Some(HandledAccess::Loaded(register_index, value, after)) => {
            lent_core::put_load(cores, core, register_index, value);
            put_grown(cores, counter, after);
            answer(Ok(TrapAnswer::AccessHandled(MemoryAccessKind::Read)), res)
        }
        Some(HandledAccess::Stored) => {
            lent_core::put_advanced(cores, core);
            answer(Ok(TrapAnswer::AccessHandled(MemoryAccessKind::Write)), res)
        }
        None => inject_data_abort(cores, core, trap, res),
    }
}

// The trap of a core that does not wait, by its exception class.
#[tactic(auto, unfolding(hypervisor::specs::Trap::by_class))]
fn dispatch(
    policy: &[u8; POLICY_SIZE],
    cores: &mut [u8; CORES_SIZE],
    core: u64,
    trap: TrapRegisters,
    res: &mut [u8; TRAP_RESULT_SIZE],
) -> u64
    requires { core < 8 }
    ensures { let step = by_class (exception_class trap.esr) (regions_held (policy_at policy.now)) (held_core cores.old core) (counter_at cores.old) trap in
        Leaves (trapped_one cores.old core step) result cores.new res.new }
{
    match hypervisor::exception_class(trap.esr) {
        ExceptionClass::HvcTrappedInAArch64 => forward_call(cores, core, Conduit::Hvc, res),
        ExceptionClass::SmcTrappedInAArch64 => forward_call(cores, core, Conduit::Smc, res),
        ExceptionClass::DataAbortLowerEl => handle_data_abort(policy, cores, core, trap, res),
        ExceptionClass::Unknown => { answer(Err(CoreError::UnexpectedExceptionClass), res) }
    }
}

// Takes a core's trap: refusals 10 to 13. The result is the answer's kind, and the values and the SVE hint of a forwarded call.
#[tactic(auto, using(crate::proofs::Laws::trap_none, crate::proofs::Laws::trap_one), unfolding(hypervisor::specs::Trap::handle_sync_lower))]
pub fn trap(
    policy: &[u8; POLICY_SIZE],
    cores: &mut [u8; CORES_SIZE],
    core: u64,
    trap: TrapRegisters,
    res: &mut [u8; TRAP_RESULT_SIZE],
) -> u64
    ensures { Leaves (trap_call policy.now cores.old core trap) result cores.new res.new }
{
    if LAST_CORE < core {
        return answer(Err(CoreError::NoSuchCore), res);
    }
    match lent_core::get_wait(cores, core) {
        Some(_) => answer(Err(CoreError::CoreWaiting), res),
        None => dispatch(policy, cores, core, trap, res),
    }
}
