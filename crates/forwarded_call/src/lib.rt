// RITM's src/hypervisor.rs, its HVC and SMC calls: each is handed out to its recipient, whose reply the core then takes.

#![tactic(auto)]

ghost use Rattle.std.specs.Prelude.{◌≡◌, ◌≤◌};
ghost use Rattle.forwarded_call.specs.ForwardedCall.{is_fast_call, function_id_of, sve_hint_of, recipient_of, guest_call, registers_for, first_registers, with_wait, forward_call, may_reply, decide_reply, resumed_elr, resumed, reply_core};

use core_answers::{CoreError, CoreStep, FORWARDED_VALUES, TrapAnswer, TrapResult};
use exceptions::{Conduit, Core, Recipient, Wait};
use hvc_response::{HvcResult, REPLY_VALUES};

// What x0 says of a guest's call, by DEN0028 from version 1.3 on.
#[derive(Clone, Copy)]
pub struct GuestCall {
    // Document 02's function number.
    pub function_id: u64,
    // 1 where the caller says that it holds no live SVE state, else 0. (A number, as the word of the result that C reads.)
    pub sve_hint: u64,
    pub recipient: Recipient,
}

// A guest's call that is its recipient's to answer (document 01: a hand-out), and the core then.
#[derive(Clone, Copy)]
pub struct ForwardedCall {
    pub result: TrapResult,
    pub core: Core,
}

// The host's answer to a forwarded call: its kind, the values that the kind uses from the first on, and the error. (The kind is a number,
// since refusal 15 is promised of any.)
#[derive(Clone, Copy)]
pub struct HvcReply {
    pub kind: u64,
    pub values: [u64; REPLY_VALUES],
    pub error: i32,
}

// W0, the low 32 bits of x0, holds the function identifier. Its bit 31 is set in a fast call and clear in a yielding one; bit 16 of a fast call
// is the SVE hint.
const W0: u64 = 0xFFFF_FFFF;

const FAST_CALL: u64 = 1 << 31;

const SVE_HINT: u64 = 1 << 16;

impl GuestCall {
    // Every x0 is a call's.
    #[tactic(auto, unfolding(crate::specs::ForwardedCall::guest_call))]
    pub fn from_x0(x0: u64) -> Self
        ensures { result ≡ guest_call x0 }
    {
        let function_id = function_id(x0);
        GuestCall {
            function_id,
            sve_hint: sve_hint(x0),
            recipient: recipient_of(function_id),
        }
    }
}

fn is_fast_call(x0: u64) -> bool
    ensures { result ≡ is_fast_call x0 }
{
    x0 & FAST_CALL != 0
}

// The function identifier, without the hint of a fast call.
fn function_id(x0: u64) -> u64
    ensures { result ≡ function_id_of x0 }
{
    let w0 = x0 & W0;
    if !is_fast_call(x0) {
        return w0;
    }
    w0 & !SVE_HINT
}

// The hint of a fast call, and 0 in a yielding one.
fn sve_hint(x0: u64) -> u64
    ensures { result ≡ sve_hint_of x0 }
{
    if !is_fast_call(x0) {
        return 0;
    }
    (x0 >> 16) & 1
}

// Hands the call out: the core waits for its recipient's reply, and its own x0 is as it was.
#[tactic(auto, using(crate::proofs::Laws::registers_fit), unfolding(crate::specs::ForwardedCall::forward_call))]
pub fn forward_call(core: Core, conduit: Conduit) -> ForwardedCall
    ensures { result ≡ forward_call core conduit }
{
    let mut x = core.x;
    let call = GuestCall::from_x0(x[0]);
    let recipient = call.recipient;
    x[0] = call.function_id;
    let result = TrapResult {
        answer: Ok(TrapAnswer::Forwarded(recipient)),
        values: first_registers(x, registers_for(recipient)),
        sve_hint: call.sve_hint,
    };
    ForwardedCall {
        result,
        core: wait_for(core, Some((conduit, recipient))),
    }
}

// The firmware answers PSCI calls, of either register width, and the platform all others.
#[tactic(auto, unfolding(crate::specs::ForwardedCall::recipient_of))]
fn recipient_of(function_id: u64) -> Recipient
    ensures { result ≡ recipient_of function_id }
{
    match function_id {
        0x8400_0000..=0x8400_001F | 0xC400_0000..=0xC400_001F => Recipient::Firmware,
        _ => Recipient::Platform,
    }
}

// How many registers a call hands to its recipient.
pub fn registers_for(recipient: Recipient) -> usize
    ensures { result ≡ registers_for recipient }
{
    match recipient {
        Recipient::Firmware => 4,
        Recipient::Platform => 18,
    }
}

// The first registers, and zeros past them. (How many they are is the recipient's, not the array's.)
#[tactic(auto, unfolding(crate::specs::ForwardedCall::first_registers))]
fn first_registers(x: [u64; 31], count: usize) -> [u64; FORWARDED_VALUES]
    requires { count ≤ 18 }
    ensures { result ≡ first_registers x count }
{
    let mut values = [0u64; FORWARDED_VALUES];
    values[..count].copy_from_slice(&x[..count]);
    values
}

#[tactic(auto, unfolding(crate::specs::ForwardedCall::with_wait))]
fn wait_for(core: Core, wait: Wait) -> Core
    ensures { result ≡ with_wait core wait }
{
    Core { wait, ..core }
}

// The firmware answers with one value or an error, kinds 1 and 4.
#[tactic(auto, unfolding(crate::specs::ForwardedCall::may_reply))]
fn may_reply(recipient: Recipient, kind: u64) -> bool
    ensures { result ≡ may_reply recipient kind }
{
    match recipient {
        Recipient::Firmware => kind == 1 || kind == 4,
        Recipient::Platform => true,
    }
}

// What becomes of a reply to a core that waits for this, by its kind, its first value and its error: refusals 14 and 15.
#[tactic(auto, unfolding(crate::specs::ForwardedCall::decide_reply))]
pub fn decide_reply(
    wait: Wait,
    kind: u64,
    value: u64,
    error: i32,
) -> Result<(HvcResult, Conduit), CoreError>
    ensures { result ≡ decide_reply wait kind value error }
{
    let (conduit, recipient) = wait.ok_or(CoreError::NothingWaiting)?;
    if !may_reply(recipient, kind) {
        return Err(CoreError::UnknownReplyKind);
    }
    Ok((HvcResult::from_kind(kind, value, error)?, conduit))
}

// Where a core goes on: past an SMC, to which ELR still points, and from an HVC's ELR, which points past it.
pub fn resumed_elr(conduit: Conduit, elr: u64) -> u64
    ensures { result ≡ resumed_elr conduit elr }
{
    match conduit {
        Conduit::Hvc => elr,
        Conduit::Smc => exceptions::next_instruction(elr),
    }
}

#[tactic(auto, unfolding(crate::specs::ForwardedCall::resumed))]
fn resume(core: Core, conduit: Conduit) -> Core
    ensures { result ≡ resumed conduit core }
{
    Core {
        elr: resumed_elr(conduit, core.elr),
        wait: None,
        ..core
    }
}

// Gives one core the answer that it waits for.
#[tactic(auto, unfolding(crate::specs::ForwardedCall::reply_core))]
pub fn reply_core(core: Core, reply: HvcReply) -> CoreStep
    ensures { result ≡ reply_core core reply }
{
    match decide_reply(core.wait, reply.kind, reply.values[0], reply.error) {
        Ok((result, conduit)) => {
            let answered = result.modify_register_state(core, reply.values);
            CoreStep {
                answer: Ok(()),
                core: resume(answered, conduit),
            }
        }
        Err(error) => CoreStep::refused(error, core),
    }
}
