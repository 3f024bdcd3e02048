// What the calls on a core answer, with document 01's numbers: ours, since RITM has no refusals here.

#![tactic(auto)]

ghost use Rattle.std.specs.Prelude.{◌≡◌};
ghost use Rattle.core_answers.specs.Answers.{core_error_number, trap_kind, without_values, answered, refused_trap, refused_core};

use exceptions::{Core, Recipient};
use lists::refusal::Refusal;
use memory_access::MemoryAccessKind;

// Why a call on a core is refused.
#[derive(Clone, Copy)]
pub enum CoreError {
    NoSuchCore,
    CoreWaiting,
    UnexpectedExceptionClass,
    NoGuestVector,
    NothingWaiting,
    UnknownReplyKind,
}

// What one core's save or reply comes to, and the core then. (No `Result<Core, CoreError>`: that a refusal leaves the core as it was
// is said of the core that it gives.)
#[derive(Clone, Copy)]
pub struct CoreStep {
    pub answer: Result<(), CoreError>,
    pub core: Core,
}

// What a trap answers.
#[derive(Clone, Copy)]
pub enum TrapAnswer {
    // The load or the store is done.
    AccessHandled(MemoryAccessKind),
    AbortInjected,
    // The guest's call is the recipient's to answer (document 01: a hand-out).
    Forwarded(Recipient),
}

// The most registers that a forwarded call hands out, and so the values of a trap's result.
pub const FORWARDED_VALUES: usize = 18;

// What a trap gives its host: the answer, and the values and the SVE hint of a forwarded call, zeros in every other answer: the words that C
// reads, so that they stand beside the answer.
#[derive(Clone, Copy)]
pub struct TrapResult {
    pub answer: Result<TrapAnswer, CoreError>,
    pub values: [u64; FORWARDED_VALUES],
    // 1 where the caller says that it holds no live SVE state, else 0.
    pub sve_hint: u64,
}

// What one core's trap gives, and the core and the counter then, of a refusal too (as `CoreStep`).
#[derive(Clone, Copy)]
pub struct TrapStep {
    pub result: TrapResult,
    pub core: Core,
    pub counter: u64,
}

impl Refusal for CoreError {
    ghost number_of = { core_error_number };

    fn number(self) -> u64 {
        match self {
            CoreError::NoSuchCore => 10,
            CoreError::CoreWaiting => 11,
            CoreError::UnexpectedExceptionClass => 12,
            CoreError::NoGuestVector => 13,
            CoreError::NothingWaiting => 14,
            CoreError::UnknownReplyKind => 15,
        }
    }
}

impl CoreStep {
    // A refusal leaves the core as it was.
    pub fn refused(error: CoreError, core: Core) -> Self
        ensures { result ≡ refused_core error core }
    {
        CoreStep {
            answer: Err(error),
            core,
        }
    }
}

// Which of the five accepted answers of a trap it is, from 1 on, and 0 for a refusal. (A number: the first word of the result that C reads.)
pub fn trap_kind(answer: Result<TrapAnswer, CoreError>) -> u64
    ensures { result ≡ trap_kind answer }
{
    match answer {
        Ok(TrapAnswer::AccessHandled(MemoryAccessKind::Read)) => 1,
        Ok(TrapAnswer::AccessHandled(MemoryAccessKind::Write)) => 2,
        Ok(TrapAnswer::AbortInjected) => 3,
        Ok(TrapAnswer::Forwarded(Recipient::Firmware)) => 4,
        Ok(TrapAnswer::Forwarded(Recipient::Platform)) => 5,
        Err(_) => 0,
    }
}

impl TrapResult {
    // The result of a trap whose answer has no values and no hint.
    pub fn without_values(answer: Result<TrapAnswer, CoreError>) -> Self
        ensures { result ≡ without_values answer }
    {
        TrapResult {
            answer,
            values: [0u64; FORWARDED_VALUES],
            sve_hint: 0,
        }
    }
}

impl TrapStep {
    // A step whose answer has no values and no hint.
    pub fn answered(answer: Result<TrapAnswer, CoreError>, core: Core, counter: u64) -> Self
        ensures { result ≡ answered answer core counter }
    {
        TrapStep {
            result: TrapResult::without_values(answer),
            core,
            counter,
        }
    }

    // A refusal leaves the core and the counter as they were.
    pub fn refused(error: CoreError, core: Core, counter: u64) -> Self
        ensures { result ≡ refused_trap error core counter }
    {
        TrapStep::answered(Err(error), core, counter)
    }
}
