// One core of the bytes that a host lends, in place: the words that a step asks for are read and stored, and no others. A core above 7 reads as a fresh
// one and takes no store.
// (A call answers the number of its refusal, and no `Result`: `ritm` hands the number to C.)

#![tactic(auto)]

ghost use Rattle.std.specs.Prelude.{◌≡◌, [], ◌<◌, get_or};
ghost use Rattle.core_answers.specs.Answers.{forwarded_length, result_words};
ghost use Rattle.lent_words.specs.Words.{bytes_of, Leaves};
ghost use Rattle.exceptions.specs.Registers.{next_instruction, advance_pc, read_gpr, write_gpr, with_return};
ghost use Rattle.forwarded_call.specs.ForwardedCall.{forwarded_result, with_wait};
ghost use Rattle.lent_cores.specs.Layout.{elr_word, core_length, held_core, stored_core, held_word, stored_word};
ghost use Rattle.lent_core.specs.Calls.{save_call, read_call, write_call};

use core_answers::{CoreError, FORWARDED_VALUES, TrapAnswer};
use data_abort::Injection;
use exceptions::{GuestRegisterWriteError, Wait};
use forwarded_call::GuestCall;
use lent_cores::{
    CORE_WORDS, CORES_SIZE, ELR_EL1_WORD, ELR_WORD, ESR_EL1_WORD, FAR_EL1_WORD, HINT_WORD,
    LAST_CORE, REGISTERS_SIZE, SPSR_EL1_WORD, SPSR_WORD, TRAP_RESULT_SIZE, VALUES_WORD, WAIT_CODES,
    WAIT_WORD,
};
use lent_words::ONE_WORD;
use lists::refusal::{self, Refusal};

// One word of a core, 0 where there is no core of that number. (No option: as `get_core`.)
fn get_at(cores: &[u8; CORES_SIZE], core: u64, word: usize) -> u64
    requires { word < core_length }
    ensures { result ≡ held_word cores.now core word }
{
    if core < 8 {
        lent_words::get_word(cores, CORE_WORDS * core as usize + word)
    } else {
        0
    }
}

// What a core waits for.
pub fn get_wait(cores: &[u8; CORES_SIZE], core: u64) -> Wait
    ensures { result ≡ (held_core cores.now core).wait }
{
    lent_cores::wait_of(get_at(cores, core, WAIT_WORD))
}

// A core's ELR.
pub fn get_elr(cores: &[u8; CORES_SIZE], core: u64) -> u64
    ensures { result ≡ (held_core cores.now core).elr }
{
    get_at(cores, core, ELR_WORD)
}

// A core's SPSR.
pub fn get_spsr(cores: &[u8; CORES_SIZE], core: u64) -> u64
    ensures { result ≡ (held_core cores.now core).spsr }
{
    get_at(cores, core, SPSR_WORD)
}

// The value of a guest register.
#[tactic(auto, using(crate::proofs::InPlace::core_gpr), unfolding(exceptions::specs::Registers::read_gpr))]
pub fn get_gpr(cores: &[u8; CORES_SIZE], core: u64, index: usize) -> Option<u64>
    ensures { result ≡ read_gpr (held_core cores.now core) index }
{
    match index {
        0..=30 => Some(get_at(cores, core, index)),
        31 => Some(0),
        _ => None,
    }
}

// One of the values of a forwarded call: its function identifier, then the registers after x0 that are handed out, and zero past them.
#[tactic(auto, using(crate::proofs::InPlace::values_begin))]
fn forwarded_at(cores: &[u8; CORES_SIZE], core: u64, call: GuestCall, index: usize) -> u64
    requires { index < forwarded_length }
    ensures { result ≡ get_or (forwarded_result call (held_core cores.now core).x).values index 0 }
{
    if index == 0 {
        return call.function_id;
    }
    if index < forwarded_call::registers_for(call.recipient) {
        get_at(cores, core, index)
    } else {
        0
    }
}

// The result of a forwarded call.
pub fn put_forwarded(
    res: &mut [u8; TRAP_RESULT_SIZE],
    call: GuestCall,
    cores: &[u8; CORES_SIZE],
    core: u64,
)
    ensures { res.new ≡ bytes_of (result_words (forwarded_result call (held_core cores.now core).x)) }
{
    let answer = Ok(TrapAnswer::Forwarded(call.recipient));
    lent_words::put_word(res, 0, core_answers::trap_kind(answer));
    for i in 0..FORWARDED_VALUES {
        lent_words::put_word(res, VALUES_WORD + i, forwarded_at(cores, core, call, i));
    }
    lent_words::put_word(res, HINT_WORD, call.sve_hint);
}

// Stores one word of a core, and nothing where there is no core of that number.
fn put_at(cores: &mut [u8; CORES_SIZE], core: u64, word: usize, value: u64)
    requires { word < core_length }
    ensures { cores.new ≡ stored_word cores.old core word value }
{
    if core < 8 {
        lent_words::put_word(cores, CORE_WORDS * core as usize + word, value);
    }
}

// Stores an ELR past the instruction that it stands at.
fn put_past(cores: &mut [u8; CORES_SIZE], core: u64, elr: u64)
    ensures { cores.new ≡ stored_word cores.old core elr_word (next_instruction elr) }
{
    let past = exceptions::next_instruction(elr);
    put_at(cores, core, ELR_WORD, past);
}

// A core past the instruction that trapped. Here and below, the core's words that are not stored stand as they would be stored, since they are bytes.
pub fn put_advanced(cores: &mut [u8; CORES_SIZE], core: u64)
    ensures { cores.new
        ≡ stored_core cores.old core (advance_pc (held_core cores.old core)) }
{
    lent_words::are_bytes(cores);
    let elr = get_elr(cores, core);
    put_past(cores, core, elr);
}

// Writes a guest register.
#[tactic(auto, using(crate::proofs::InPlace::gpr_put, crate::proofs::InPlace::gpr_kept), unfolding(exceptions::specs::Registers::write_gpr))]
pub fn put_gpr(
    cores: &mut [u8; CORES_SIZE],
    core: u64,
    index: usize,
    value: u64,
) -> Result<(), GuestRegisterWriteError>
    ensures { (result ≡ (write_gpr (held_core cores.old core) index value).answer)
        × (cores.new
        ≡ stored_core cores.old core (write_gpr (held_core cores.old core) index value).core) }
{
    lent_words::are_bytes(cores);
    match index {
        0..=30 => {
            put_at(cores, core, index, value);
            Ok(())
        }
        31 => Ok(()),
        _ => Err(GuestRegisterWriteError),
    }
}

// A load is done: its register takes the value, and ELR moves past the instruction.
pub fn put_load(cores: &mut [u8; CORES_SIZE], core: u64, index: usize, value: u64)
    ensures { cores.new
        ≡ stored_core cores.old core (advance_pc (write_gpr (held_core cores.old core) index value).core) }
{
    let trapped = get_elr(cores, core);
    // Above 31 nothing is written, and a load is done all the same.
    let _ = put_gpr(cores, core, index, value);
    put_past(cores, core, trapped);
}

// Stores what a core waits for.
pub fn put_wait(cores: &mut [u8; CORES_SIZE], core: u64, wait: Wait)
    ensures { cores.new
        ≡ stored_core cores.old core (with_wait (held_core cores.old core) wait) }
{
    lent_words::are_bytes(cores);
    if core < 8 {
        let at = CORE_WORDS * core as usize + WAIT_WORD;
        let code = lent_words::kept_code(
            lent_words::get_word(cores, at),
            WAIT_CODES,
            lent_cores::wait_number(wait),
        );
        lent_words::put_word(cores, at, code);
    }
}

// Stores a core's ELR, SPSR and EL1 registers, as an injected abort sets them.
pub fn put_return(cores: &mut [u8; CORES_SIZE], core: u64, to: Injection)
    ensures { cores.new
        ≡ stored_core cores.old core (with_return (held_core cores.old core) to.elr to.spsr to.el1) }
{
    lent_words::are_bytes(cores);
    if core < 8 {
        let at = CORE_WORDS * core as usize;
        lent_words::put_word(cores, at + ELR_WORD, to.elr);
        lent_words::put_word(cores, at + SPSR_WORD, to.spsr);
        lent_words::put_word(cores, at + ELR_EL1_WORD, to.el1.elr);
        lent_words::put_word(cores, at + SPSR_EL1_WORD, to.el1.spsr);
        lent_words::put_word(cores, at + FAR_EL1_WORD, to.el1.far);
        lent_words::put_word(cores, at + ESR_EL1_WORD, to.el1.esr);
    }
}

// Puts in a core's registers as the hardware saved them: refusals 10, 11.
#[tactic(auto, using(crate::proofs::Calls::save_none, crate::proofs::Calls::save_one, core_answers::proofs::Laws::error_not_zero))]
pub fn save(cores: &mut [u8; CORES_SIZE], core: u64, registers: &[u8; REGISTERS_SIZE]) -> u64
    ensures { Leaves (save_call cores.old core registers.now) result cores.new [] }
{
    if LAST_CORE < core {
        return CoreError::NoSuchCore.number();
    }
    let x = lent_cores::get_saved_x(registers);
    let elr = lent_cores::get_saved_elr(registers);
    let spsr = lent_cores::get_saved_spsr(registers);
    let step = hypervisor::save_core(lent_cores::get_core(cores, core), x, elr, spsr);
    match step.answer {
        Ok(()) => {
            lent_cores::put_core(cores, core, step.core);
            0
        }
        Err(error) => error.number(),
    }
}

// The value of a guest register: refusals 10, 17.
#[tactic(auto, unfolding(crate::specs::Calls::read_call))]
pub fn read_gpr(cores: &[u8; CORES_SIZE], core: u64, index: u64, res: &mut [u8; ONE_WORD]) -> u64
    ensures { Leaves (read_call cores.now core index) result cores.now res.new }
{
    if LAST_CORE < core {
        lent_words::put_one_word(res, 0);
        return CoreError::NoSuchCore.number();
    }
    let read = get_gpr(cores, core, index as usize);
    lent_words::put_one_word(res, exceptions::read_value(read));
    exceptions::read_number(read)
}

// Writes a guest register: refusals 10, 17.
#[tactic(auto, using(crate::proofs::Calls::write_one), unfolding(crate::specs::Calls::write_call))]
pub fn write_gpr(cores: &mut [u8; CORES_SIZE], core: u64, index: u64, value: u64) -> u64
    ensures { Leaves (write_call cores.old core index value) result cores.new [] }
{
    if LAST_CORE < core {
        return CoreError::NoSuchCore.number();
    }
    // A refusal stores the core as it stands: of bytes, that changes nothing.
    lent_words::are_bytes(cores);
    refusal::answer_number(put_gpr(cores, core, index as usize, value))
}
