// Where the bytes that a host lends hold the cores, the counter, and what goes into a core's calls and comes out: little-endian 64-bit words at fixed
// places. Any bytes are eight cores.
// (`core < 8` stands in each private contract here and in the crates of a core's calls: of a type for it each clause would say `core.number`, and
// each call from C would build one.)

#![tactic(auto)]

ghost use Rattle.std.specs.Prelude.{◌≡◌, ◌+◌, ◌≤◌, ◌<◌, ◌^◌, length};
ghost use Rattle.core_answers.specs.Answers.{result_words};
ghost use Rattle.lent_words.specs.Words.{word_at, words_at, with_word, with_words, store_each, bytes_of};
ghost use Rattle.lent_cores.specs.Layout.{elr_word, spsr_word, elr_el1_word, fault_words, wait_by_code, wait_number, core_at, held_core, stored_core, counter_at, with_core, with_counter};

use core_answers::{FORWARDED_VALUES, TrapResult};
use exceptions::{Conduit, Core, FaultRegisters, Recipient, Wait};

// The words of a core: x0 to x30, then ELR, SPSR, ELR_EL1, SPSR_EL1, FAR_EL1, ESR_EL1 and the code of what it waits for.
pub const ELR_WORD: usize = 31;

pub const SPSR_WORD: usize = 32;

pub const ELR_EL1_WORD: usize = 33;

pub const SPSR_EL1_WORD: usize = 34;

pub const FAR_EL1_WORD: usize = 35;

pub const ESR_EL1_WORD: usize = 36;

pub const WAIT_WORD: usize = 37;

pub const CORE_WORDS: usize = 38;

// "number above 7" names no core.
pub const LAST_CORE: u64 = 7;

// The counter stands after the eight cores.
const COUNTER_WORD: usize = 8 * CORE_WORDS;

// The words of a trap's result: the kind of the answer, the values from here on, and the SVE hint.
pub const VALUES_WORD: usize = 1;

pub const HINT_WORD: usize = VALUES_WORD + FORWARDED_VALUES;

// The lengths of the lent buffers, in bytes: the cores with the counter, the registers of a save, the result of a trap.
pub const CORES_SIZE: usize = 8 * (COUNTER_WORD + 1);

pub const REGISTERS_SIZE: usize = 8 * (SPSR_WORD + 1);

pub const TRAP_RESULT_SIZE: usize = 8 * (HINT_WORD + 1);

// How many codes there are of what a core waits for.
pub const WAIT_CODES: u64 = 5;

// What a core waits for, by its code. (Functions here and below: a `From` of another crate's `Option` may not stand in this crate.)
#[tactic(auto, using(crate::proofs::Records::unknown_wait), unfolding(crate::specs::Layout::wait_by_code))]
pub fn wait_of(code: u64) -> Wait
    ensures { result ≡ wait_by_code code }
{
    match code {
        1 => Some((Conduit::Hvc, Recipient::Firmware)),
        2 => Some((Conduit::Hvc, Recipient::Platform)),
        3 => Some((Conduit::Smc, Recipient::Firmware)),
        4 => Some((Conduit::Smc, Recipient::Platform)),
        _ => None,
    }
}

// The code of what a core waits for.
pub fn wait_number(wait: Wait) -> u64
    ensures { result ≡ wait_number wait }
{
    match wait {
        None => 0,
        Some((Conduit::Hvc, Recipient::Firmware)) => 1,
        Some((Conduit::Hvc, Recipient::Platform)) => 2,
        Some((Conduit::Smc, Recipient::Firmware)) => 3,
        Some((Conduit::Smc, Recipient::Platform)) => 4,
    }
}

// The words from a place on.
pub fn get_words<const N: usize>(bytes: &[u8], from: usize) -> [u64; N]
    ensures { result ≡ words_at bytes.now from N }
{
    let mut words = [0u64; N];
    for i in 0..N {
        words[i] = lent_words::get_word(bytes, from.saturating_add(i));
    }
    words
}

// The core, and a fresh one where there is no core of that number. (No option: it could not fail before, and the contracts name this core.)
#[tactic(auto, using(crate::proofs::Records::no_core, crate::proofs::Records::core_of_lem))]
pub fn get_core(cores: &[u8; CORES_SIZE], core: u64) -> Core
    ensures { result ≡ held_core cores.now core }
{
    if 8 <= core {
        return Core::fresh();
    }
    get_one(cores, core as usize)
}

// One of the eight cores.
#[tactic(auto, unfolding(crate::specs::Layout::core_at))]
fn get_one(cores: &[u8; CORES_SIZE], core: usize) -> Core
    requires { core < 8 }
    ensures { result ≡ core_at cores.now core }
{
    let at = CORE_WORDS * core;
    let el1 = FaultRegisters {
        elr: lent_words::get_word(cores, at + ELR_EL1_WORD),
        spsr: lent_words::get_word(cores, at + SPSR_EL1_WORD),
        far: lent_words::get_word(cores, at + FAR_EL1_WORD),
        esr: lent_words::get_word(cores, at + ESR_EL1_WORD),
    };
    Core {
        x: get_words(cores, at),
        elr: lent_words::get_word(cores, at + ELR_WORD),
        spsr: lent_words::get_word(cores, at + SPSR_WORD),
        el1,
        wait: wait_of(lent_words::get_word(cores, at + WAIT_WORD)),
    }
}

// Stores words from a place on. (That of `lent_words` fills a result from its start: with a place it would ask that the sum fits.)
fn put_words(bytes: &mut [u8], from: usize, words: &[u64])
    requires { from + length words.now < 2 ^ 64 }
    ensures { bytes.new ≡ with_words bytes.old from words.now }
{
    for (i, word) in words.iter().enumerate() {
        lent_words::put_word(bytes, from + i, *word);
    }
}

// The EL1 registers of the core that stands from a place on. (`put_return` of `lent_core` stores the same four: as a public function this
// would ask where the core stands.)
fn put_el1(cores: &mut [u8; CORES_SIZE], at: usize, el1: FaultRegisters)
    requires { at ≤ 266 }
    ensures { cores.new ≡ store_each (λ b j w. with_word b (at + j) w) cores.old elr_el1_word (fault_words el1) }
{
    lent_words::put_word(cores, at + ELR_EL1_WORD, el1.elr);
    lent_words::put_word(cores, at + SPSR_EL1_WORD, el1.spsr);
    lent_words::put_word(cores, at + FAR_EL1_WORD, el1.far);
    lent_words::put_word(cores, at + ESR_EL1_WORD, el1.esr);
}

// Stores a core, and nothing where there is no core of that number.
pub fn put_core(cores: &mut [u8; CORES_SIZE], core: u64, value: Core)
    ensures { cores.new ≡ stored_core cores.old core value }
{
    if core < 8 {
        put_one(cores, core as usize, value);
    }
}

// Stores one of the eight cores.
fn put_one(cores: &mut [u8; CORES_SIZE], core: usize, value: Core)
    requires { core < 8 }
    ensures { cores.new ≡ with_core cores.old core value }
{
    let at = CORE_WORDS * core;
    let code = lent_words::kept_code(
        lent_words::get_word(cores, at + WAIT_WORD),
        WAIT_CODES,
        wait_number(value.wait),
    );
    put_words(cores, at, &value.x);
    lent_words::put_word(cores, at + ELR_WORD, value.elr);
    lent_words::put_word(cores, at + SPSR_WORD, value.spsr);
    put_el1(cores, at, value.el1);
    lent_words::put_word(cores, at + WAIT_WORD, code);
}

// The counter of the filtered MMIO page.
#[tactic(auto, unfolding(crate::specs::Layout::counter_at))]
pub fn get_counter(cores: &[u8; CORES_SIZE]) -> u64
    ensures { result ≡ counter_at cores.now }
{
    lent_words::get_word(cores, COUNTER_WORD)
}

// Stores the counter.
#[tactic(auto, unfolding(crate::specs::Layout::with_counter))]
pub fn put_counter(cores: &mut [u8; CORES_SIZE], counter: u64)
    ensures { cores.new ≡ with_counter cores.old counter }
{
    lent_words::put_word(cores, COUNTER_WORD, counter);
}

// x0 to x30 as the hardware saved them.
pub fn get_saved_x(registers: &[u8; REGISTERS_SIZE]) -> [u64; 31]
    ensures { result ≡ words_at registers.now 0 31 }
{
    get_words(registers, 0)
}

// ELR as the hardware saved it.
pub fn get_saved_elr(registers: &[u8; REGISTERS_SIZE]) -> u64
    ensures { result ≡ word_at registers.now elr_word }
{
    lent_words::get_word(registers, ELR_WORD)
}

// SPSR as the hardware saved it.
pub fn get_saved_spsr(registers: &[u8; REGISTERS_SIZE]) -> u64
    ensures { result ≡ word_at registers.now spsr_word }
{
    lent_words::get_word(registers, SPSR_WORD)
}

// The result of a trap.
pub fn put_trap_result(res: &mut [u8; TRAP_RESULT_SIZE], trap: TrapResult)
    ensures { res.new ≡ bytes_of (result_words trap) }
{
    lent_words::put_word(res, 0, core_answers::trap_kind(trap.answer));
    put_words(res, VALUES_WORD, &trap.values);
    lent_words::put_word(res, HINT_WORD, trap.sve_hint);
}
