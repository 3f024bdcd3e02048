// RITM's src/exceptions.rs: the guest registers that a trap saved, as one record by value.

#![tactic(auto)]

ghost use Rattle.std.specs.Prelude.{◌≡◌};
ghost use Rattle.exceptions.specs.Registers.{fresh_core, next_instruction, advance_pc, read_gpr, read_number, read_value, write_gpr, write_error_number};

use lists::refusal::{self, Refusal};

// How a call left the guest: the SMCCC's conduit.
#[derive(Clone, Copy)]
pub enum Conduit {
    Hvc,
    Smc,
}

// Who is to answer a forwarded call (document 01: a hand-out).
#[derive(Clone, Copy)]
pub enum Recipient {
    Firmware,
    Platform,
}

// What a core waits for: nothing, or a call by a conduit to a recipient.
pub type Wait = Option<(Conduit, Recipient)>;

// The EL1 registers that an injected abort writes.
#[derive(Clone, Copy)]
pub struct FaultRegisters {
    pub elr: u64,
    pub spsr: u64,
    pub far: u64,
    pub esr: u64,
}

// A core's saved registers: x0 to x30, of which x29 is the frame pointer and x30 the link register (RITM's field `sp`), ELR and SPSR.
#[derive(Clone, Copy)]
pub struct Core {
    pub x: [u64; 31],
    pub elr: u64,
    pub spsr: u64,
    pub el1: FaultRegisters,
    pub wait: Wait,
}

// A write to no register of the guest's.
#[derive(Clone, Copy)]
pub struct GuestRegisterWriteError;

impl Refusal for GuestRegisterWriteError {
    ghost number_of = { write_error_number };

    fn number(self) -> u64 {
        17
    }
}

// The number of a read's answer in the table of refusals: 17 where there is no such register. (As `decoded_number`.)
pub fn read_number(read: Option<u64>) -> u64
    ensures { result ≡ read_number read }
{
    refusal::missing_number(read, 17)
}

// The value that was read, 0 where there is none.
pub fn read_value(read: Option<u64>) -> u64
    ensures { result ≡ read_value read }
{
    read.unwrap_or(0)
}

// The answer, and the core then. (No `Result<Core, _>`: that a refused write leaves the core is said of the core that it gives.)
#[derive(Clone, Copy)]
pub struct GprWritten {
    pub answer: Result<(), GuestRegisterWriteError>,
    pub core: Core,
}

const AARCH64_INSTRUCTION_LENGTH: u64 = 4;

// Where the instruction after the one at `elr` stands.
pub fn next_instruction(elr: u64) -> u64
    ensures { result ≡ next_instruction elr }
{
    std::num::wrapping_add_u64(elr, AARCH64_INSTRUCTION_LENGTH)
}

impl Core {
    // The fresh core: all zero, waiting for nothing.
    #[tactic(auto, unfolding(crate::specs::Registers::fresh_core))]
    pub fn fresh() -> Self
        ensures { result ≡ fresh_core }
    {
        Core {
            x: [0u64; 31],
            elr: 0,
            spsr: 0,
            el1: FaultRegisters {
                elr: 0,
                spsr: 0,
                far: 0,
                esr: 0,
            },
            wait: None,
        }
    }

    // The core past the instruction that trapped. (RITM's `advance_pc`, by the length of an instruction.)
    #[tactic(auto, unfolding(crate::specs::Registers::advance_pc))]
    pub fn advance_pc(self) -> Self
        ensures { result ≡ advance_pc self }
    {
        Core {
            elr: next_instruction(self.elr),
            ..self
        }
    }

    // The value of guest register `index`.
    #[tactic(auto, unfolding(crate::specs::Registers::read_gpr))]
    pub fn read_gpr(self, index: usize) -> Option<u64>
        ensures { result ≡ read_gpr self index }
    {
        match index {
            0..=30 => Some(self.x[index]),
            31 => Some(0),
            _ => None,
        }
    }

    // The core with `value` in guest register `index`.
    #[tactic(auto, unfolding(crate::specs::Registers::write_gpr, crate::specs::Registers::with_registers))]
    pub fn write_gpr(self, index: usize, value: u64) -> GprWritten
        ensures { result ≡ write_gpr self index value }
    {
        let mut core = self;
        let answer = match index {
            0..=30 => {
                core.x[index] = value;
                Ok(())
            }
            31 => Ok(()),
            _ => Err(GuestRegisterWriteError),
        };
        GprWritten { answer, core }
    }
}

// The same on a core record that is lent: the record is copied out, written by value and put back.
pub fn write_gpr_lent(
    core: &mut Core,
    index: usize,
    value: u64,
) -> Result<(), GuestRegisterWriteError>
    ensures { (result ≡ (write_gpr core.old index value).answer)
        × (core.new ≡ (write_gpr core.old index value).core) }
{
    let written = core.write_gpr(index, value);
    *core = written.core;
    written.answer
}

// The lent form on a record of one's own. (It stays beside `write_gpr_lent`: recorded calls are made by it, and each recorded answer compared.)
pub fn write_gpr_by_loan(core: Core, index: usize, value: u64) -> GprWritten
    ensures { result ≡ write_gpr core index value }
{
    let mut lent = core;
    let answer = write_gpr_lent(&mut lent, index, value);
    GprWritten { answer, core: lent }
}
