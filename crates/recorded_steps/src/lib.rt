// The calls that records name on the cores: 4 to 7 and 16, and their state, f, 10 and 14. Each is made as the record says, and the words
// of its answer are compared with those recorded. The codes are those of the table of formats in crates/oracle_answers.

#![tactic(auto)]

ghost use Rattle.std.specs.Prelude.{◌≡◌, ◌^◌, ◌<◌};
ghost use Rattle.exceptions.specs.Registers.{write_gpr, fresh_core};
ghost use Rattle.records.specs.Records.{place_compared};
ghost use Rattle.recorded_steps.specs.Steps.{fresh_state, passed, save_made, step_taken, trap_made, trap_taken, reply_taken, write_taken, gpr_words, core_words, core_read, cores_taken};

use data_abort::TrapRegisters;
use exceptions::{Core, GprWritten};
use forwarded_call::HvcReply;
use hypervisor::{CoresStep, Trapped};
use lists::refusal::answer_number;
use memory_access::Fipa;
use records::{Call, Record, Taken};
use stage2::Policy;

// The cores, and the counter of the filtered MMIO page.
#[derive(Clone, Copy)]
pub struct CoresState {
    pub cores: [Core; 8],
    pub counter: u64,
}

impl CoresState {
    // Fresh cores, and this counter.
    pub fn fresh(counter: u64) -> Self
        ensures { result ≡ fresh_state counter }
    {
        CoresState {
            cores: hypervisor::fresh_cores(),
            counter,
        }
    }
}

// Makes the record's call; a record of something else passes as it is.
#[tactic(auto, unfolding(crate::specs::Steps::cores_taken))]
pub fn take(policy: Policy, state: CoresState, recorded: Record, call: Call) -> Taken<CoresState>
    ensures { result ≡ cores_taken policy state recorded call }
{
    match call.code {
        0 => pass(recorded, CoresState::fresh(call.a)),
        4 => stepped(recorded, state.counter, save(state.cores, recorded, call.a)),
        5 => trapped(recorded, trap(policy, state, call)),
        6 => reply(state, recorded, call),
        7 | 0x16 => write_gpr(state, recorded, call),
        _ => pass(read(state, recorded, call), state),
    }
}

fn pass(compared: Record, state: CoresState) -> Taken<CoresState>
    ensures { result ≡ passed compared state }
{
    Taken { compared, state }
}

// The records that leave the cores as they are.
#[tactic(auto, unfolding(crate::specs::Steps::core_read))]
fn read(state: CoresState, recorded: Record, call: Call) -> Record
    ensures { result ≡ core_read state recorded call }
{
    match call.code {
        0xF => core_state(state.cores, recorded, call.a),
        0x10 => recorded.expect(state.counter),
        0x14 => read_gpr(state.cores, recorded, call),
        _ => recorded,
    }
}

// core x0..x30 elr spsr | number
fn save(cores: [Core; 8], recorded: Record, core: u64) -> CoresStep
    ensures { result ≡ save_made cores recorded core }
{
    let fields = recorded.fields;
    let x = records::registers(fields);
    hypervisor::save(cores, core, x, fields[33], fields[34])
}

// What a save or a reply comes to.
fn stepped(recorded: Record, counter: u64, step: CoresStep) -> Taken<CoresState>
    ensures { result ≡ step_taken recorded counter step }
{
    let cores = step.cores;
    Taken {
        compared: recorded.expect(answer_number(step.answer)),
        state: CoresState { cores, counter },
    }
}

// core esr fipa far vbar | number kind v0..v17 hint
fn trap(policy: Policy, state: CoresState, call: Call) -> Trapped
    ensures { result ≡ trap_made policy state call }
{
    let registers = TrapRegisters {
        esr: call.b,
        fipa: Fipa(call.c),
        far: call.d,
        vbar: call.e,
    };
    hypervisor::trap(policy, state.cores, state.counter, call.a, registers)
}

// What a trap comes to.
fn trapped(recorded: Record, step: Trapped) -> Taken<CoresState>
    ensures { result ≡ trap_taken recorded step }
{
    let result = step.result;
    let cores = step.cores;
    Taken {
        compared: recorded
            .expect(answer_number(result.answer))
            .expect(core_answers::trap_kind(result.answer))
            .expect_all(&result.values)
            .expect(result.sve_hint),
        state: CoresState {
            cores,
            counter: step.counter,
        },
    }
}

// core kind v0..v17 error | number
#[tactic(auto, using(crate::proofs::Laws::signed_word))]
fn reply(state: CoresState, recorded: Record, call: Call) -> Taken<CoresState>
    ensures { result ≡ reply_taken state recorded call }
{
    let fields = recorded.fields;
    let Ok(error) = u32::try_from(fields[21]) else {
        return pass(recorded.no_record(), state);
    };
    let reply = HvcReply {
        kind: call.b,
        values: records::values(fields),
        error: error.cast_signed(),
    };
    stepped(
        recorded,
        state.counter,
        hypervisor::reply(state.cores, call.a, reply),
    )
}

// core index value | number
fn write_gpr(state: CoresState, recorded: Record, call: Call) -> Taken<CoresState>
    ensures { result ≡ write_taken state recorded call }
{
    let at = call.a as usize;
    let mut cores = state.cores;
    let Some(core) = cores.get(at) else {
        return pass(recorded.no_record(), state);
    };
    let written = written(*core, call);
    cores[at] = written.core;
    Taken {
        compared: recorded.expect(answer_number(written.answer)),
        state: CoresState { cores, ..state },
    }
}

// The register written, in the form that the record's code asks for.
fn written(core: Core, call: Call) -> GprWritten
    ensures { result ≡ write_gpr core call.b call.c }
{
    let index = call.b as usize;
    match call.code {
        0x16 => exceptions::write_gpr_by_loan(core, index, call.c),
        _ => core.write_gpr(index, call.c),
    }
}

// core index | number value
fn read_gpr(cores: [Core; 8], recorded: Record, call: Call) -> Record
    ensures { result ≡ place_compared 8 cores fresh_core (gpr_words call.b) recorded call.a }
{
    let Some(core) = cores.get(call.a as usize) else {
        return recorded.no_record();
    };
    let read = core.read_gpr(call.b as usize);
    recorded
        .expect(exceptions::read_number(read))
        .expect(exceptions::read_value(read))
}

// core | x0..x30 elr spsr elr_el1 spsr_el1 far_el1 esr_el1
fn core_state(cores: [Core; 8], recorded: Record, at: u64) -> Record
    ensures { result ≡ place_compared 8 cores fresh_core core_words recorded at }
{
    let Some(core) = cores.get(at as usize) else {
        return recorded.no_record();
    };
    let el1 = core.el1;
    recorded.expect_all(&core.x).expect_all(&[
        core.elr, core.spsr, el1.elr, el1.spsr, el1.far, el1.esr,
    ])
}
