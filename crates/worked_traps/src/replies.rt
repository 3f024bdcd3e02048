// Replies to a call of core 0, whose x0 to x30 held one value, ELR 0x1000 and SPSR 5; and calls on cores that there are not.
use super::print::{columns, row};
use super::traps::{ESR_HVC, ESR_SMC, saved_cores, trap_at};
use forwarded_call::HvcReply;
use hypervisor::CoresStep;
use lists::refusal::answer_number;
use stage2::Policy;
use std::io;

// A reply of this kind, its values all 7 and its error -3.
fn reply_of(kind: u64) -> HvcReply {
    HvcReply {
        kind,
        values: [7u64; 18],
        error: -3,
    }
}

// The answer, and core 0 then: x0 to x4 and its ELR.
fn found(step: CoresStep) -> [u64; 7] {
    let core = step.cores[0];
    let [x0, x1, x2, x3, x4, ..] = core.x;
    [answer_number(step.answer), x0, x1, x2, x3, x4, core.elr]
}

fn reply(rt: &impl Print, esr: u64, x: u64, kind: u64) -> io::Result<()> {
    let called = hypervisor::trap(Policy::new(), saved_cores(x), 0, 0, trap_at(esr, 0, 0));
    let replied = hypervisor::reply(called.cores, 0, reply_of(kind));
    row(rt, &[esr, x, kind], &found(replied))
}

fn reply_unasked(rt: &impl Print, core: u64) -> io::Result<()> {
    let replied = hypervisor::reply(saved_cores(5), core, reply_of(1));
    row(rt, &[core], &found(replied))
}

fn save(rt: &impl Print, core: u64) -> io::Result<()> {
    let saved = hypervisor::save(saved_cores(5), core, [9u64; 31], 0x2000, 5);
    row(rt, &[core], &found(saved))
}

pub(crate) fn rows(rt: &impl Print) -> io::Result<()> {
    columns(rt, "reply: ESR x0..x30 kind | answer x0 x1 x2 x3 x4 ELR")?;
    // Bench: one value, from the firmware.
    reply(rt, ESR_SMC, 0xC400_0003, 1)?;
    // The firmware gives no four values, also where x0 has an upper half; the platform does; its error, after an SMC and after an HVC; no
    // kind 5.
    reply(rt, ESR_SMC, 0x8400_0000, 2)?;
    reply(rt, ESR_SMC, 0x1_8400_0000, 2)?;
    reply(rt, ESR_SMC, 0, 2)?;
    reply(rt, ESR_SMC, 0, 4)?;
    reply(rt, ESR_HVC, 0, 4)?;
    reply(rt, ESR_HVC, 0, 5)?;
    columns(
        rt,
        "reply to a core that waits for none: core | answer x0 x1 x2 x3 x4 ELR",
    )?;
    reply_unasked(rt, 0)?;
    reply_unasked(rt, 8)?;
    columns(rt, "save: core | answer x0 x1 x2 x3 x4 ELR")?;
    save(rt, 0)?;
    save(rt, 8)
}
