// The builder, and the search of its regions, by value and by loan.
use super::print::{columns, row};
use lists::refusal::answer_number;
use memory_access::Ipa;
use stage2::Policy;
use stage2_range::MemoryAccessHandlerMatch;
use std::io;

const PAGE: u64 = 0x1000;

// A policy that allows so many pages from address 0 on, and handles so many from 0x0F000000 on.
fn policy_with(allowed: u8, handled: u8) -> Policy {
    let mut policy = Policy::new();
    for page in 0..allowed {
        let built = policy.allow_range(page as u64 * PAGE, PAGE, 0);
        policy = built.policy;
    }
    with_handled(policy, handled)
}

fn with_handled(before: Policy, handled: u8) -> Policy {
    let mut policy = before;
    for page in 0..handled {
        let built = policy.handle_range(0x0F00_0000 + page as u64 * PAGE, PAGE, 1, 1);
        policy = built.policy;
    }
    policy
}

fn allow(rt: &impl Print, allowed: u8, handled: u8, base: u64) -> io::Result<()> {
    let answer = policy_with(allowed, handled)
        .allow_range(base, PAGE, 0)
        .answer;
    let given = [allowed.into(), handled.into(), base];
    row(rt, &given, &[answer_number(answer)])
}

fn handle(rt: &impl Print, allowed: u8, handled: u8, base: u64, write: u64) -> io::Result<()> {
    let answer = policy_with(allowed, handled)
        .handle_range(base, PAGE, 1, write)
        .answer;
    let given = [allowed.into(), handled.into(), base, write];
    row(rt, &given, &[answer_number(answer)])
}

// Whether a region has the address, and the offset in it: two columns of a row.
fn found(region: Option<MemoryAccessHandlerMatch>) -> (u64, u64) {
    region.map_or((0, 0), |found| (1, found.offset))
}

// By value, and over the lent regions.
fn find(rt: &impl Print, handled: u8, ipa: u64) -> io::Result<()> {
    let policy = policy_with(0, handled);
    let (flag, offset) = found(policy.find(Ipa(ipa)));
    let (lent_flag, lent_offset) = found(stage2::find_in_array(policy.regions, Ipa(ipa)));
    let found = [flag, offset, lent_flag, lent_offset];
    row(rt, &[handled.into(), ipa], &found)
}

pub(crate) fn rows(rt: &impl Print) -> io::Result<()> {
    columns(rt, "allow: allowed handled base | answer")?;
    // Bench: 32 allowed, an overlapping one; the next page, and the same page again.
    allow(rt, 32, 0, 0)?;
    allow(rt, 2, 0, 0x2000)?;
    allow(rt, 2, 0, 0x1000)?;
    allow(rt, 0, 1, 0x0F00_0000)?;
    columns(rt, "handle: allowed handled base write | answer")?;
    // Bench: 16 regions, over an allowed range and over a region only.
    handle(rt, 1, 16, 0, 1)?;
    handle(rt, 1, 16, 0x0F00_0000, 1)?;
    handle(rt, 0, 0, 0x1000, 2)?;
    handle(rt, 0, 0, 0x1000, 3)?;
    columns(rt, "find: handled IPA | found offset, lent: found offset")?;
    // Bench: the last byte of a region, and the first past it.
    find(rt, 1, 0x0F00_0FFF)?;
    find(rt, 1, 0x0F00_1000)?;
    find(rt, 2, 0x0F00_1018)
}
