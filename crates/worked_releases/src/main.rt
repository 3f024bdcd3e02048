// Worked values of a release, on policies that no builder makes, where its rule shows. A row is the answer's number, both counts then, the
// attribute words of the first three allowed ranges, and the numbers of the first three regions' read handlers.

#![tactic(auto)]

use lists::refusal::answer_number;
use stage2::{Built, Policy};
use stage2_range::{MemoryAccessRegion, Stage2Range};
use std::io;

const PAGE: u64 = 4096;

// How many of each list a row shows.
const SHOWN: usize = 3;

fn row(rt: &impl Print, built: Built) -> io::Result<Policy> {
    let answer = answer_number(built.answer);
    let policy = built.policy;
    let allowed = policy.allowed_count;
    let regions = policy.region_count;
    print!(rt; "{answer} {allowed} {regions}")?;
    for range in &policy.allowed[..SHOWN] {
        let attributes = range.attributes;
        print!(rt; " {attributes}")?;
    }
    for region in &policy.regions[..SHOWN] {
        let read = region.handler.read.number();
        print!(rt; " {read}")?;
    }
    println!(rt)?;
    Ok(policy)
}

// One range twice, with other attributes, and twice a region with its base and size, with other handlers; the first range's end is 0.
fn twice(allowed_count: u64, region_count: u64) -> Policy {
    let mut policy = Policy::new();
    let mut first = Stage2Range::new(PAGE, PAGE, 11);
    first.end_ipa = 0;
    policy.allowed[0] = first;
    policy.allowed[1] = Stage2Range::new(PAGE, PAGE, 12);
    policy.allowed[2] = Stage2Range::new(2 * PAGE, PAGE, 13);
    policy.allowed_count = allowed_count;
    policy.regions[0] = MemoryAccessRegion::new(PAGE, PAGE, 1, 1);
    policy.regions[1] = MemoryAccessRegion::new(PAGE, PAGE, 2, 2);
    policy.regions[2] = MemoryAccessRegion::new(2 * PAGE, PAGE, 0, 0);
    policy.region_count = region_count;
    policy
}

// 1 to 4, whatever is held; then 23: by base with another size, and of what stands past a count.
fn refusals(rt: &impl Print) -> io::Result<()> {
    let policy = twice(2, 2);
    row(rt, policy.release_range(1, 0))?;
    row(rt, policy.release_range(PAGE, 0))?;
    row(rt, policy.release_range(PAGE, 5))?;
    row(rt, policy.release_range(0xFFFF_FFFF_FFFF_F000, PAGE))?;
    row(rt, policy.release_range(PAGE, 2 * PAGE))?;
    row(rt, policy.release_range(2 * PAGE, PAGE))?;
    Ok(())
}

fn main(rt: HostRuntime) -> io::Result<()> {
    refusals(&rt)?;
    // The first of two ranges, the other, then the first of two regions, the other, and then nothing.
    let mut policy = twice(2, 2);
    for _ in 0..5 {
        policy = row(&rt, policy.release_range(PAGE, PAGE))?;
    }
    // Counts of 40 and 20 read as 32 and 16: they become 31 and 15, and the other one stays.
    row(&rt, twice(40, 20).release_range(PAGE, PAGE))?;
    row(&rt, twice(0, 20).release_range(PAGE, PAGE))?;
    // Between two others: those after it move down, and the last of them stands twice.
    row(&rt, twice(3, 3).release_range(PAGE, PAGE))?;
    row(&rt, twice(0, 3).release_range(PAGE, PAGE))?;
    Ok(())
}
