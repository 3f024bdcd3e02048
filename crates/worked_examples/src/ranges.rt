// Ranges, rounding to pages, and the registry of regions.
use super::print::{columns, row};
use lists::refusal::answer_number;
use stage2_range::{MemoryAccessRegion, Registered};
use std::io;

fn validate(rt: &impl Print, base: u64, size: u64) -> io::Result<()> {
    let answer = stage2_range::validate_range(base, size);
    row(rt, &[base, size], &[answer_number(answer)])
}

fn align(rt: &impl Print, address: u64) -> io::Result<()> {
    let down = stage2_range::align_down_to_page(address);
    let up = stage2_range::align_up_to_page(address);
    row(
        rt,
        &[address],
        &[
            down,
            stage2_range::aligned_number(up),
            stage2_range::aligned_value(up),
        ],
    )
}

// A page whose loads are handled.
fn page(base_ipa: u64) -> MemoryAccessRegion {
    MemoryAccessRegion::new(base_ipa, 0x1000, 1, 0)
}

// A page registered after two, the later of which came first.
fn third(base: u64) -> Registered {
    let high = page(0x3000);
    let one = stage2_range::register([high; 16], 0, high);
    let regions = one.regions;
    let two = stage2_range::register(regions, one.region_count, page(0x1000));
    let regions = two.regions;
    stage2_range::register(regions, two.region_count, page(base))
}

fn register(rt: &impl Print, base: u64) -> io::Result<()> {
    let registered = third(base);
    let answer = answer_number(registered.answer);
    let first = registered.regions[0];
    let found = [answer, first.base_ipa, registered.region_count];
    row(rt, &[base], &found)
}

pub(crate) fn rows(rt: &impl Print) -> io::Result<()> {
    columns(rt, "range: base size | answer")?;
    // Bench: base 1, size 0; the last range that fits, and the first that does not.
    validate(rt, 1, 0)?;
    validate(rt, 0xFFFF_FFFF_FFFF_E000, 0x1000)?;
    validate(rt, 0xFFFF_FFFF_FFFF_F000, 0x1000)?;
    validate(rt, 0x1000, 0x1800)?;
    columns(rt, "align: address | down answer up")?;
    align(rt, 0x1001)?;
    align(rt, 0xFFFF_FFFF_FFFF_F001)?;
    columns(rt, "third region: base | answer first_base held")?;
    register(rt, 0)?;
    register(rt, 0x1000)
}
