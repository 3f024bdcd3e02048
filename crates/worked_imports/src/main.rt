// Worked values of an import, of the blob on standard input, which dtc made of tests/devicetree/board.dts: the answer's number, how many
// ranges are then allowed, and the first three of them, each with its base, size, end and attribute word. `fdt_tree` computes the same
// pairs from the devicetree's definitions.

#![tactic(auto)]

use lists::refusal::answer_number;
use memory_import::import_memory;
use stage2::{Built, Policy};
use stage2_range::Stage2Range;
use std::io;
use std::io::Read;

// What is read of the input, with zeros after a shorter one.
const BLOB_LENGTH: usize = 1024;

// How many of the allowed ranges are shown.
const SHOWN: usize = 3;

fn row(rt: &impl Print, range: Stage2Range) -> io::Result<()> {
    let Stage2Range {
        base_ipa,
        size,
        end_ipa,
        attributes,
    } = range;
    println!(rt; "{base_ipa} {size} {end_ipa} {attributes}")
}

fn rows(rt: &impl Print, built: Built) -> io::Result<()> {
    let answer = answer_number(built.answer);
    let policy = built.policy;
    let allowed = policy.allowed_count;
    println!(rt; "{answer} {allowed}")?;
    for range in &policy.allowed[..SHOWN] {
        row(rt, *range)?;
    }
    Ok(())
}

fn main(rt: HostRuntime) -> io::Result<()> {
    let mut blob = Vec::with_capacity(rt.alloc(), BLOB_LENGTH)?;
    rt.reader().take(BLOB_LENGTH as u64).read_to_end(&mut blob)?;
    blob.resize(BLOB_LENGTH, 0)?;
    let built = import_memory(Policy::new(), &blob, 2045);
    let policy = built.policy;
    rows(&rt, built)?;
    // A second time the first pair shares its bytes with a range: 6, and the ranges as they were.
    rows(&rt, import_memory(policy, &blob, 1))?;
    // The root's #address-cells: 3 is 22, and a count that is 3 bytes long, with a byte of padding, 21.
    blob[95] = 3;
    rows(&rt, import_memory(policy, &blob, 1))?;
    blob[95] = 0;
    blob[87] = 3;
    rows(&rt, import_memory(policy, &blob, 1))
}
