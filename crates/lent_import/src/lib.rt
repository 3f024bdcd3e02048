// Memory read from a board's devicetree into a policy in the bytes that a host lends.
// (A call answers the number of its refusal, and no `Result`: `ritm` hands the number to C. Which refusal an error of the reader's is stands in a
// match here and in `memory_import`: a `From` of two other crates' types may not stand here.)

#![tactic(auto)]

ghost use Rattle.std.specs.Prelude.{◌≡◌, []};
ghost use Rattle.fdt.specs.Blob.{pairs_left};
ghost use Rattle.lent_words.specs.Words.{Leaves};
ghost use Rattle.memory_import.specs.Import.{allow_calls};
ghost use Rattle.lent_import.specs.Calls.{calls_number, calls_bytes, calls_leave, import_call};

use fdt::Cursor;
use fdt_nodes::DevicetreeError;
use lent_policy::POLICY_SIZE;
use lists::refusal::Refusal;
use stage2_range::Stage2ConfigError;

// The calls of all pairs from a place on, one by one, up to the first that is refused.
#[tactic(auto, using(crate::proofs::Laws::none_left, fdt::proofs::Laws::left_less))]
fn allow_pairs(policy: &mut [u8; POLICY_SIZE], blob: &[u8], first: Cursor, attributes: u64) -> u64
    ensures { (result ≡ calls_number policy.old (allow_calls attributes (pairs_left blob.now first)))
        × (result ≡ 0 → policy.new ≡ calls_bytes policy.old (allow_calls attributes (pairs_left blob.now first))) }
{
    lent_words::are_bytes(policy);
    let mut cursor = first;
    while let Some(pair) = fdt::next_pair(blob, cursor) {
        let number = lent_policy::allow_range(policy, pair.base, pair.size, attributes);
        if number != 0 {
            return number;
        }
        cursor = pair.after;
    }
    0
}

// The calls of all pairs, or none: they are made on a copy, so that a refusal has changed no byte, and none of a free place.
#[tactic(auto, using(crate::proofs::Laws::all_refused, crate::proofs::Laws::all_allowed))]
fn allow_all(policy: &mut [u8; POLICY_SIZE], blob: &[u8], first: Cursor, attributes: u64) -> u64
    ensures { Leaves (calls_leave policy.old (allow_calls attributes (pairs_left blob.now first))) result policy.new [] }
{
    let mut copy = *policy;
    let number = allow_pairs(&mut copy, blob, first, attributes);
    if number == 0 {
        *policy = copy;
    }
    number
}

// Allows the memory that the blob at the front of a slice describes: refusals 21, 22, then 1 to 7 of the first pair that is refused.
#[tactic(auto, using(crate::proofs::Laws::invalid_leaves, crate::proofs::Laws::unsupported_leaves, crate::proofs::Laws::pairs_leave))]
pub fn import_memory(policy: &mut [u8; POLICY_SIZE], blob: &[u8], attributes: u64) -> u64
    ensures { Leaves (import_call policy.old blob.now attributes) result policy.new [] }
{
    match fdt::read_memory(blob) {
        Err(DevicetreeError::Invalid) => Stage2ConfigError::InvalidDevicetree.number(),
        Err(DevicetreeError::UnsupportedCellCounts) =>
            Stage2ConfigError::UnsupportedCellCounts.number(),
        Ok(cursor) => allow_all(policy, blob, cursor, attributes),
    }
}
