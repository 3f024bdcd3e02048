// Memory read from a board's flattened devicetree: every pair of its memory nodes is allowed, or the policy is as before.

#![tactic(auto)]

ghost use Rattle.std.specs.Prelude.{◌≡◌};
ghost use Rattle.fdt.specs.Blob.{pairs_left};
ghost use Rattle.stage2.specs.Policy.{built_by};
ghost use Rattle.stage2.specs.Builds.{build_all};
ghost use Rattle.memory_import.specs.Import.{allow_calls, answer_of_all, import_memory};

use fdt::Cursor;
use fdt_nodes::DevicetreeError;
use stage2::{Built, Policy};
use stage2_range::Stage2ConfigError;

// The calls of all pairs from a place on, one by one; where one is refused, its answer and the policy given.
#[tactic(auto, using(crate::proofs::Laws::pairs_none, crate::proofs::Laws::pair_refused, crate::proofs::Laws::pair_allowed, fdt::proofs::Laws::left_less))]
fn allow_pairs(policy: Policy, blob: &[u8], first: Cursor, attributes: u64) -> Built
    ensures { result ≡ built_by (answer_of_all policy (allow_calls attributes (pairs_left blob.now first))) policy (build_all policy (allow_calls attributes (pairs_left blob.now first))) }
{
    let mut cursor = first;
    let mut next = policy;
    while let Some(pair) = fdt::next_pair(blob, cursor) {
        let built = next.allow_range(pair.base, pair.size, attributes);
        let answer = built.answer;
        match answer {
            Err(error) => {
                return Built {
                    answer: Err(error),
                    policy,
                };
            }
            Ok(()) => next = built.policy,
        }
        cursor = pair.after;
    }
    Built {
        answer: Ok(()),
        policy: next,
    }
}

// Allows the memory that the blob at the front of a slice describes, with one attribute word: refusals 21, 22, then 1 to 7 of the first
// pair that is refused.
#[tactic(auto, using(crate::proofs::Laws::import_invalid, crate::proofs::Laws::import_unsupported, crate::proofs::Laws::import_pairs))]
pub fn import_memory(policy: Policy, blob: &[u8], attributes: u64) -> Built
    ensures { result ≡ import_memory policy blob.now attributes }
{
    match fdt::read_memory(blob) {
        Err(DevicetreeError::Invalid) => Built {
            answer: Err(Stage2ConfigError::InvalidDevicetree),
            policy,
        },
        Err(DevicetreeError::UnsupportedCellCounts) => Built {
            answer: Err(Stage2ConfigError::UnsupportedCellCounts),
            policy,
        },
        Ok(cursor) => allow_pairs(policy, blob, cursor, attributes),
    }
}
