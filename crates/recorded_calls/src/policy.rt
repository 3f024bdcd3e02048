// The records of the policy: 1 to 3 and 15, and its state, 11 to 13.
ghost use Rattle.std.specs.Prelude.{◌≡◌, fold};
ghost use Rattle.stage2_range.specs.Ranges.{range_of, range_words};
ghost use Rattle.stage2_range.specs.Registry.{region_of, region_words};
ghost use Rattle.records.specs.Records.{expected, place_compared};
ghost use Rattle.recorded_calls.specs.Policies.{built_taken, search_words, policy_read, policy_taken};

use lists::refusal::answer_number;
use memory_access::Ipa;
use records::{Call, Record, Taken};
use stage2::{Built, Policy};
use stage2_range::MemoryAccessHandlerMatch;

// Makes the record's call; a record of something else passes as it is.
#[tactic(auto, unfolding(crate::specs::Policies::policy_taken))]
pub fn take(policy: Policy, recorded: Record, call: Call) -> Taken<Policy>
    ensures { result ≡ policy_taken policy recorded call }
{
    match call.code {
        0 => Taken {
            compared: recorded,
            state: Policy::new(),
        },
        1 => built(recorded, policy.allow_range(call.a, call.b, call.c)),
        2 => built(
            recorded,
            policy.handle_range(call.a, call.b, call.c, call.d),
        ),
        _ => Taken {
            compared: read(policy, recorded, call),
            state: policy,
        },
    }
}

// base size attributes | number
// base size read write | number
fn built(recorded: Record, built: Built) -> Taken<Policy>
    ensures { result ≡ built_taken recorded built }
{
    Taken {
        compared: recorded.expect(answer_number(built.answer)),
        state: built.policy,
    }
}

// The records that leave the policy as it is. The lent form of a search sees all places: those past the count are fresh, and hold no
// address.
#[tactic(auto, unfolding(crate::specs::Policies::policy_read))]
fn read(policy: Policy, recorded: Record, call: Call) -> Record
    ensures { result ≡ policy_read policy recorded call.code call.a }
{
    let ipa = Ipa(call.a);
    match call.code {
        3 => found(recorded, policy.find(ipa)),
        0x11 => allowed_at(recorded, policy, call.a),
        0x12 => region_at(recorded, policy, call.a),
        0x13 => recorded
            .expect(policy.allowed_count)
            .expect(policy.region_count),
        0x15 => found(recorded, stage2::find_in_array(policy.regions, ipa)),
        _ => recorded,
    }
}

// ipa | found base offset
fn found(recorded: Record, found: Option<MemoryAccessHandlerMatch>) -> Record
    ensures { result ≡ fold expected recorded (search_words found) }
{
    match found {
        Some(m) => recorded.expect_all(&[1, m.region.base_ipa, m.offset]),
        None => recorded.expect_all(&[0, 0, 0]),
    }
}

// place | base size end attributes
// (`region_at` is the same for another type, with more words: one function for both would take a closure, and its contract would speak of
// what the closure does in place of the words.)
fn allowed_at(recorded: Record, policy: Policy, place: u64) -> Record
    ensures { result ≡ place_compared 32 policy.allowed (range_of 0 0 0) range_words recorded place }
{
    match policy.allowed.get(place as usize) {
        Some(range) => recorded.expect_all(&range.words()),
        None => recorded.no_record(),
    }
}

// place | base size end read write
fn region_at(recorded: Record, policy: Policy, place: u64) -> Record
    ensures { result ≡ place_compared 16 policy.regions (region_of 0 0 0 0) region_words recorded place }
{
    match policy.regions.get(place as usize) {
        Some(region) => recorded.expect_all(&region.words()),
        None => recorded.no_record(),
    }
}
