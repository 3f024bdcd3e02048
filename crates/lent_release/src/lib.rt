// Release of a range on a policy in lent bytes. (RITM has no such call.)
// (A call answers the number of its refusal, and no `Result`: `ritm` hands the number to C.)

#![tactic(auto)]

ghost use Rattle.std.specs.Prelude.{ℕ, ◌≡◌, [], ◌+◌, ◌-◌, ◌*◌, ◌≤◌, ◌<◌};
ghost use Rattle.lists.specs.Lists.{remove_at};
ghost use Rattle.lent_words.specs.Words.{each, Leaves};
ghost use Rattle.lent_policy.specs.Layout.{region_count_at, range_at, region_at, with_range, with_allowed, with_regions};
ghost use Rattle.lent_release.specs.Calls.{is_stored, stored_place, release_call, valid_release_call};

use lent_policy::{
    ALLOWED_COUNT, ATTRIBUTES_WORD, END_WORD, POLICY_SIZE, RANGE_WORDS, REGION_COUNT, REGION_WORDS,
    REGIONS, SIZE_WORD,
};
use lists::refusal::Refusal;
use stage2_range::Stage2ConfigError;

// The word at which the allowed ranges begin: they stand first.
const RANGES: usize = 0;

// Whether the record whose words begin at one has this base and size.
fn is_stored(policy: &[u8; POLICY_SIZE], at: usize, base_ipa: u64, size: u64) -> bool
    requires { at < region_count_at }
    ensures { result ≡ is_stored policy.now at base_ipa size }
{
    let stored_base = lent_words::get_word(policy, at);
    let stored_size = lent_words::get_word(policy, at + SIZE_WORD);
    (stored_base == base_ipa) & (stored_size == size)
}

// The place of the first record with this base and size, of those held in a list of records of `WORDS` words each, from word `FIRST` on.
// (Constants: with a first word and a stride as arguments a search takes a quarter more instructions.)
fn stored_place<const FIRST: usize, const WORDS: usize>(
    policy: &[u8; POLICY_SIZE],
    held: u64,
    base_ipa: u64,
    size: u64,
) -> Option<u64>
    requires { (k : ℕ) → k < held → FIRST + WORDS * k < region_count_at }
    ensures { result ≡ stored_place policy.now FIRST WORDS held base_ipa size }
{
    for place in 0..held {
        let at = FIRST + WORDS * (place as usize);
        if is_stored(policy, at, base_ipa, size) {
            return Some(place);
        }
    }
    None
}

// Stores an allowed range one place sooner too.
#[tactic(auto, unfolding(lent_policy::specs::Layout::range_at, lent_policy::specs::Layout::with_range))]
fn copy_range_down(policy: &mut [u8; POLICY_SIZE], place: usize)
    requires { place < 31 }
    ensures { policy.new ≡ with_range policy.old place (range_at policy.old (place + 1)) }
{
    let to = RANGE_WORDS * place;
    let from = to + RANGE_WORDS;
    let base_ipa = lent_words::get_word(policy, from);
    let size = lent_words::get_word(policy, from + SIZE_WORD);
    let end_ipa = lent_words::get_word(policy, from + END_WORD);
    let attributes = lent_words::get_word(policy, from + ATTRIBUTES_WORD);
    lent_words::put_word(policy, to, base_ipa);
    lent_words::put_word(policy, to + SIZE_WORD, size);
    lent_words::put_word(policy, to + END_WORD, end_ipa);
    lent_words::put_word(policy, to + ATTRIBUTES_WORD, attributes);
}

// Stores the first `n` allowed ranges without the one at a place, those after it one place sooner, and counts them. (A loop apart from the
// regions' one: a range is copied word for word, a region by `with_region`, where a code that means the handler stays. One loop that is
// given its copy needs a clause on the calls that it makes, which is longer than the loop.)
fn remove_range(policy: &mut [u8; POLICY_SIZE], n: u64, at: u64)
    requires { (at < n) × (n ≤ 32) }
    ensures { policy.new ≡ with_allowed policy.old (remove_at (each (range_at policy.old) 0 32) n at) (n - 1) }
{
    lent_words::are_bytes(policy);
    let last = n - 1;
    for place in at..last {
        copy_range_down(policy, place as usize);
    }
    lent_words::put_word(policy, ALLOWED_COUNT, last);
}

// The same of the regions.
fn remove_region(policy: &mut [u8; POLICY_SIZE], n: u64, at: u64)
    requires { (at < n) × (n ≤ 16) }
    ensures { policy.new ≡ with_regions policy.old (remove_at (each (region_at policy.old) 0 16) n at) (n - 1) }
{
    lent_words::are_bytes(policy);
    let last = n - 1;
    for place in at..last {
        lent_policy::copy_region_to(policy, place + 1, place);
    }
    lent_words::put_word(policy, REGION_COUNT, last);
}

// Refusal 23; else one record goes, of the allowed ranges before the regions.
fn release_valid(policy: &mut [u8; POLICY_SIZE], base_ipa: u64, size: u64) -> u64
    ensures { Leaves (valid_release_call policy.old base_ipa size) result policy.new [] }
{
    let ranges = lent_policy::allowed_held(policy);
    if let Some(at) = stored_place::<RANGES, RANGE_WORDS>(policy, ranges, base_ipa, size) {
        remove_range(policy, ranges, at);
        return 0;
    }
    let regions = lent_policy::regions_held(policy);
    if let Some(at) = stored_place::<REGIONS, REGION_WORDS>(policy, regions, base_ipa, size) {
        remove_region(policy, regions, at);
        return 0;
    }
    Stage2ConfigError::RangeNotHeld.number()
}

// Releases the first allowed range with this base and size, or else the first such region: refusals 1 to 4 and 23, in order. The records
// that move and the count of their list are stored, and no other word.
pub fn release_range(policy: &mut [u8; POLICY_SIZE], base_ipa: u64, size: u64) -> u64
    ensures { Leaves (release_call policy.old base_ipa size) result policy.new [] }
{
    match stage2_range::validate_range(base_ipa, size) {
        Err(error) => error.number(),
        Ok(()) => release_valid(policy, base_ipa, size),
    }
}
