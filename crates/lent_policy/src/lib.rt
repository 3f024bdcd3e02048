// Where the bytes that a host lends hold the policy: little-endian 64-bit words at fixed places. Any bytes are a policy.
// (A call answers the number of its refusal, and no `Result`: `ritm` hands the number to C. `place < 16` and `at < region_count_at` stand in each
// private contract: of a type for a place each clause would say `place.number`, and each caller would build one for one call.)

#![tactic(auto)]

ghost use Rattle.std.specs.Prelude.{◌≡◌, position, [], ◌+◌, ◌*◌, ◌≤◌, ◌<◌, min, leb, set};
ghost use Rattle.lists.specs.Lists.{first_index, insert_at};
ghost use Rattle.lent_words.specs.Words.{word_at, each, store_each, Leaves};
ghost use Rattle.stage2_range.specs.Ranges.{answer_of, has_byte, shares_byte, range_bytes, overlaps};
ghost use Rattle.stage2_range.specs.Handlers.{handler_of};
ghost use Rattle.stage2_range.specs.Registry.{region_bytes, has_address, find_region, insert_region};
ghost use Rattle.stage2.specs.Policy.{allowed_held, regions_held, allow_cases, allow_answer, handle_cases, handle_answer};
ghost use Rattle.lent_policy.specs.Layout.{allowed_count_at, region_count_at, bytes_at, range_at, region_at, kept_handler, policy_at, with_range, with_region, with_copy, with_allowed, with_regions};
ghost use Rattle.lent_policy.specs.Calls.{allow_call, handle_call, find_call};

use lent_words::THREE_WORDS;
use lists::refusal::Refusal;
use memory_access::Ipa;
use stage2_range::{
    FAULT_HANDLER, MAX_ALLOWED_RANGES, MAX_MEMORY_ACCESS_HANDLERS, MemoryAccessHandler,
    MemoryAccessHandlerMatch, MemoryAccessRegion, MemoryHandler, PageRange, PolicyRecord,
    Stage2ConfigError, Stage2Range,
};

// The words of the policy's buffer: the allowed ranges, from the first on, and how many there are; the regions, and how many there are.
pub const RANGE_WORDS: usize = 4;

// The words of a range and of a region: the base, then these two, then a range's attributes, or the codes of a region's handlers.
pub const SIZE_WORD: usize = 1;

pub const END_WORD: usize = 2;

pub const ATTRIBUTES_WORD: usize = 3;

const READ_WORD: usize = 3;

const WRITE_WORD: usize = 4;

pub const ALLOWED_COUNT: usize = 32 * RANGE_WORDS;

pub const REGIONS: usize = ALLOWED_COUNT + 1;

pub const REGION_WORDS: usize = 5;

pub const REGION_COUNT: usize = REGIONS + 16 * REGION_WORDS;

// The length of the policy's buffer, in bytes.
pub const POLICY_SIZE: usize = 8 * (REGION_COUNT + 1);

// Stores an allowed range.
#[tactic(auto, unfolding(crate::specs::Layout::with_range))]
fn put_range(policy: &mut [u8; POLICY_SIZE], place: usize, range: Stage2Range)
    requires { place < 32 }
    ensures { policy.new ≡ with_range policy.old place range }
{
    let at = RANGE_WORDS * place;
    lent_words::put_word(policy, at, range.base_ipa);
    lent_words::put_word(policy, at + SIZE_WORD, range.size);
    lent_words::put_word(policy, at + END_WORD, range.end_ipa);
    lent_words::put_word(policy, at + ATTRIBUTES_WORD, range.attributes);
}

// The bytes of the range or the region whose words begin at one: of the others none is read.
fn get_bytes(policy: &[u8; POLICY_SIZE], at: usize) -> PageRange
    requires { at < region_count_at }
    ensures { result ≡ bytes_at policy.now at }
{
    let base_ipa = lent_words::get_word(policy, at);
    let end_ipa = lent_words::get_word(policy, at + END_WORD);
    PageRange { base_ipa, end_ipa }
}

// A region.
#[tactic(auto, unfolding(crate::specs::Layout::region_at))]
fn get_region(policy: &[u8; POLICY_SIZE], place: usize) -> MemoryAccessRegion
    requires { place < 16 }
    ensures { result ≡ region_at policy.now place }
{
    let at = REGIONS + REGION_WORDS * place;
    let handler = MemoryAccessHandler {
        read: MemoryHandler::from_number(lent_words::get_word(policy, at + READ_WORD)),
        write: MemoryHandler::from_number(lent_words::get_word(policy, at + WRITE_WORD)),
    };
    MemoryAccessRegion {
        base_ipa: lent_words::get_word(policy, at),
        size: lent_words::get_word(policy, at + SIZE_WORD),
        handler,
        end_ipa: lent_words::get_word(policy, at + END_WORD),
    }
}

// The word to store for the handler that a number names: the one that stands there stays if it means the handler. Only the fault
// has more than one word that means it.
fn kept_handler(policy: &[u8; POLICY_SIZE], at: usize, number: u64) -> u64
    ensures { result ≡ kept_handler (word_at policy.now at) (handler_of number) }
{
    let word = lent_words::get_word(policy, at);
    if number < FAULT_HANDLER {
        return number;
    }
    if word < FAULT_HANDLER {
        FAULT_HANDLER
    } else {
        word
    }
}

// Stores a region by its numbers, those of its handlers last.
#[tactic(auto, unfolding(crate::specs::Layout::with_region))]
fn put_region_words(
    policy: &mut [u8; POLICY_SIZE],
    place: usize,
    base_ipa: u64,
    size: u64,
    end_ipa: u64,
    read: u64,
    write: u64,
)
    requires { place < 16 }
    ensures { policy.new ≡ with_region policy.old place (record { base_ipa = base_ipa; size = size; handler = record { read = handler_of read; write = handler_of write }; end_ipa = end_ipa }) }
{
    // no place is as large: by this test the compiler sees that the words lie within, here and in `copy_region_to`
    if MAX_MEMORY_ACCESS_HANDLERS <= place as u64 {
        return;
    }
    let at = REGIONS + REGION_WORDS * place;
    let read_code = kept_handler(policy, at + READ_WORD, read);
    let write_code = kept_handler(policy, at + WRITE_WORD, write);
    lent_words::put_word(policy, at, base_ipa);
    lent_words::put_word(policy, at + SIZE_WORD, size);
    lent_words::put_word(policy, at + END_WORD, end_ipa);
    lent_words::put_word(policy, at + READ_WORD, read_code);
    lent_words::put_word(policy, at + WRITE_WORD, write_code);
}

// Stores a region.
fn put_region(policy: &mut [u8; POLICY_SIZE], place: usize, region: MemoryAccessRegion)
    requires { place < 16 }
    ensures { policy.new ≡ with_region policy.old place region }
{
    let handler = region.handler;
    let read = handler.read;
    let write = handler.write;
    put_region_words(
        policy,
        place,
        region.base_ipa,
        region.size,
        region.end_ipa,
        read.number(),
        write.number(),
    );
}

// Stores a region at another place too; where one of the places is none, nothing. (By its words: to make a handler of each code and a
// number of that again took a quarter more instructions.)
#[tactic(auto, using(crate::proofs::InPlace::copied, crate::proofs::InPlace::no_from, crate::proofs::InPlace::no_to), unfolding(crate::specs::Layout::region_at))]
pub fn copy_region_to(policy: &mut [u8; POLICY_SIZE], from: u64, to: u64)
    ensures { policy.new ≡ with_copy policy.old from to }
{
    if MAX_MEMORY_ACCESS_HANDLERS <= from {
        return;
    }
    if MAX_MEMORY_ACCESS_HANDLERS <= to {
        return;
    }
    let start = REGIONS + REGION_WORDS * (from as usize);
    let base_ipa = lent_words::get_word(policy, start);
    let size = lent_words::get_word(policy, start + SIZE_WORD);
    let end_ipa = lent_words::get_word(policy, start + END_WORD);
    let read = lent_words::get_word(policy, start + READ_WORD);
    let write = lent_words::get_word(policy, start + WRITE_WORD);
    put_region_words(policy, to as usize, base_ipa, size, end_ipa, read, write);
}

// How many ranges there are, as the bytes say.
fn get_allowed_count(policy: &[u8; POLICY_SIZE]) -> u64
    ensures { result ≡ word_at policy.now allowed_count_at }
{
    lent_words::get_word(policy, ALLOWED_COUNT)
}

// How many of them are held.
pub fn allowed_held(policy: &[u8; POLICY_SIZE]) -> u64
    ensures { result ≡ min (word_at policy.now allowed_count_at) 32 }
{
    lists::held_count(get_allowed_count(policy), MAX_ALLOWED_RANGES)
}

// How many regions there are, as the bytes say.
fn get_region_count(policy: &[u8; POLICY_SIZE]) -> u64
    ensures { result ≡ word_at policy.now region_count_at }
{
    lent_words::get_word(policy, REGION_COUNT)
}

// How many of them are held.
pub fn regions_held(policy: &[u8; POLICY_SIZE]) -> u64
    ensures { result ≡ min (word_at policy.now region_count_at) 16 }
{
    lists::held_count(get_region_count(policy), MAX_MEMORY_ACCESS_HANDLERS)
}

// Whether the record has the address.
fn has_byte(policy: &[u8; POLICY_SIZE], at: usize, ipa: u64) -> bool
    requires { at < region_count_at }
    ensures { result ≡ has_byte (bytes_at policy.now at) ipa }
{
    get_bytes(policy, at).has_byte(ipa)
}

// Whether the record shares a byte with the given bytes.
fn shares_byte(policy: &[u8; POLICY_SIZE], at: usize, bytes: PageRange) -> bool
    requires { at < region_count_at }
    ensures { result ≡ shares_byte (bytes_at policy.now at) bytes }
{
    stage2_range::page_ranges_overlap(get_bytes(policy, at), bytes)
}

// The place of the first region held that has the address, and how many are held where none does. (A counted loop, and no option: of a `for`,
// or of an option, the compiler makes a search with an instruction more for each region, and a trap with 16 regions then takes more than 1.5
// times the instructions of RITM built with LTO. `place_by_base` is the same search with another test: of a closure over lent bytes the clause
// would be longer than the loop.)
fn find_place(policy: &[u8; POLICY_SIZE], ipa: u64) -> u64
    ensures { result ≡ first_index (has_address ipa) (regions_held (policy_at policy.now)) }
{
    let held = regions_held(policy);
    let mut place: u64 = 0;
    while place < held {
        if has_byte(policy, REGIONS + REGION_WORDS * (place as usize), ipa) {
            return place;
        }
        place += 1;
    }
    place
}

// The base of a region.
fn get_region_base(policy: &[u8; POLICY_SIZE], place: u64) -> u64
    requires { place < 16 }
    ensures { result ≡ (region_at policy.now place).base_ipa }
{
    lent_words::get_word(policy, REGIONS + REGION_WORDS * (place as usize))
}

// The first region held that has the address, and the offset in it. No other region is read whole.
pub fn find_region(policy: &[u8; POLICY_SIZE], ipa: Ipa) -> Option<MemoryAccessHandlerMatch>
    ensures { result ≡ find_region (regions_held (policy_at policy.now)) ipa }
{
    let address = ipa.0;
    let place = find_place(policy, address);
    if regions_held(policy) <= place {
        return None;
    }
    let region = get_region(policy, place as usize);
    Some(MemoryAccessHandlerMatch {
        region,
        offset: address - region.base_ipa,
    })
}

// The first region held that has the address: whether there is one, its place and the offset in it.
pub fn find(policy: &[u8; POLICY_SIZE], ipa: u64, res: &mut [u8; THREE_WORDS]) -> u64
    ensures { Leaves (find_call policy.now ipa) result policy.now res.new }
{
    let place = find_place(policy, ipa);
    if place < regions_held(policy) {
        lent_words::put_three(res, 1, place, ipa - get_region_base(policy, place));
    } else {
        lent_words::put_three(res, 0, 0, 0);
    }
    0
}

// Some record that is held shares a byte with the given bytes: of the records of `WORDS` words each, from word `FIRST` on, at most `LIMIT`,
// with their count after them. (Constants, and the count read here: docs/DECISIONS.md, "One loop over both lists".)
fn overlaps<const FIRST: usize, const WORDS: usize, const LIMIT: u64>(
    policy: &[u8; POLICY_SIZE],
    bytes: PageRange,
) -> bool
    requires { (0 < WORDS) × (FIRST + WORDS * LIMIT ≤ region_count_at) }
    ensures { result ≡ overlaps (bytes_at policy.now) (each (λ k. FIRST + WORDS * k) 0 (min (word_at policy.now (FIRST + WORDS * LIMIT)) LIMIT)) bytes }
{
    let held = lists::held_count(
        lent_words::get_word(policy, FIRST + WORDS * (LIMIT as usize)),
        LIMIT,
    );
    for place in 0..held {
        if shares_byte(policy, FIRST + WORDS * (place as usize), bytes) {
            return true;
        }
    }
    false
}

// Refusals 5 to 7, in order.
#[tactic(auto, using(crate::proofs::Cases::allow_full, crate::proofs::Cases::allow_overlaps, crate::proofs::Cases::allow_handled, crate::proofs::Cases::allow_fits))]
fn allow_answer_for(policy: &[u8; POLICY_SIZE], range: Stage2Range) -> Result<(), Stage2ConfigError>
    ensures { result ≡ answer_of (allow_cases (policy_at policy.now) (range_bytes range)) }
{
    let range_bytes = range.bytes();
    if MAX_ALLOWED_RANGES <= get_allowed_count(policy) {
        return Err(Stage2ConfigError::TooManyAllowedRanges);
    }
    if overlaps::<0, RANGE_WORDS, MAX_ALLOWED_RANGES>(policy, range_bytes) {
        return Err(Stage2ConfigError::AllowedRangeOverlap);
    }
    if overlaps::<REGIONS, REGION_WORDS, MAX_MEMORY_ACCESS_HANDLERS>(policy, range_bytes) {
        return Err(Stage2ConfigError::AllowedRangeOverlapsMemoryAccessHandler);
    }
    Ok(())
}

// Stores a range after those that are held, and counts it.
fn add_range(policy: &mut [u8; POLICY_SIZE], range: Stage2Range)
    requires { word_at policy.old allowed_count_at < 32 }
    ensures { policy.new ≡ with_allowed policy.old (set (each (range_at policy.old) 0 32) (word_at policy.old allowed_count_at) range) (word_at policy.old allowed_count_at + 1) }
{
    lent_words::are_bytes(policy);
    let count = get_allowed_count(policy);
    put_range(policy, count as usize, range);
    lent_words::put_word(policy, ALLOWED_COUNT, count + 1);
}

// Refusals 1 to 7, in order.
#[tactic(auto, using(stage2::proofs::Laws::allow_by_arguments))]
fn allow_answer(
    policy: &[u8; POLICY_SIZE],
    base_ipa: u64,
    size: u64,
    attributes: u64,
) -> Result<(), Stage2ConfigError>
    ensures { result ≡ allow_answer (policy_at policy.now) base_ipa size }
{
    stage2_range::validate_range(base_ipa, size)?;
    allow_answer_for(policy, Stage2Range::new(base_ipa, size, attributes))
}

// Allows the guest to access a range directly: refusals 1 to 7, in order. The range and the count are stored, and no other word.
pub fn allow_range(policy: &mut [u8; POLICY_SIZE], base_ipa: u64, size: u64, attributes: u64) -> u64
    ensures { Leaves (allow_call policy.old base_ipa size attributes) result policy.new [] }
{
    match allow_answer(policy, base_ipa, size, attributes) {
        Err(error) => error.number(),
        Ok(()) => {
            add_range(policy, Stage2Range::new(base_ipa, size, attributes));
            0
        }
    }
}

// Refusals 6, 8 and 9, in order.
#[tactic(auto, using(crate::proofs::Cases::handle_overlaps, crate::proofs::Cases::handle_full, crate::proofs::Cases::handle_handled, crate::proofs::Cases::handle_fits))]
fn handle_answer_for(
    policy: &[u8; POLICY_SIZE],
    region: MemoryAccessRegion,
) -> Result<(), Stage2ConfigError>
    ensures { result ≡ answer_of (handle_cases (policy_at policy.now) (region_bytes region)) }
{
    let region_bytes = region.bytes();
    if overlaps::<0, RANGE_WORDS, MAX_ALLOWED_RANGES>(policy, region_bytes) {
        return Err(Stage2ConfigError::AllowedRangeOverlap);
    }
    if MAX_MEMORY_ACCESS_HANDLERS <= get_region_count(policy) {
        return Err(Stage2ConfigError::TooManyMemoryAccessHandlerRegions);
    }
    if overlaps::<REGIONS, REGION_WORDS, MAX_MEMORY_ACCESS_HANDLERS>(policy, region_bytes) {
        return Err(Stage2ConfigError::MemoryAccessHandlerRangeOverlap);
    }
    Ok(())
}

// The place of the first region held whose base is not below this one, and how many are held where there is none. (No option: a region
// is inserted at either.)
fn place_by_base(policy: &[u8; POLICY_SIZE], base_ipa: u64) -> u64
    ensures { result ≡ first_index (λ s. leb base_ipa s.base_ipa) (regions_held (policy_at policy.now)) }
{
    let held = regions_held(policy);
    for place in 0..held {
        if base_ipa <= get_region_base(policy, place) {
            return place;
        }
    }
    held
}

// Stores a region at a place among the first `n`, those from there on one place further.
fn place_at(policy: &mut [u8; POLICY_SIZE], n: u64, at: u64, region: MemoryAccessRegion)
    requires { (at ≤ n) × (n < 16) }
    ensures { policy.new ≡ store_each with_region policy.old 0 (insert_at (each (region_at policy.old) 0 16) n at region) }
{
    lent_words::are_bytes(policy);
    for place in (at..n).rev() {
        copy_region_to(policy, place, place + 1);
    }
    put_region(policy, at as usize, region);
}

// Stores a region at its place by base, and counts it.
fn insert_region(policy: &mut [u8; POLICY_SIZE], region: MemoryAccessRegion)
    requires { word_at policy.old region_count_at < 16 }
    ensures { policy.new ≡ with_regions policy.old (insert_region (each (region_at policy.old) 0 16) (word_at policy.old region_count_at) region) (word_at policy.old region_count_at + 1) }
{
    let count = get_region_count(policy);
    let at = place_by_base(policy, region.base_ipa);
    place_at(policy, count, at, region);
    lent_words::put_word(policy, REGION_COUNT, count + 1);
}

// Refusals 20, 1 to 4, 6, 8, 9, in order.
#[tactic(auto, using(stage2::proofs::Laws::handle_by_arguments))]
fn handle_answer(
    policy: &[u8; POLICY_SIZE],
    base_ipa: u64,
    size: u64,
    read: u64,
    write: u64,
) -> Result<(), Stage2ConfigError>
    ensures { result ≡ handle_answer (policy_at policy.now) base_ipa size read write }
{
    if !stage2_range::is_handler(read) {
        return Err(Stage2ConfigError::UnknownMemoryHandler);
    }
    if !stage2_range::is_handler(write) {
        return Err(Stage2ConfigError::UnknownMemoryHandler);
    }
    stage2_range::validate_range(base_ipa, size)?;
    handle_answer_for(policy, MemoryAccessRegion::new(base_ipa, size, read, write))
}

// Has the guest's accesses to a range handled: refusals 20, 1 to 4, 6, 8, 9, in order. The region, those that it moves and the count are stored, and no
// other word.
pub fn handle_range(
    policy: &mut [u8; POLICY_SIZE],
    base_ipa: u64,
    size: u64,
    read: u64,
    write: u64,
) -> u64
    ensures { Leaves (handle_call policy.old base_ipa size read write) result policy.new [] }
{
    match handle_answer(policy, base_ipa, size, read, write) {
        Err(error) => error.number(),
        Ok(()) => {
            insert_region(policy, MemoryAccessRegion::new(base_ipa, size, read, write));
            0
        }
    }
}
