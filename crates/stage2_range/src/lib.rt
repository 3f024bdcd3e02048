// RITM's src/stage2.rs below its builder: the records, the range checks, the searches over an array and a count, the registry's insertion.

#![tactic(auto)]

ghost use Rattle.std.specs.Prelude.{◌≡◌, ℕ, leb, ◌≤◌, ◌<◌, length, position};
ghost use Rattle.lists.specs.Lists.{held, first_index, insert_at};
ghost use Rattle.stage2_range.specs.Ranges.{overlaps, validate_range, error_number, page_range, has_byte, shares_byte, range_of, range_bytes, range_words, is_record, align_down, align_up, aligned_number, aligned_value};
ghost use Rattle.stage2_range.specs.Handlers.{handler_of, handler_number, is_handler};
ghost use Rattle.stage2_range.specs.Registry.{region_of, region_bytes, region_words, has_address, find_region, register_region};

use lists::refusal::{self, Refusal};
use memory_access::{Ipa, MemoryAccessWidth};

// The most memory access handler regions that a policy holds.
pub const MAX_MEMORY_ACCESS_HANDLERS: u64 = 16;

// The most allowed ranges that a policy holds.
pub const MAX_ALLOWED_RANGES: u64 = 32;

// Why a call that changes the policy is refused. (The last four are ours: handlers are named by numbers, where RITM has functions,
// memory is read from a devicetree, and a range can be released.)
#[derive(Clone, Copy)]
pub enum Stage2ConfigError {
    RangeBaseNotPageAligned,
    EmptyRange,
    RangeSizeNotPageMultiple,
    RangeEndOverflow,
    TooManyAllowedRanges,
    AllowedRangeOverlap,
    AllowedRangeOverlapsMemoryAccessHandler,
    TooManyMemoryAccessHandlerRegions,
    MemoryAccessHandlerRangeOverlap,
    UnknownMemoryHandler,
    InvalidDevicetree,
    UnsupportedCellCounts,
    RangeNotHeld,
}

// Who serves the loads or the stores of a region (document 01: a half), where RITM has an optional function. (No function: the policy is
// bytes, in which a number says it.)
#[derive(Clone, Copy)]
pub enum MemoryHandler {
    // Nobody, quietly: a load gives 0 and a store is dropped.
    Absent,
    // The filtered MMIO page.
    FilteredMmio,
    // Nobody: the guest gets the abort, as it does in RITM where the function is missing.
    Fault,
}

// How many handlers there are: the numbers below name one each.
pub const MEMORY_HANDLERS: u64 = 3;

// The number of the fault, which larger ones name too.
pub const FAULT_HANDLER: u64 = 2;

#[derive(Clone, Copy)]
pub struct MemoryAccessHandler {
    pub read: MemoryHandler,
    pub write: MemoryHandler,
}

// A guest load from a handled region.
#[derive(Clone, Copy)]
pub struct MemoryReadAccess {
    pub ipa: Ipa,
    pub offset: u64,
    pub width: MemoryAccessWidth,
}

// A guest store to a handled region, its value at the access width.
#[derive(Clone, Copy)]
pub struct MemoryWriteAccess {
    pub ipa: Ipa,
    pub offset: u64,
    pub width: MemoryAccessWidth,
    pub value: u64,
}

// (RITM's enums and RITM's names, here and below: a device's fault, where an `Option` would say that there is no value.)
#[derive(Clone, Copy)]
pub enum MemoryReadResult {
    Value(u64),
    Fault,
}

#[derive(Clone, Copy)]
pub enum MemoryWriteResult {
    Handled,
    Fault,
}

// The bytes of a range or of a region: from its base up to but not including its end.
#[derive(Clone, Copy)]
pub struct PageRange {
    pub base_ipa: u64,
    pub end_ipa: u64,
}

// A range that the guest may use directly (document 01: an allowed range). (RITM's record has no attributes: they go to the page table alone.)
#[derive(Clone, Copy)]
pub struct Stage2Range {
    pub base_ipa: u64,
    pub size: u64,
    pub end_ipa: u64,
    pub attributes: u64,
}

// A range whose accesses are handled (document 01: a region).
#[derive(Clone, Copy)]
pub struct MemoryAccessRegion {
    pub base_ipa: u64,
    pub size: u64,
    pub handler: MemoryAccessHandler,
    pub end_ipa: u64,
}

// A region that has an address, and the offset of the address in it.
#[derive(Clone, Copy)]
pub struct MemoryAccessHandlerMatch {
    pub region: MemoryAccessRegion,
    pub offset: u64,
}

// What `register` answers, and the registry then, of a refusal too (as `Built` of `stage2`).
#[derive(Clone, Copy)]
pub struct Registered {
    pub answer: Result<(), Stage2ConfigError>,
    pub regions: [MemoryAccessRegion; 16],
    pub region_count: u64,
}

impl Refusal for Stage2ConfigError {
    ghost number_of = { error_number };

    fn number(self) -> u64 {
        match self {
            Stage2ConfigError::RangeBaseNotPageAligned => 1,
            Stage2ConfigError::EmptyRange => 2,
            Stage2ConfigError::RangeSizeNotPageMultiple => 3,
            Stage2ConfigError::RangeEndOverflow => 4,
            Stage2ConfigError::TooManyAllowedRanges => 5,
            Stage2ConfigError::AllowedRangeOverlap => 6,
            Stage2ConfigError::AllowedRangeOverlapsMemoryAccessHandler => 7,
            Stage2ConfigError::TooManyMemoryAccessHandlerRegions => 8,
            Stage2ConfigError::MemoryAccessHandlerRangeOverlap => 9,
            Stage2ConfigError::UnknownMemoryHandler => 20,
            Stage2ConfigError::InvalidDevicetree => 21,
            Stage2ConfigError::UnsupportedCellCounts => 22,
            Stage2ConfigError::RangeNotHeld => 23,
        }
    }
}

impl MemoryHandler {
    // The handler that a number names: the fault where it names no other.
    // (Tests in this order, and no match: a trap then takes three instructions fewer, a handle call nine.)
    pub fn from_number(number: u64) -> Self
        ensures { result ≡ handler_of number }
    {
        if FAULT_HANDLER <= number {
            MemoryHandler::Fault
        } else if number == 1 {
            MemoryHandler::FilteredMmio
        } else {
            MemoryHandler::Absent
        }
    }

    // The number that names the handler. (By name, as `from_number`: `u64::from` would not say which number it is.)
    pub fn number(self) -> u64
        ensures { result ≡ handler_number self }
    {
        match self {
            MemoryHandler::Absent => 0,
            MemoryHandler::FilteredMmio => 1,
            MemoryHandler::Fault => 2,
        }
    }
}

// Whether a number names a handler.
pub fn is_handler(number: u64) -> bool
    ensures { result ≡ is_handler number }
{
    number < MEMORY_HANDLERS
}

impl PageRange {
    // The bytes of a base and a size: none where they would go on past the largest end, which `validate_range` refuses.
    // (None, and not those up to that end: past `validate_range` the compiler then sees a plain sum.)
    pub fn new(base_ipa: u64, size: u64) -> Self
        ensures { result ≡ page_range base_ipa size }
    {
        if MAX_END_IPA - size < base_ipa {
            return PageRange {
                base_ipa,
                end_ipa: base_ipa,
            };
        }
        PageRange {
            base_ipa,
            end_ipa: base_ipa + size,
        }
    }

    // A byte is one of these.
    pub fn has_byte(self, ipa: u64) -> bool
        ensures { result ≡ has_byte self ipa }
    {
        (self.base_ipa <= ipa) & (ipa < self.end_ipa)
    }
}

// A record of a policy: an allowed range, or a region.
pub trait PolicyRecord: Copy {
    ghost use Rattle.stage2_range.specs.declared.PageRange.{PageRange};

    ghost bytes_of: { Self → PageRange };

    ghost size_of: { Self → ℕ };

    // Its bytes, whatever its size says.
    fn bytes(self) -> PageRange
        ensures { result ≡ bytes_of self };

    // Its size, as it is stored.
    fn size(self) -> u64
        ensures { result ≡ size_of self };
}

impl PolicyRecord for Stage2Range {
    ghost bytes_of = { range_bytes };

    ghost size_of = { λ r. r.size };

    fn bytes(self) -> PageRange {
        PageRange {
            base_ipa: self.base_ipa,
            end_ipa: self.end_ipa,
        }
    }

    fn size(self) -> u64 {
        self.size
    }
}

impl PolicyRecord for MemoryAccessRegion {
    ghost bytes_of = { region_bytes };

    ghost size_of = { λ r. r.size };

    fn bytes(self) -> PageRange {
        PageRange {
            base_ipa: self.base_ipa,
            end_ipa: self.end_ipa,
        }
    }

    fn size(self) -> u64 {
        self.size
    }
}

impl Stage2Range {
    // The range of a base and a size.
    pub fn new(base_ipa: u64, size: u64, attributes: u64) -> Self
        ensures { result ≡ range_of base_ipa size attributes }
    {
        let bytes = PageRange::new(base_ipa, size);
        Stage2Range {
            base_ipa,
            size,
            end_ipa: bytes.end_ipa,
            attributes,
        }
    }

    // Its numbers, as a recorded answer has them.
    pub fn words(self) -> [u64; 4]
        ensures { result ≡ range_words self }
    {
        [self.base_ipa, self.size, self.end_ipa, self.attributes]
    }
}

impl MemoryAccessRegion {
    // The region of a base and a size, with the handlers that two numbers name.
    pub fn new(base_ipa: u64, size: u64, read: u64, write: u64) -> Self
        ensures { result ≡ region_of base_ipa size read write }
    {
        let handler = MemoryAccessHandler {
            read: MemoryHandler::from_number(read),
            write: MemoryHandler::from_number(write),
        };
        let bytes = PageRange::new(base_ipa, size);
        MemoryAccessRegion {
            base_ipa,
            size,
            handler,
            end_ipa: bytes.end_ipa,
        }
    }

    // Its numbers.
    pub fn words(self) -> [u64; 5]
        ensures { result ≡ region_words self }
    {
        let handler = self.handler;
        let read = handler.read;
        let write = handler.write;
        [
            self.base_ipa,
            self.size,
            self.end_ipa,
            read.number(),
            write.number(),
        ]
    }
}

const STAGE2_PAGE_SIZE: u64 = 4096;

// The bits of an address that its page boundary keeps: all but the low 12.
const STAGE2_PAGE_MASK: u64 = !(STAGE2_PAGE_SIZE - 1);

// The last byte that a range may have, and the largest end.
const MAX_LAST_IPA: u64 = 0xFFFF_FFFF_FFFF_FFFE;

const MAX_END_IPA: u64 = MAX_LAST_IPA + 1;

// Rounds `address` down to the nearest page boundary.
pub fn align_down_to_page(address: u64) -> u64
    ensures { result ≡ align_down address }
{
    address & STAGE2_PAGE_MASK
}

// Rounds `address` up to the nearest page boundary. (The test stands before the sum, so that the sum fits a word.)
#[tactic(auto, using(crate::proofs::Ranges::none_above, crate::proofs::Ranges::aligned_above))]
pub fn align_up_to_page(address: u64) -> Option<u64>
    ensures { result ≡ align_up address }
{
    if 0xFFFF_FFFF_FFFF_F000 < address {
        None
    } else {
        let sum = address + (STAGE2_PAGE_SIZE - 1);
        Some(sum & STAGE2_PAGE_MASK)
    }
}

// The number of a rounding's answer in the table of refusals: 18 where there is no page boundary above. (As `decoded_number`.)
pub fn aligned_number(aligned: Option<u64>) -> u64
    ensures { result ≡ aligned_number aligned }
{
    refusal::missing_number(aligned, 18)
}

// The page boundary, 0 where there is none.
pub fn aligned_value(aligned: Option<u64>) -> u64
    ensures { result ≡ aligned_value aligned }
{
    aligned.unwrap_or(0)
}

// Refusals 1 to 4, in order.
#[tactic(auto, using(crate::proofs::Ranges::base_refused, crate::proofs::Ranges::empty_refused, crate::proofs::Ranges::size_refused, crate::proofs::Ranges::end_refused, crate::proofs::Ranges::range_accepted))]
pub fn validate_range(base_ipa: u64, size: u64) -> Result<(), Stage2ConfigError>
    ensures { result ≡ validate_range base_ipa size }
{
    if base_ipa % STAGE2_PAGE_SIZE != 0 {
        return Err(Stage2ConfigError::RangeBaseNotPageAligned);
    }
    if size == 0 {
        return Err(Stage2ConfigError::EmptyRange);
    }
    if size % STAGE2_PAGE_SIZE != 0 {
        return Err(Stage2ConfigError::RangeSizeNotPageMultiple);
    }
    if MAX_LAST_IPA - (size - 1) < base_ipa {
        return Err(Stage2ConfigError::RangeEndOverflow);
    }
    Ok(())
}

// Some byte lies in both ranges: none is empty, and each begins before the other ends.
// (No test hides another, and the one that tells most ranges apart stands last: the loops over lent bytes then take the fewest instructions.)
pub fn page_ranges_overlap(first: PageRange, second: PageRange) -> bool
    ensures { result ≡ shares_byte first second }
{
    (first.base_ipa < first.end_ipa)
        & (second.base_ipa < second.end_ipa)
        & (first.base_ipa < second.end_ipa)
        & (second.base_ipa < first.end_ipa)
}

// The records that an array and a count hold.
#[tactic(auto, using(crate::proofs::Moves::taken_all), unfolding(lists::specs::Lists::held))]
pub fn held<T>(records: &[T], count: u64, limit: u64) -> &[T]
    ensures { result.now ≡ held limit count records.now }
{
    let n = lists::held_count(count, limit);
    records.get(..n as usize).unwrap_or(records)
}

// Some record shares a byte with the given bytes.
#[tactic(auto, using(crate::proofs::Ranges::overlaps_any))]
pub fn overlaps<T: PolicyRecord>(records: &[T], bytes: PageRange) -> bool
    ensures { result ≡ overlaps T.bytes_of records.now bytes }
{
    records
        .iter()
        .any(|held| page_ranges_overlap(held.bytes(), bytes))
}

// The place of the first record with this base and size.
pub fn position<T: PolicyRecord>(records: &[T], base_ipa: u64, size: u64) -> Option<usize>
    ensures { result ≡ position (is_record T.bytes_of T.size_of base_ipa size) records.now }
{
    records.iter().position(|held| (held.bytes().base_ipa == base_ipa) & (held.size() == size))
}

// The place of the first region that has the address.
#[tactic(auto, unfolding(crate::specs::Ranges::has_byte))]
fn address_position(regions: &[MemoryAccessRegion], address: u64) -> Option<usize>
    ensures { result ≡ position (has_address address) regions.now }
{
    regions
        .iter()
        .position(|region| region.bytes().has_byte(address))
}

// The first region of a slice that has the address, and the offset in it.
#[tactic(auto, using(crate::proofs::Registry::found_within, crate::proofs::Registry::found_base, crate::proofs::Registry::find_here, crate::proofs::Registry::find_nothing))]
pub fn find_in_slice(regions: &[MemoryAccessRegion], ipa: Ipa) -> Option<MemoryAccessHandlerMatch>
    ensures { result ≡ find_region regions.now ipa }
{
    let at = address_position(regions, ipa.0)?;
    let region = regions[at];
    Some(MemoryAccessHandlerMatch {
        region,
        offset: ipa.0 - region.base_ipa,
    })
}

// The first region held that has the address, and the offset in it. (Array and count apart, as in `register`: together they would be a
// second policy, and the traps hand on the one policy's.)
pub fn find_region(
    regions: [MemoryAccessRegion; 16],
    region_count: u64,
    ipa: Ipa,
) -> Option<MemoryAccessHandlerMatch>
    ensures { result ≡ find_region (held 16 region_count regions) ipa }
{
    find_in_slice(
        held(&regions, region_count, MAX_MEMORY_ACCESS_HANDLERS),
        ipa,
    )
}

// Where a region of this base is inserted: before the first region whose base is not below it, or after all. (No option: each is a place.)
fn insertion_place(regions: &[MemoryAccessRegion], base_ipa: u64) -> usize
    ensures { result ≡ first_index (λ r. leb base_ipa r.base_ipa) regions.now }
{
    regions
        .iter()
        .position(|region| base_ipa <= region.base_ipa)
        .unwrap_or(regions.len())
}

// Refusals 8 and 9, in order; an accepted region goes to its place by base.
#[tactic(auto, using(crate::proofs::Registry::register_refusals))]
pub fn register(
    regions: [MemoryAccessRegion; 16],
    region_count: u64,
    region: MemoryAccessRegion,
) -> Registered
    ensures { result ≡ register_region regions region_count region }
{
    if MAX_MEMORY_ACCESS_HANDLERS <= region_count {
        return Registered {
            answer: Err(Stage2ConfigError::TooManyMemoryAccessHandlerRegions),
            regions,
            region_count,
        };
    }
    let held = held(&regions, region_count, MAX_MEMORY_ACCESS_HANDLERS);
    if overlaps(held, region.bytes()) {
        return Registered {
            answer: Err(Stage2ConfigError::MemoryAccessHandlerRangeOverlap),
            regions,
            region_count,
        };
    }
    let at = insertion_place(held, region.base_ipa);
    let mut next = regions;
    insert_at(&mut next, region_count as usize, at, region);
    Registered {
        answer: Ok(()),
        regions: next,
        region_count: region_count + 1,
    }
}

// Puts one more record at a place among the first `n`, those from there on one place further.
#[tactic(auto, using(crate::proofs::Moves::insert_moves))]
fn insert_at<T: Copy>(records: &mut [T], n: usize, at: usize, inserted: T)
    requires { (at ≤ n) × (n < length records.old) }
    ensures { records.new ≡ insert_at records.old n at inserted }
{
    records.copy_within(at..n, at + 1);
    records[at] = inserted;
}
