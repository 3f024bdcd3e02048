// RITM's src/stage2.rs, the builder: which ranges the guest may use directly, and which have their accesses handled.

#![tactic(auto)]

ghost use Rattle.std.specs.Prelude.{◌≡◌, ◌<◌, ◌≤◌, length, Err};
ghost use Rattle.lists.specs.Lists.{remove_at};
ghost use Rattle.stage2_range.specs.Ranges.{answer_of, range_bytes};
ghost use Rattle.stage2_range.specs.Registry.{find_region, region_bytes};
ghost use Rattle.stage2.specs.Policy.{fresh_policy, allowed_held, regions_held, built_by, allow_cases, add_allowed, allow_range, handle_cases, add_region, handle_range, not_held_cases, without_range, release_range};

use memory_access::Ipa;
pub use stage2_range::find_in_slice;
use stage2_range::{
    MAX_ALLOWED_RANGES, MAX_MEMORY_ACCESS_HANDLERS, MemoryAccessHandlerMatch, MemoryAccessRegion,
    PolicyRecord, Stage2ConfigError, Stage2Range,
};

// RITM's `Stage2Builder` without its page table: the allowed ranges in order of arrival, the handled regions ascending by base. (Arrays
// and counts: memory is fixed, and any array and count are a policy.)
#[derive(Clone, Copy)]
pub struct Policy {
    pub allowed: [Stage2Range; 32],
    pub allowed_count: u64,
    pub regions: [MemoryAccessRegion; 16],
    pub region_count: u64,
}

// What a builder call answers, and the policy then. (No `Result<Policy, _>`: that a refusal leaves the policy as it was is said of the
// policy that it gives.)
#[derive(Clone, Copy)]
pub struct Built {
    pub answer: Result<(), Stage2ConfigError>,
    pub policy: Policy,
}

impl Policy {
    // The fresh policy: no range, no region.
    pub fn new() -> Self
        ensures { result ≡ fresh_policy }
    {
        let range = Stage2Range::new(0, 0, 0);
        let region = MemoryAccessRegion::new(0, 0, 0, 0);
        Policy {
            allowed: [range; 32],
            allowed_count: 0,
            regions: [region; 16],
            region_count: 0,
        }
    }

    // Allows the guest to access a range directly: refusals 1 to 7, in order.
    #[tactic(auto, using(crate::proofs::Laws::allow_by_arguments), unfolding(crate::specs::Policy::allow_range))]
    pub fn allow_range(self, base_ipa: u64, size: u64, attributes: u64) -> Built
        ensures { result ≡ allow_range self base_ipa size attributes }
    {
        match stage2_range::validate_range(base_ipa, size) {
            Err(error) => refuse(self, error),
            Ok(()) => { allow_valid(self, Stage2Range::new(base_ipa, size, attributes)) }
        }
    }

    // Has the guest's accesses to a range handled, loads by one handler and stores by another, each named by its number: refusals 20,
    // 1 to 4, 6, 8, 9, in order.
    #[tactic(auto, using(crate::proofs::Laws::handle_by_arguments), unfolding(crate::specs::Policy::handle_range))]
    pub fn handle_range(self, base_ipa: u64, size: u64, read: u64, write: u64) -> Built
        ensures { result ≡ handle_range self base_ipa size read write }
    {
        if !stage2_range::is_handler(read) {
            return refuse(self, Stage2ConfigError::UnknownMemoryHandler);
        }
        if !stage2_range::is_handler(write) {
            return refuse(self, Stage2ConfigError::UnknownMemoryHandler);
        }
        match stage2_range::validate_range(base_ipa, size) {
            Err(error) => refuse(self, error),
            Ok(()) => { handle_valid(self, MemoryAccessRegion::new(base_ipa, size, read, write)) }
        }
    }

    // Releases the first allowed range with this base and size, or else the first such region: refusals 1 to 4 and 23, in order. (RITM
    // has no such call.)
    #[tactic(auto, using(crate::proofs::Release::release_by_arguments), unfolding(crate::specs::Policy::release_range))]
    pub fn release_range(self, base_ipa: u64, size: u64) -> Built
        ensures { result ≡ release_range self base_ipa size }
    {
        match stage2_range::validate_range(base_ipa, size) {
            Err(error) => refuse(self, error),
            Ok(()) => release_valid(self, base_ipa, size),
        }
    }

    // The allowed ranges that are held.
    fn allowed_held(&self) -> &[Stage2Range]
        ensures { result.now ≡ allowed_held self.now }
    {
        stage2_range::held(&self.allowed, self.allowed_count, MAX_ALLOWED_RANGES)
    }

    // The regions that are held.
    fn regions_held(&self) -> &[MemoryAccessRegion]
        ensures { result.now ≡ regions_held self.now }
    {
        stage2_range::held(&self.regions, self.region_count, MAX_MEMORY_ACCESS_HANDLERS)
    }

    // The first region that has the address, and the offset in it.
    pub fn find(self, ipa: Ipa) -> Option<MemoryAccessHandlerMatch>
        ensures { result ≡ find_region (regions_held self) ipa }
    {
        let regions = self.regions;
        stage2_range::find_region(regions, self.region_count, ipa)
    }
}

fn refuse(policy: Policy, error: Stage2ConfigError) -> Built
    ensures { result ≡ built_by (Err error) policy policy }
{
    Built {
        answer: Err(error),
        policy,
    }
}

// Refusals 5 to 7, in order; an accepted range goes after those that are held.
#[tactic(auto, unfolding(crate::specs::Policy::add_allowed))]
fn allow_valid(policy: Policy, range: Stage2Range) -> Built
    ensures { result ≡ built_by (answer_of (allow_cases policy (range_bytes range))) policy (add_allowed policy range) }
{
    let count = policy.allowed_count;
    let bytes = range.bytes();
    if MAX_ALLOWED_RANGES <= count {
        return refuse(policy, Stage2ConfigError::TooManyAllowedRanges);
    }
    if stage2_range::overlaps(policy.allowed_held(), bytes) {
        return refuse(policy, Stage2ConfigError::AllowedRangeOverlap);
    }
    if stage2_range::overlaps(policy.regions_held(), bytes) {
        return refuse(
            policy,
            Stage2ConfigError::AllowedRangeOverlapsMemoryAccessHandler,
        );
    }
    let mut next = policy;
    next.allowed[count as usize] = range;
    next.allowed_count = count + 1;
    Built {
        answer: Ok(()),
        policy: next,
    }
}

// Refusals 6, 8 and 9, in order; an accepted region goes to its place by base.
fn handle_valid(policy: Policy, region: MemoryAccessRegion) -> Built
    ensures { result ≡ built_by (answer_of (handle_cases policy (region_bytes region))) policy (add_region policy region) }
{
    if stage2_range::overlaps(policy.allowed_held(), region.bytes()) {
        return refuse(policy, Stage2ConfigError::AllowedRangeOverlap);
    }
    let regions = policy.regions;
    let registered = stage2_range::register(regions, policy.region_count, region);
    let mut next = policy;
    let regions = registered.regions;
    next.regions = regions;
    next.region_count = registered.region_count;
    Built {
        answer: registered.answer,
        policy: next,
    }
}

// Takes the record at a place from the first `n`, those after it one place sooner.
#[tactic(auto, using(stage2_range::proofs::Moves::remove_moves))]
fn remove_at<T: Copy>(records: &mut [T], n: usize, at: usize)
    requires { (at < n) × (n ≤ length records.old) }
    ensures { records.new ≡ remove_at records.old n at }
{
    records.copy_within(at + 1..n, at);
}

// Refusal 23; else one record goes, of the allowed ranges before the regions.
fn release_valid(policy: Policy, base_ipa: u64, size: u64) -> Built
    ensures { result ≡ built_by (answer_of (not_held_cases policy base_ipa size)) policy (without_range policy base_ipa size) }
{
    let mut next = policy;
    let allowed = policy.allowed_held();
    if let Some(at) = stage2_range::position(allowed, base_ipa, size) {
        let n = allowed.len();
        remove_at(&mut next.allowed, n, at);
        next.allowed_count = n as u64 - 1;
        return Built {
            answer: Ok(()),
            policy: next,
        };
    }
    let regions = policy.regions_held();
    if let Some(at) = stage2_range::position(regions, base_ipa, size) {
        let n = regions.len();
        remove_at(&mut next.regions, n, at);
        next.region_count = n as u64 - 1;
        return Built {
            answer: Ok(()),
            policy: next,
        };
    }
    refuse(policy, Stage2ConfigError::RangeNotHeld)
}

// The lent form on an array of one's own. (It stays beside `find_in_slice`: recorded calls are made by it, and each recorded answer compared.)
pub fn find_in_array(
    regions: [MemoryAccessRegion; 16],
    ipa: Ipa,
) -> Option<MemoryAccessHandlerMatch>
    ensures { result ≡ find_region regions ipa }
{
    find_in_slice(&regions, ipa)
}
