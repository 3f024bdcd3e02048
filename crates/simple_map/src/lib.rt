// RITM's src/simple_map.rs at the one type that RITM uses it with, the suspend contexts of src/hypervisor.rs: a map in a fixed-capacity
// array, searched from its start.

#![tactic(auto)]

ghost use Rattle.std.specs.Prelude.{◌≡◌, position};
ghost use Rattle.simple_map.specs.Map.{is_free, holds_key, value_of, empty_map, get_item, insert_item, capacity_number, remove_item};

use lists::refusal::Refusal;

// Where a suspended core resumes, and with what.
#[derive(Clone, Copy)]
pub struct SuspendCoreData {
    pub entry_point: u64,
    pub context_id: u64,
}

// Document 01: a parked entry.
#[derive(Clone, Copy)]
pub struct Item {
    pub key: u64,
    pub value: SuspendCoreData,
}

// RITM's `SimpleMap<MpidrEl1, SuspendCoreData, MAX_CORES>`.
#[derive(Clone, Copy)]
pub struct SimpleMap {
    pub items: [Option<Item>; 8],
}

// What `remove` gives, and the map then, as `Inserted`.
#[derive(Clone, Copy)]
pub struct Removed {
    pub removed: Option<SuspendCoreData>,
    pub map: SimpleMap,
}

// All places are taken.
#[derive(Clone, Copy)]
pub struct CapacityExceeded;

impl Refusal for CapacityExceeded {
    ghost number_of = { capacity_number };

    fn number(self) -> u64 {
        16
    }
}

// What `insert` answers, and the map then. (No `Result<SimpleMap, _>`: that a refusal leaves the map as it was is said of the map that it
// gives.)
#[derive(Clone, Copy)]
pub struct Inserted {
    pub answer: Result<(), CapacityExceeded>,
    pub map: SimpleMap,
}

impl SimpleMap {
    #[tactic(auto, unfolding(crate::specs::Map::empty_map))]
    pub fn new() -> Self
        ensures { result ≡ empty_map }
    {
        SimpleMap { items: [None; 8] }
    }

    // The value of the first item with the key. (RITM's `get_mut` lends it.)
    #[tactic(auto, using(crate::proofs::Laws::get_found, crate::proofs::Laws::get_missing))]
    pub fn get(self, key: u64) -> Option<SuspendCoreData>
        ensures { result ≡ get_item self key }
    {
        let items = self.items;
        match find_key(&items, key) {
            Some(at) => value_of(items[at]),
            None => None,
        }
    }

    // Removes the first item with the key, then puts the new one into the first free place.
    #[tactic(auto, using(crate::proofs::Laws::insert_stores, crate::proofs::Laws::insert_full))]
    pub fn insert(self, key: u64, value: SuspendCoreData) -> Inserted
        ensures { result ≡ insert_item self key value }
    {
        let rest = self.remove(key).map;
        let mut items = rest.items;
        match find_free(&items) {
            Some(at) => {
                items[at] = Some(Item { key, value });
                Inserted {
                    answer: Ok(()),
                    map: SimpleMap { items },
                }
            }
            None => Inserted {
                answer: Err(CapacityExceeded),
                map: self,
            },
        }
    }

    // Removes the first item with the key, and answers its value.
    #[tactic(auto, using(crate::proofs::Laws::remove_found, crate::proofs::Laws::remove_missing))]
    pub fn remove(self, key: u64) -> Removed
        ensures { result ≡ remove_item self key }
    {
        let removed = self.get(key);
        let mut items = self.items;
        if let Some(at) = find_key(&items, key) {
            items[at] = None;
        }
        Removed {
            removed,
            map: SimpleMap { items },
        }
    }
}

#[tactic(auto, unfolding(crate::specs::Map::holds_key))]
fn holds_key(place: Option<Item>, key: u64) -> bool
    ensures { result ≡ holds_key key place }
{
    match place {
        Some(item) => item.key == key,
        None => false,
    }
}

// The first place that holds an item with the key.
fn find_key(items: &[Option<Item>], key: u64) -> Option<usize>
    ensures { result ≡ position (holds_key key) items.now }
{
    items.iter().position(|place| holds_key(*place, key))
}

// The first free place.
#[tactic(auto, unfolding(crate::specs::Map::is_free))]
fn find_free(items: &[Option<Item>]) -> Option<usize>
    ensures { result ≡ position is_free items.now }
{
    items.iter().position(|place| place.is_none())
}

#[tactic(auto, unfolding(crate::specs::Map::value_of))]
fn value_of(place: Option<Item>) -> Option<SuspendCoreData>
    ensures { result ≡ value_of place }
{
    Some(place?.value)
}
