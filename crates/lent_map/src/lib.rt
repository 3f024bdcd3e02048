// Where the bytes that a host lends hold the suspend map: little-endian 64-bit words at fixed places. Any bytes are a map. A call reads and
// stores the words that it must, in place.
// (A call answers the number of its refusal, and no `Result`: `ritm` hands the number to C.)

#![tactic(auto)]

ghost use Rattle.std.specs.Prelude.{◌≡◌, cond, [], ◌+◌, ◌*◌, ◌<◌, ltb, Some, None};
ghost use Rattle.lists.specs.Lists.{first_index};
ghost use Rattle.lent_words.specs.Words.{word_at, bytes_of, unless_refused, Leaves};
ghost use Rattle.simple_map.specs.Map.{free_place, is_free, holds_key, get_item, insert_item, insert_number, remove_item, lookup_values};
ghost use Rattle.lent_map.specs.Layout.{fits_sought, place_length, entry_point_word, context_id_word, place_at, map_at, with_place, with_places};
ghost use Rattle.lent_map.specs.Calls.{insert_call, get_call, remove_call};

use lent_words::THREE_WORDS;
use lists::refusal;
use simple_map::{CapacityExceeded, Item, SuspendCoreData};

// The words of a place: 1 where it is taken, then key, entry point and context id.
const KEY_WORD: usize = 1;

const ENTRY_POINT_WORD: usize = 2;

const CONTEXT_ID_WORD: usize = 3;

const PLACE_WORDS: usize = 4;

// The length of the map's buffer, in bytes: eight places.
pub const MAP_SIZE: usize = 8 * (8 * PLACE_WORDS);

// Whether a place holds what is sought: an entry with the key, or else no entry. (An option and no closure: what a closure over lent bytes
// asks of its caller would be longer than the match.)
#[tactic(auto, unfolding(crate::specs::Layout::place_at, simple_map::specs::Map::is_free, simple_map::specs::Map::holds_key))]
fn place_fits(map: &[u8; MAP_SIZE], place: usize, sought: Option<u64>) -> bool
    requires { place < 8 }
    ensures { result ≡ fits_sought sought (place_at map.now place) }
{
    let at = PLACE_WORDS * place;
    let taken = lent_words::get_word(map, at) == 1;
    match sought {
        Some(key) => taken && lent_words::get_word(map, at + KEY_WORD) == key,
        None => !taken,
    }
}

// The first place that fits, and 8 where none does. (No option: an insert takes the lower of two such places.)
fn position(map: &[u8; MAP_SIZE], sought: Option<u64>) -> usize
    ensures { result ≡ first_index (fits_sought sought) (map_at map.now).items }
{
    for place in 0..8 {
        if place_fits(map, place, sought) {
            return place;
        }
    }
    8
}

// The place of the first entry with the key.
fn find_key(map: &[u8; MAP_SIZE], key: u64) -> usize
    ensures { result ≡ first_index (holds_key key) (map_at map.now).items }
{
    position(map, Some(key))
}

// The first free place.
fn find_free(map: &[u8; MAP_SIZE]) -> usize
    ensures { result ≡ first_index is_free (map_at map.now).items }
{
    position(map, None)
}

// Stores a place of the suspend map.
#[tactic(auto, unfolding(crate::specs::Layout::with_place))]
fn put_place(map: &mut [u8; MAP_SIZE], place: usize, value: Option<Item>)
    requires { place < 8 }
    ensures { map.new ≡ with_place map.old place value }
{
    let at = PLACE_WORDS * place;
    let old = lent_words::get_word(map, at);
    match value {
        None => {
            lent_words::put_word(map, at, lent_words::kept_code(old, 2, 0));
        }
        Some(i) => {
            let data = i.value;
            lent_words::put_word(map, at, lent_words::kept_code(old, 2, 1));
            lent_words::put_word(map, at + KEY_WORD, i.key);
            lent_words::put_word(map, at + ENTRY_POINT_WORD, data.entry_point);
            lent_words::put_word(map, at + CONTEXT_ID_WORD, data.context_id);
        }
    }
}

// Frees a place, of which the first word alone changes. Past the eighth there is none to free.
fn free_place(map: &mut [u8; MAP_SIZE], place: usize)
    ensures { map.new ≡ cond (ltb place 8) (with_place map.old place free_place) map.old }
{
    if place < 8 {
        put_place(map, place, None);
    }
}

// The value of the entry that a place holds, and none where there is no such place.
fn value_at(map: &[u8; MAP_SIZE], place: usize) -> Option<SuspendCoreData>
    ensures { result ≡ cond (ltb place 8) (Some (record { entry_point = word_at map.now (place_length * place + entry_point_word); context_id = word_at map.now (place_length * place + context_id_word) })) None }
{
    if 8 <= place {
        return None;
    }
    let at = PLACE_WORDS * place;
    let value = SuspendCoreData {
        entry_point: lent_words::get_word(map, at + ENTRY_POINT_WORD),
        context_id: lent_words::get_word(map, at + CONTEXT_ID_WORD),
    };
    Some(value)
}

// The value of the first entry with the key.
#[tactic(auto, using(crate::proofs::InPlace::entry_at))]
fn get_entry(map: &[u8; MAP_SIZE], key: u64) -> Option<SuspendCoreData>
    ensures { result ≡ get_item (map_at map.now) key }
{
    let place = find_key(map, key);
    value_at(map, place)
}

// The same, and the entry is removed.
fn remove_entry(map: &mut [u8; MAP_SIZE], key: u64) -> Option<SuspendCoreData>
    ensures { (result ≡ (remove_item (map_at map.old) key).removed)
        × (map.new ≡ with_places map.old (remove_item (map_at map.old) key).map.items) }
{
    lent_words::are_bytes(map);
    let held = find_key(map, key);
    let removed = value_at(map, held);
    free_place(map, held);
    removed
}

// Holds an entry under the key. Once the key's first entry is removed its place is free too: the new one goes to the lower of the two places.
#[tactic(auto, using(crate::proofs::InPlace::none_inserted))]
fn insert_entry(
    map: &mut [u8; MAP_SIZE],
    key: u64,
    value: SuspendCoreData,
) -> Result<(), CapacityExceeded>
    ensures { (result ≡ (insert_item (map_at map.old) key value).answer)
        × (map.new ≡ unless_refused (insert_number result) map.old (with_places map.old (insert_item (map_at map.old) key value).map.items)) }
{
    lent_words::are_bytes(map);
    let old = find_key(map, key);
    let free = find_free(map);
    let entry = Some(Item { key, value });
    if old < free {
        put_place(map, old, entry);
        return Ok(());
    }
    if 8 <= free {
        return Err(CapacityExceeded);
    }
    put_place(map, free, entry);
    free_place(map, old);
    Ok(())
}

// A look-up's answer: whether there is an entry, its entry point and its context id.
fn put_lookup(res: &mut [u8; THREE_WORDS], lookup: Option<SuspendCoreData>)
    ensures { res.new ≡ bytes_of (lookup_values lookup) }
{
    match lookup {
        None => lent_words::put_three(res, 0, 0, 0),
        Some(value) => lent_words::put_three(res, 1, value.entry_point, value.context_id),
    }
}

// Holds an entry under a key, in place of the key's last one: refusal 16.
#[tactic(auto, unfolding(crate::specs::Calls::insert_call))]
pub fn insert(map: &mut [u8; MAP_SIZE], key: u64, entry_point: u64, context_id: u64) -> u64
    ensures { Leaves (insert_call map.old key entry_point context_id) result map.new [] }
{
    let value = SuspendCoreData {
        entry_point,
        context_id,
    };
    refusal::answer_number(insert_entry(map, key, value))
}

// The entry of a key: whether there is one, its entry point and its context id.
#[tactic(auto, unfolding(crate::specs::Calls::get_call))]
pub fn get(map: &[u8; MAP_SIZE], key: u64, res: &mut [u8; THREE_WORDS]) -> u64
    ensures { Leaves (get_call map.now key) result map.now res.new }
{
    put_lookup(res, get_entry(map, key));
    0
}

// The same, and the entry is held no more.
#[tactic(auto, unfolding(crate::specs::Calls::remove_call))]
pub fn remove(map: &mut [u8; MAP_SIZE], key: u64, res: &mut [u8; THREE_WORDS]) -> u64
    ensures { Leaves (remove_call map.old key) result map.new res.new }
{
    put_lookup(res, remove_entry(map, key));
    0
}
