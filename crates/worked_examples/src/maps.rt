// The suspend map.
use super::print::{columns, row};
use lists::refusal::answer_number;
use simple_map::{Inserted, SimpleMap, SuspendCoreData};
use std::io;

// An entry for each key from 0 on, so many.
fn map_with(keys: u8) -> SimpleMap {
    let mut map = SimpleMap::new();
    for key in 0..keys {
        let inserted = insert_entry(map, key as u64);
        map = inserted.map;
    }
    map
}

// An entry whose context id is its key.
fn insert_entry(map: SimpleMap, key: u64) -> Inserted {
    let value = SuspendCoreData {
        entry_point: 0x8_0000,
        context_id: key,
    };
    map.insert(key, value)
}

// Whether there is an entry, and its context id: two columns of a row.
fn found(lookup: Option<SuspendCoreData>) -> (u64, u64) {
    lookup.map_or((0, 0), |value| (1, value.context_id))
}

fn insert(rt: &impl Print, keys: u8, key: u64) -> io::Result<()> {
    let inserted = insert_entry(map_with(keys), key);
    let (flag, context_id) = found(inserted.map.get(key));
    let answer = answer_number(inserted.answer);
    row(rt, &[keys.into(), key], &[answer, flag, context_id])
}

fn remove(rt: &impl Print, keys: u8, key: u64) -> io::Result<()> {
    let removed = map_with(keys).remove(key);
    let (flag, context_id) = found(removed.removed);
    let (flag_then, context_id_then) = found(removed.map.get(key));
    let found = [flag, context_id, flag_then, context_id_then];
    row(rt, &[keys.into(), key], &found)
}

pub(crate) fn rows(rt: &impl Print) -> io::Result<()> {
    columns(rt, "insert: held key | answer found context_id")?;
    insert(rt, 0, 7)?;
    insert(rt, 8, 7)?;
    insert(rt, 8, 8)?;
    columns(
        rt,
        "remove: held key | found context_id, after: found context_id",
    )?;
    remove(rt, 8, 7)?;
    remove(rt, 8, 8)
}
