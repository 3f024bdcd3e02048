// The records of the suspend map: 8 to a.
ghost use Rattle.std.specs.Prelude.{◌≡◌, fold};
ghost use Rattle.records.specs.Records.{expected};
ghost use Rattle.simple_map.specs.Map.{lookup_values};
ghost use Rattle.recorded_calls.specs.Maps.{inserted_taken, removed_taken, map_taken};

use lists::refusal::answer_number;
use records::{Call, Record, Taken};
use simple_map::{Inserted, Removed, SimpleMap, SuspendCoreData};

// Makes the record's call; a record of something else passes as it is.
#[tactic(auto, unfolding(crate::specs::Maps::map_taken))]
pub fn take(map: SimpleMap, recorded: Record, call: Call) -> Taken<SimpleMap>
    ensures { result ≡ map_taken map recorded call }
{
    let key = call.a;
    match call.code {
        0 => Taken {
            compared: recorded,
            state: SimpleMap::new(),
        },
        8 => {
            let value = SuspendCoreData {
                entry_point: call.b,
                context_id: call.c,
            };
            inserted(recorded, map.insert(key, value))
        }
        9 => Taken {
            compared: found(recorded, map.get(key)),
            state: map,
        },
        0xA => removed(recorded, map.remove(key)),
        _ => Taken {
            compared: recorded,
            state: map,
        },
    }
}

// key entry_point context_id | number
fn inserted(recorded: Record, step: Inserted) -> Taken<SimpleMap>
    ensures { result ≡ inserted_taken recorded step }
{
    Taken {
        compared: recorded.expect(answer_number(step.answer)),
        state: step.map,
    }
}

// key | found entry_point context_id
fn removed(recorded: Record, step: Removed) -> Taken<SimpleMap>
    ensures { result ≡ removed_taken recorded step }
{
    Taken {
        compared: found(recorded, step.removed),
        state: step.map,
    }
}

// key | found entry_point context_id
fn found(recorded: Record, lookup: Option<SuspendCoreData>) -> Record
    ensures { result ≡ fold expected recorded (lookup_values lookup) }
{
    match lookup {
        Some(value) => recorded.expect_all(&[1, value.entry_point, value.context_id]),
        None => recorded.expect_all(&[0, 0, 0]),
    }
}
