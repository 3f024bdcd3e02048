// The records of calls without state: b to e.
ghost use Rattle.std.specs.Prelude.{◌≡◌, fold};
ghost use Rattle.records.specs.Records.{expected};
ghost use Rattle.memory_access.specs.Transfer.{extended_value};
ghost use Rattle.recorded_calls.specs.Values.{iss_compared, decoded_words, extended_words, aligned_words, value_compared};

use memory_access::{Fipa, MemoryAccess};
use records::{Call, Record};

// Makes the record's call; a record of something else passes as it is.
#[tactic(auto, unfolding(crate::specs::Values::value_compared))]
pub fn take(recorded: Record, call: Call) -> Record
    ensures { result ≡ value_compared recorded call }
{
    let a = call.a;
    let code = call.code;
    match code {
        0xB => decode(recorded, a, call.b, call.c),
        0xC => extend(recorded, a, call.b),
        0xD => recorded.expect(stage2_range::align_down_to_page(a)),
        0xE => aligned(recorded, stage2_range::align_up_to_page(a)),
        _ => recorded,
    }
}

// iss fipa far | number ipa bits wnr rt sse sf
fn decode(recorded: Record, iss: u64, fipa: u64, far: u64) -> Record
    ensures { result ≡ iss_compared (decoded_words fipa far) recorded iss }
{
    let Ok(iss) = u32::try_from(iss) else {
        return recorded.no_record();
    };
    let decoded = MemoryAccess::decode(iss, Fipa(fipa), far);
    recorded
        .expect(memory_access::decoded_number(decoded))
        .expect_all(&memory_access::decoded_values(decoded))
}

// iss value | number value
fn extend(recorded: Record, iss: u64, value: u64) -> Record
    ensures { result ≡ iss_compared (extended_words value) recorded iss }
{
    let Ok(iss) = u32::try_from(iss) else {
        return recorded.no_record();
    };
    let decoded = MemoryAccess::decode(iss, Fipa(0), 0);
    recorded
        .expect(memory_access::decoded_number(decoded))
        .expect(extended(decoded, value))
}

// What the load puts into its register, 0 where the syndrome describes none.
fn extended(decoded: Option<MemoryAccess>, value: u64) -> u64
    ensures { result ≡ extended_value decoded value }
{
    decoded.map_or(0, |access| access.extend_read_result(value))
}

// address | number value
fn aligned(recorded: Record, aligned: Option<u64>) -> Record
    ensures { result ≡ fold expected recorded (aligned_words aligned) }
{
    recorded
        .expect(stage2_range::aligned_number(aligned))
        .expect(stage2_range::aligned_value(aligned))
}
