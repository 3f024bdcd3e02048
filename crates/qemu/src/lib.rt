// RITM's src/platform/qemu.rs, of which the filtered MMIO page (document 01: the filtered page) is carried over.

#![tactic(auto)]

ghost use Rattle.std.specs.Prelude.{◌≡◌, ◌==◌};
ghost use Rattle.qemu.specs.FilteredMmio.{page_word, counter_after, read_filtered_mmio, write_filtered_mmio};

use memory_access::MemoryAccessWidth;
use stage2_range::{MemoryReadAccess, MemoryReadResult, MemoryWriteAccess, MemoryWriteResult};

// What a load gives, and the counter then.
#[derive(Clone, Copy)]
pub struct FilteredRead {
    pub result: MemoryReadResult,
    pub counter: u64,
}

impl FilteredRead {
    fn new(res: MemoryReadResult, counter: u64) -> Self
        ensures { result ≡ record { result = res; counter = counter } }
    {
        FilteredRead {
            result: res,
            counter,
        }
    }
}

// A load from the filtered page. `counter` is RITM's FILTERED_MMIO_COUNTER.
#[tactic(auto, unfolding(crate::specs::FilteredMmio::read_filtered_mmio, crate::specs::FilteredMmio::loads_counter, crate::specs::FilteredMmio::counter_after))]
pub fn read_filtered_mmio(access: MemoryReadAccess, counter: u64) -> FilteredRead
    ensures { result ≡ read_filtered_mmio access counter }
{
    let width = access.width;
    let read = read_word(access.offset, counter);
    if width.bits() == 64 {
        read
    } else {
        FilteredRead::new(MemoryReadResult::Fault, counter)
    }
}

// A 64-bit load: the word at an offset, and the counter then.
#[tactic(auto, unfolding(crate::specs::FilteredMmio::page_word, crate::specs::FilteredMmio::counter_after))]
fn read_word(offset: u64, counter: u64) -> FilteredRead
    ensures { result ≡ record { result = page_word offset counter; counter = counter_after (offset == 16) counter } }
{
    match offset {
        0 => FilteredRead::new(MemoryReadResult::Value(0xFEED_FACE_CAFE_BEEF), counter),
        16 => FilteredRead::new(
            MemoryReadResult::Value(counter),
            std::num::wrapping_add_u64(counter, 1),
        ),
        24 => FilteredRead::new(MemoryReadResult::Value(0x1111_2222_3333_4444), counter),
        32 => FilteredRead::new(MemoryReadResult::Value(0x5555_6666_7777_8888), counter),
        40 => FilteredRead::new(MemoryReadResult::Value(0x9999_AAAA_BBBB_CCCC), counter),
        _ => FilteredRead::new(MemoryReadResult::Fault, counter),
    }
}

// A store to the filtered page.
#[tactic(auto, unfolding(crate::specs::FilteredMmio::write_filtered_mmio))]
pub fn write_filtered_mmio(access: MemoryWriteAccess) -> MemoryWriteResult
    ensures { result ≡ write_filtered_mmio access }
{
    let width = access.width;
    if width.bits() != 64 {
        return MemoryWriteResult::Fault;
    }
    if access.offset != 8 {
        return MemoryWriteResult::Fault;
    }
    if access.value != 0x1234_5678_9ABC_DEF0 {
        return MemoryWriteResult::Fault;
    }
    MemoryWriteResult::Handled
}
