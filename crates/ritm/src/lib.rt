// What an EL2 host in C or Rust calls: plain numbers, and bytes that it lends. A call returns 0 or the number of its refusal; a refusal leaves
// the state's bytes as they were, and a result is written whole on every call, zeros where there is nothing.

#![tactic(auto)]

ghost use Rattle.std.specs.Prelude.{◌≡◌, [], replicate};
ghost use Rattle.hypervisor.specs.Cores.{fresh_cores};
ghost use Rattle.lent_policy.specs.Layout.{policy_at, policy_size};
ghost use Rattle.lent_cores.specs.Layout.{cores_at, counter_at, cores_size};
ghost use Rattle.lent_map.specs.Layout.{map_at, map_size};
ghost use Rattle.simple_map.specs.Map.{empty_map};
ghost use Rattle.stage2.specs.Policy.{fresh_policy};
ghost use Rattle.ritm.specs.Interface.{Leaves, allow_call, handle_call, import_call, release_call, find_call, save_call, reply_call, trap_registers, trap_call, read_call, write_call, insert_call, get_call, remove_call, decode_call, extend_call, align_down_call, align_up_call, buffer_size};

use data_abort::TrapRegisters;
use lent_cores::{CORES_SIZE, REGISTERS_SIZE, TRAP_RESULT_SIZE};
use lent_map::MAP_SIZE;
use lent_policy::POLICY_SIZE;
use lent_reply::VALUES_SIZE;
use lent_words::{ONE_WORD, SIX_WORDS, THREE_WORDS};
use memory_access::{Fipa, MemoryAccess};

// No range, no region.
pub fn ritm_fresh_policy(policy: &mut [u8; POLICY_SIZE]) -> u64
    ensures { (result ≡ 0) × (policy.new ≡ replicate policy_size 0) × (policy_at policy.new ≡ fresh_policy) }
{
    *policy = [0u8; POLICY_SIZE];
    0
}

// Eight fresh cores, and the counter 0.
pub fn ritm_fresh_cores(cores: &mut [u8; CORES_SIZE]) -> u64
    ensures { (result ≡ 0)
        × (cores.new ≡ replicate cores_size 0)
        × (cores_at cores.new ≡ fresh_cores)
        × (counter_at cores.new ≡ 0) }
{
    *cores = [0u8; CORES_SIZE];
    0
}

// No entry.
pub fn ritm_fresh_map(map: &mut [u8; MAP_SIZE]) -> u64
    ensures { (result ≡ 0) × (map.new ≡ replicate map_size 0) × (map_at map.new ≡ empty_map) }
{
    *map = [0u8; MAP_SIZE];
    0
}

// Allows the guest to access a range directly: refusals 1 to 7.
pub fn ritm_allow_range(
    policy: &mut [u8; POLICY_SIZE],
    base_ipa: u64,
    size: u64,
    attributes: u64,
) -> u64
    ensures { Leaves (allow_call policy.old base_ipa size attributes) result policy.new [] }
{
    lent_policy::allow_range(policy, base_ipa, size, attributes)
}

// Has the guest's accesses to a range handled: refusals 20, 1 to 4, 6, 8, 9.
pub fn ritm_handle_range(
    policy: &mut [u8; POLICY_SIZE],
    base_ipa: u64,
    size: u64,
    read: u64,
    write: u64,
) -> u64
    ensures { Leaves (handle_call policy.old base_ipa size read write) result policy.new [] }
{
    lent_policy::handle_range(policy, base_ipa, size, read, write)
}

// Allows the memory that a board's devicetree describes, all of it or none: refusals 21, 22, then 1 to 7 of the first pair that is refused.
pub fn ritm_import_memory(policy: &mut [u8; POLICY_SIZE], blob: &[u8], attributes: u64) -> u64
    ensures { Leaves (import_call policy.old blob.now attributes) result policy.new [] }
{
    lent_import::import_memory(policy, blob, attributes)
}

// Releases the first allowed range with this base and size, or else the first such region: refusals 1 to 4, 23.
pub fn ritm_release_range(policy: &mut [u8; POLICY_SIZE], base_ipa: u64, size: u64) -> u64
    ensures { Leaves (release_call policy.old base_ipa size) result policy.new [] }
{
    lent_release::release_range(policy, base_ipa, size)
}

// The first region held that has the address: whether there is one, its place and the offset in it.
pub fn ritm_find(policy: &[u8; POLICY_SIZE], ipa: u64, res: &mut [u8; THREE_WORDS]) -> u64
    ensures { Leaves (find_call policy.now ipa) result policy.now res.new }
{
    lent_policy::find(policy, ipa, res)
}

// Puts in a core's registers as the hardware saved them: refusals 10, 11.
pub fn ritm_save(cores: &mut [u8; CORES_SIZE], core: u64, registers: &[u8; REGISTERS_SIZE]) -> u64
    ensures { Leaves (save_call cores.old core registers.now) result cores.new [] }
{
    lent_core::save(cores, core, registers)
}

// Takes a core's trap: refusals 10 to 13. The result is the answer's kind and the values of a forwarded call.
pub fn ritm_trap(
    policy: &[u8; POLICY_SIZE],
    cores: &mut [u8; CORES_SIZE],
    core: u64,
    esr: u64,
    fipa: u64,
    far: u64,
    vbar: u64,
    res: &mut [u8; TRAP_RESULT_SIZE],
) -> u64
    ensures { Leaves (trap_call policy.now cores.old core (trap_registers esr fipa far vbar)) result cores.new res.new }
{
    let fipa = Fipa(fipa);
    let trap = TrapRegisters {
        esr,
        fipa,
        far,
        vbar,
    };
    lent_trap::trap(policy, cores, core, trap, res)
}

// Gives a core the answer that it waits for: refusals 10, 14, 15.
pub fn ritm_reply(
    cores: &mut [u8; CORES_SIZE],
    core: u64,
    kind: u64,
    values: &[u8; VALUES_SIZE],
    error: i32,
) -> u64
    ensures { Leaves (reply_call cores.old core kind values.now error) result cores.new [] }
{
    lent_reply::reply(cores, core, kind, values, error)
}

// The value of a guest register: refusals 10, 17.
pub fn ritm_read_gpr(
    cores: &[u8; CORES_SIZE],
    core: u64,
    index: u64,
    res: &mut [u8; ONE_WORD],
) -> u64
    ensures { Leaves (read_call cores.now core index) result cores.now res.new }
{
    lent_core::read_gpr(cores, core, index, res)
}

// Writes a guest register: refusals 10, 17.
pub fn ritm_write_gpr(cores: &mut [u8; CORES_SIZE], core: u64, index: u64, value: u64) -> u64
    ensures { Leaves (write_call cores.old core index value) result cores.new [] }
{
    lent_core::write_gpr(cores, core, index, value)
}

// Holds an entry under a key, in place of the key's last one: refusal 16.
pub fn ritm_insert(map: &mut [u8; MAP_SIZE], key: u64, entry_point: u64, context_id: u64) -> u64
    ensures { Leaves (insert_call map.old key entry_point context_id) result map.new [] }
{
    lent_map::insert(map, key, entry_point, context_id)
}

// The entry of a key: whether there is one, its entry point and its context id.
pub fn ritm_get(map: &[u8; MAP_SIZE], key: u64, res: &mut [u8; THREE_WORDS]) -> u64
    ensures { Leaves (get_call map.now key) result map.now res.new }
{
    lent_map::get(map, key, res)
}

// The same, and the entry is held no more.
pub fn ritm_remove(map: &mut [u8; MAP_SIZE], key: u64, res: &mut [u8; THREE_WORDS]) -> u64
    ensures { Leaves (remove_call map.old key) result map.new res.new }
{
    lent_map::remove(map, key, res)
}

// The access that a syndrome describes: IPA, bits, WnR, Rt, SSE, SF; refusal 19.
pub fn ritm_decode(iss: u32, fipa: u64, far: u64, res: &mut [u8; SIX_WORDS]) -> u64
    ensures { Leaves (decode_call iss fipa far) result [] res.new }
{
    let decoded = MemoryAccess::decode(iss, Fipa(fipa), far);
    lent_words::put_six(res, memory_access::decoded_values(decoded));
    memory_access::decoded_number(decoded)
}

// What a load with this syndrome puts into its register, of the value that was read: refusal 19.
pub fn ritm_extend_read_result(iss: u32, value: u64, res: &mut [u8; ONE_WORD]) -> u64
    ensures { Leaves (extend_call iss value) result [] res.new }
{
    match MemoryAccess::decode(iss, Fipa(0), 0) {
        Some(access) => {
            lent_words::put_one_word(res, access.extend_read_result(value));
            0
        }
        None => {
            lent_words::put_one_word(res, 0);
            memory_access::decoded_number(None)
        }
    }
}

// The page boundary at or below an address.
pub fn ritm_align_down_to_page(address: u64, res: &mut [u8; ONE_WORD]) -> u64
    ensures { Leaves (align_down_call address) result [] res.new }
{
    lent_words::put_one_word(res, stage2_range::align_down_to_page(address));
    0
}

// The page boundary at or above an address: refusal 18.
pub fn ritm_align_up_to_page(address: u64, res: &mut [u8; ONE_WORD]) -> u64
    ensures { Leaves (align_up_call address) result [] res.new }
{
    let aligned = stage2_range::align_up_to_page(address);
    lent_words::put_one_word(res, stage2_range::aligned_value(aligned));
    stage2_range::aligned_number(aligned)
}

// The length in bytes of a lent buffer by its number, and 0 where there is none.
#[tactic(auto, using(std::proofs::lemmas::List::get_or_past), unfolding(crate::specs::Interface::buffer_size))]
pub fn ritm_buffer_size(buffer: u64) -> u64
    ensures { result ≡ buffer_size buffer }
{
    let sizes = [
        POLICY_SIZE as u64,
        CORES_SIZE as u64,
        MAP_SIZE as u64,
        REGISTERS_SIZE as u64,
        VALUES_SIZE as u64,
        TRAP_RESULT_SIZE as u64,
        THREE_WORDS as u64,
        THREE_WORDS as u64,
        SIX_WORDS as u64,
        ONE_WORD as u64,
    ];
    match sizes.get(buffer as usize) {
        Some(size) => *size,
        None => 0,
    }
}
