// RITM's memory_access/src/lib.rs: the guest memory access that a data abort's syndrome describes.

#![tactic(auto)]

ghost use Rattle.std.specs.Prelude.{◌≡◌, ◌-◌, ◌^◌, Some};
ghost use Rattle.memory_access.specs.Syndrome.{isv, sas, sse, srt, sf, wnr, kind_of, width_of, bits_of, fault_ipa, decode_access, kind_number, number_of, values_of};
ghost use Rattle.bits.specs.Bits.{low_bits};
ghost use Rattle.memory_access.specs.Transfer.{sign_extension, loaded, at_register_width, extend_read_result, store_value};

use lists::refusal;

// The faulting page number, as HPFAR_EL2 reports it: it counts pages.
#[derive(Clone, Copy)]
pub struct Fipa(pub u64);

// An intermediate physical address: it counts bytes.
#[derive(Clone, Copy)]
pub struct Ipa(pub u64);

// Width of a trapped guest memory access.
#[derive(Clone, Copy)]
pub enum MemoryAccessWidth {
    U8,
    U16,
    U32,
    U64,
}

impl MemoryAccessWidth {
    // The width in bits.
    pub fn bits(self) -> u32
        ensures { result ≡ bits_of self }
    {
        match self {
            MemoryAccessWidth::U8 => 8,
            MemoryAccessWidth::U16 => 16,
            MemoryAccessWidth::U32 => 32,
            MemoryAccessWidth::U64 => 64,
        }
    }

    // The mask of the bits of this width.
    pub fn mask(self) -> u64
        ensures { result ≡ 2 ^ bits_of self - 1 }
    {
        match self {
            MemoryAccessWidth::U8 => 0xFF,
            MemoryAccessWidth::U16 => 0xFFFF,
            MemoryAccessWidth::U32 => 0xFFFF_FFFF,
            MemoryAccessWidth::U64 => 0xFFFF_FFFF_FFFF_FFFF,
        }
    }
}

// Direction of a trapped memory access.
#[derive(Clone, Copy)]
pub enum MemoryAccessKind {
    Read,
    Write,
}

// A guest memory access, by what the syndrome says of it. A write names its register, and whoever holds the registers reads it.
#[derive(Clone, Copy)]
pub struct MemoryAccess {
    pub ipa: Ipa,
    pub width: MemoryAccessWidth,
    pub kind: MemoryAccessKind,
    pub register_index: usize,
    pub sign_extend: bool,
    pub register_width_64: bool,
}

// The number of a decoded access in the table of refusals: 19 where the syndrome describes none. (A function, as of each answer with one
// refusal, so that its contract cites the definition.)
pub fn decoded_number(decoded: Option<MemoryAccess>) -> u64
    ensures { result ≡ number_of decoded }
{
    refusal::missing_number(decoded, 19)
}

// A decoded access as its result fields, zeros where there is none: IPA, bits, WnR, Rt, SSE, SF.
pub fn decoded_values(decoded: Option<MemoryAccess>) -> [u64; 6]
    ensures { result ≡ values_of decoded }
{
    match decoded {
        Some(access) => access.values(),
        None => [0u64; 6],
    }
}

impl MemoryAccessKind {
    // The direction as a number: WnR. (By name: `u64::from` would not say which number it is.)
    fn number(self) -> u64
        ensures { result ≡ kind_number self }
    {
        match self {
            MemoryAccessKind::Read => 0,
            MemoryAccessKind::Write => 1,
        }
    }
}

impl MemoryAccess {
    // Its fields as numbers.
    fn values(self) -> [u64; 6]
        ensures { result ≡ values_of (Some self) }
    {
        let ipa = self.ipa;
        let width = self.width;
        let kind = self.kind;
        [
            ipa.0,
            u64::from(width.bits()),
            kind.number(),
            self.register_index as u64,
            u64::from(self.sign_extend),
            u64::from(self.register_width_64),
        ]
    }

    // Decodes the syndrome of a data abort. Without ISV the syndrome does not describe a register transfer.
    pub fn decode(iss: u32, fipa: Fipa, far: u64) -> Option<MemoryAccess>
        ensures { result ≡ decode_access iss fipa far }
    {
        if !decode_valid_instruction_syndrome(iss) {
            return None;
        }
        Some(MemoryAccess {
            ipa: decode_fault_ipa(fipa, far),
            width: decode_memory_access_width(iss),
            kind: decode_memory_access_kind(iss),
            register_index: decode_memory_access_register_index(iss),
            sign_extend: decode_memory_access_sign_extend(iss),
            register_width_64: decode_memory_access_register_width_64(iss),
        })
    }

    // What a store writes, of its register's value.
    pub fn store_value(self, register: u64) -> u64
        ensures { result ≡ store_value self register }
    {
        let width = self.width;
        low_bits(register, width)
    }

    // What a load puts into its register, of the value that was read.
    pub fn extend_read_result(self, value: u64) -> u64
        ensures { result ≡ extend_read_result self value }
    {
        let width = self.width;
        extend_read_result(value, width, self.sign_extend, self.register_width_64)
    }
}

// ESR_EL2.ISS of a data abort with a valid instruction syndrome (Arm DDI 0601, ESR_EL2).
const DATA_ABORT_ISS_ISV: u32 = 1 << 24;

const DATA_ABORT_ISS_SAS_SHIFT: u32 = 22;

const DATA_ABORT_ISS_SAS_MASK: u32 = 0b11;

const DATA_ABORT_ISS_SSE: u32 = 1 << 21;

const DATA_ABORT_ISS_SRT_SHIFT: u32 = 16;

const DATA_ABORT_ISS_SRT_MASK: u32 = 0b1_1111;

const DATA_ABORT_ISS_SF: u32 = 1 << 15;

const DATA_ABORT_ISS_WNR: u32 = 1 << 6;

// HPFAR_EL2.FIPA holds the faulting address above the page's offset; FAR_EL2 has the offset (Arm DDI 0601).
const FAULT_IPA_PAGE_SHIFT: u64 = 12;

const FAULT_IPA_PAGE_OFFSET_MASK: u64 = 0xFFF;

fn decode_valid_instruction_syndrome(iss: u32) -> bool
    ensures { result ≡ isv iss }
{
    (iss & DATA_ABORT_ISS_ISV) != 0
}

fn decode_memory_access_width(iss: u32) -> MemoryAccessWidth
    ensures { result ≡ width_of (sas iss) }
{
    match (iss >> DATA_ABORT_ISS_SAS_SHIFT) & DATA_ABORT_ISS_SAS_MASK {
        0 => MemoryAccessWidth::U8,
        1 => MemoryAccessWidth::U16,
        2 => MemoryAccessWidth::U32,
        _ => MemoryAccessWidth::U64,
    }
}

fn decode_memory_access_register_index(iss: u32) -> usize
    ensures { result ≡ srt iss }
{
    ((iss >> DATA_ABORT_ISS_SRT_SHIFT) & DATA_ABORT_ISS_SRT_MASK) as usize
}

fn decode_memory_access_kind(iss: u32) -> MemoryAccessKind
    ensures { result ≡ kind_of (wnr iss) }
{
    if decode_memory_access_is_write(iss) {
        MemoryAccessKind::Write
    } else {
        MemoryAccessKind::Read
    }
}

fn decode_memory_access_is_write(iss: u32) -> bool
    ensures { result ≡ wnr iss }
{
    (iss & DATA_ABORT_ISS_WNR) != 0
}

fn decode_memory_access_sign_extend(iss: u32) -> bool
    ensures { result ≡ sse iss }
{
    (iss & DATA_ABORT_ISS_SSE) != 0
}

fn decode_memory_access_register_width_64(iss: u32) -> bool
    ensures { result ≡ sf iss }
{
    (iss & DATA_ABORT_ISS_SF) != 0
}

fn decode_fault_ipa(fipa: Fipa, far: u64) -> Ipa
    ensures { result ≡ fault_ipa fipa far }
{
    Ipa((fipa.0 << FAULT_IPA_PAGE_SHIFT) | (far & FAULT_IPA_PAGE_OFFSET_MASK))
}

fn extend_read_result(
    value: u64,
    width: MemoryAccessWidth,
    sign_extend: bool,
    register_width_64: bool,
) -> u64
    ensures { result ≡ at_register_width register_width_64 (loaded (bits_of width) sign_extend value) }
{
    let extended = loaded_bits(value, width, sign_extend);
    if register_width_64 {
        extended
    } else {
        extended & 0xFFFF_FFFF
    }
}

fn loaded_bits(value: u64, width: MemoryAccessWidth, sign_extend: bool) -> u64
    ensures { result ≡ loaded (bits_of width) sign_extend value }
{
    if sign_extend {
        sign_extended(value, width)
    } else {
        low_bits(value, width)
    }
}

fn low_bits(value: u64, width: MemoryAccessWidth) -> u64
    ensures { result ≡ low_bits (bits_of width) value }
{
    value & width.mask()
}

fn sign_extended(value: u64, width: MemoryAccessWidth) -> u64
    ensures { result ≡ sign_extension (bits_of width) value }
{
    let mask = width.mask();
    let low = low_bits(value, width);
    // the sign bit is clear in the lower half of the numbers of this width
    if low <= mask / 2 {
        low
    } else {
        low + (0xFFFF_FFFF_FFFF_FFFF - mask)
    }
}
