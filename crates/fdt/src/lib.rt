// The memory of a flattened devicetree (Devicetree Specification, chapter 5, header version 17), in two passes over the structure block:
// `read_memory` judges it with a small state; `next_pair` then hands out one pair of an address and a size at a time.
// (What bounds a block or a slice stands in each private contract: a type for it would be built for one call, and each clause would say
// `block.bytes`.)

#![tactic(auto)]

ghost use Rattle.std.specs.Prelude.{◌≡◌, ◌+◌, ◌-◌, ◌/◌, ◌^◌, ◌<◌, ◌≤◌, false, true, [], ◌∷◌, ◌++◌, length, drop, MatchOption};
ghost use Rattle.fdt.specs.Passes.{lex_at, judged_block, cells_at, reg_pairs, pair_of, pairs_from, left_in, handed};
ghost use Rattle.fdt.specs.Blob.{cursor_at, zero_entry, list_ends, header_ok, blob_memory, memory_of, part, inside_of, pairs_left};

use fdt_nodes::{DevicetreeError, Scan, bytes_of_pair, cells_width, judge, start};
use fdt_tokens::{Lexed, Lexer, be32, lex_word};

// The four bytes at `at`.
fn lex_at(lexer: Lexer, block: &[u8], at: usize) -> Lexed
    requires { at + 4 ≤ length block.now }
    ensures { result ≡ lex_at lexer block.now at }
{
    lex_word(
        lexer,
        block[at],
        block[at + 1],
        block[at + 2],
        block[at + 3],
    )
}

// The first pass: the structure block, whole.
#[tactic(auto, using(crate::proofs::Laws::scan_refused, crate::proofs::Laws::scan_judged), unfolding(crate::specs::Passes::judged_block, fdt_nodes::specs::Scan::started))]
fn judge_block(block: &[u8], strings: &[u8]) -> Result<(), DevicetreeError>
    requires { length block.now ≤ 65536 }
    ensures { result ≡ judged_block block.now strings.now }
{
    // (Two variables: with one `Scan` that the loops change an import takes 8 in 100 instructions more.)
    let Scan {
        mut lexer,
        mut nodes,
    } = start();
    for word in 0..block.len() / 4 {
        let lexed = lex_at(lexer, block, 4 * word);
        lexer = lexed.lexer;
        // (Most words complete no token: without this test an import takes a third more instructions.)
        if lexed.event.is_some() {
            nodes.met(block, strings, (4 * word + 4) as u32, lexed.event);
        }
    }
    if block.len() % 4 != 0 {
        return Err(DevicetreeError::Invalid);
    }
    judge(lexer, nodes)
}

// A place after the end of a memory child that has a pair.
#[derive(Clone, Copy)]
pub struct Found {
    pub at: usize,
    pub scan: Scan,
}

// The second pass: the next memory child that has a pair.
#[tactic(auto, using(crate::proofs::Laws::pairs_none, crate::proofs::Laws::pairs_hit, crate::proofs::Laws::pairs_miss, crate::proofs::Laws::pairs_skip))]
fn next_reg(block: &[u8], strings: &[u8], from: usize, scan: Scan) -> Option<Found>
    requires { length block.now ≤ 65536 }
    ensures { MatchOption result
        (pairs_from block.now strings.now from scan.lexer scan.nodes (drop from block.now) ≡ [])
        (λ found. pairs_from block.now strings.now from scan.lexer scan.nodes (drop from block.now)
        ≡ reg_pairs block.now found.scan.nodes ++ pairs_from block.now strings.now found.at found.scan.lexer found.scan.nodes (drop found.at block.now)) }
{
    let Scan {
        mut lexer,
        mut nodes,
    } = scan;
    for word in 0..block.len().saturating_sub(from) / 4 {
        let at = from + 4 * word;
        let lexed = lex_at(lexer, block, at);
        lexer = lexed.lexer;
        if lexed.event.is_some() {
            nodes.met(block, strings, (at + 4) as u32, lexed.event);
            if nodes.at_pair(lexed.event) {
                return Some(Found {
                    at: at + 4,
                    scan: Scan { lexer, nodes },
                });
            }
        }
    }
    None
}

// A number of one or two cells.
#[tactic(auto, unfolding(crate::specs::Passes::cells_at))]
fn cells(s: &[u8], at: usize, n: u32) -> u64
    requires { at + 4 < 2 ^ 64 }
    ensures { result ≡ cells_at s.now at n }
{
    let first = u64::from(be32(s, at));
    if n == 1 {
        first
    } else {
        first * 0x1_0000_0000 + u64::from(be32(s, at + 4))
    }
}

// What is left of the second pass: of a reg the `left` bytes from `place` on, then the block from `at` on.
#[derive(Clone, Copy)]
pub struct Walk {
    pub at: usize,
    pub scan: Scan,
    pub place: u32,
    pub left: u32,
}

// A pair, and what is left after it: a walk, or the cursor that has it.
#[derive(Clone, Copy)]
pub struct Next<C> {
    pub base: u64,
    pub size: u64,
    pub after: C,
}

// The pair at `place`, after which `left` bytes are left in its reg.
#[tactic(auto, unfolding(crate::specs::Passes::handed))]
fn hand_out(block: &[u8], walk: Walk, place: u32, left: u32) -> Next<Walk>
    ensures { result ≡ handed block.now walk place left }
{
    let address = walk.scan.nodes.address.value;
    let size = walk.scan.nodes.size.value;
    let at = place as usize;
    let mut w = walk;
    w.place = place.wrapping_add(bytes_of_pair(address, size));
    w.left = left;
    Next {
        base: cells(block, at, address),
        size: cells(block, at + cells_width(address) as usize, size),
        after: w,
    }
}

// The next pair: of the reg that the walk is in, or of the next memory child that has one.
#[tactic(auto, using(crate::proofs::Laws::out_of_reg, crate::proofs::Laws::out_of_none, crate::proofs::Laws::out_of_next))]
fn next_in(block: &[u8], strings: &[u8], walk: Walk) -> Option<Next<Walk>>
    requires { length block.now ≤ 65536 }
    ensures { MatchOption result
        (left_in block.now strings.now walk ≡ [])
        (λ next. left_in block.now strings.now walk ≡ pair_of next.base next.size ∷ left_in block.now strings.now next.after) }
{
    let bytes = bytes_of_pair(walk.scan.nodes.address.value, walk.scan.nodes.size.value);
    if bytes <= walk.left {
        return Some(hand_out(block, walk, walk.place, walk.left - bytes));
    }
    let found = next_reg(block, strings, walk.at, walk.scan)?;
    let nodes = found.scan.nodes;
    let pair = bytes_of_pair(nodes.address.value, nodes.size.value);
    let left = nodes.reg.length.saturating_sub(pair);
    let after = Walk {
        at: found.at,
        scan: found.scan,
        place: 0,
        left: 0,
    };
    Some(hand_out(block, after, nodes.reg.value, left))
}

// Where a block stands in the slice.
#[derive(Clone, Copy)]
pub struct Part {
    pub from: usize,
    pub to: usize,
}

impl Part {
    // Its bytes, where it lies in the slice and ends at 64 KiB at most.
    #[tactic(auto, unfolding(crate::specs::Blob::inside_of))]
    fn bytes(self, s: &[u8]) -> Option<&[u8]>
        ensures { MatchOption result
            (inside_of (length s.now) self.from self.to ≡ false)
            (λ bytes. (inside_of (length s.now) self.from self.to ≡ true) × ((bytes.now ≡ part s.now self.from self.to) × (length bytes.now ≤ 65536))) }
    {
        if 65536 < self.to {
            return None;
        }
        s.get(self.from..self.to)
    }
}

// The structure block and the strings block.
#[derive(Clone, Copy)]
pub struct Blocks {
    pub block: Part,
    pub strings: Part,
}

// A place among the pairs of a slice.
#[derive(Clone, Copy)]
pub struct Cursor {
    pub blocks: Blocks,
    pub walk: Walk,
}

// The place before the first pair.
fn first_pair(blocks: Blocks) -> Cursor
    ensures { result ≡ cursor_at blocks }
{
    Cursor {
        blocks,
        walk: Walk {
            at: 0,
            scan: start(),
            place: 0,
            left: 0,
        },
    }
}

// Whether sixteen zero bytes stand at `at`. (The words of one slice: of four places of `s` each would be tested against its end twice, and
// a long list would take twice the instructions.)
#[tactic(auto, using(crate::proofs::Laws::entry_word), unfolding(crate::specs::Blob::zero_entry))]
fn zero_entry(s: &[u8], at: usize) -> bool
    requires { at ≤ length s.now }
    ensures { result ≡ zero_entry s.now at }
{
    let rest = &s[at..];
    be32(rest, 0) == 0 && be32(rest, 4) == 0 && be32(rest, 8) == 0 && be32(rest, 12) == 0
}

// Whether the reservation list from `from` on has its end before `total`.
#[tactic(auto, using(crate::proofs::Laws::entry_here, crate::proofs::Laws::entry_later, crate::proofs::Laws::entry_done), unfolding(crate::specs::Blob::list_ends))]
fn reservations_end(s: &[u8], from: usize, total: usize) -> bool
    requires { total ≤ length s.now }
    ensures { result ≡ list_ends s.now from ((total - from) / 16) }
{
    for entry in 0..total.saturating_sub(from) / 16 {
        if zero_entry(s, from + 16 * entry) {
            return true;
        }
    }
    false
}

// Magic, versions, alignment and the reservation list.
#[tactic(auto, unfolding(crate::specs::Blob::header_ok))]
fn header_ok(s: &[u8], total: usize) -> bool
    requires { total ≤ length s.now }
    ensures { result ≡ header_ok s.now total }
{
    let reserved = be32(s, 16);
    be32(s, 0) == 0xD00D_FEED
        && 17 <= be32(s, 20)
        && be32(s, 24) <= 17
        && reserved % 8 == 0
        && be32(s, 8) % 4 == 0
        && reservations_end(s, reserved as usize, total)
}

// The memory of the blob that is the slice's first `total` bytes.
#[tactic(auto, unfolding(crate::specs::Blob::blob_memory, crate::specs::Blob::blocks_memory, crate::specs::Blob::memory_by))]
fn blob_memory(s: &[u8], total: usize) -> Result<Cursor, DevicetreeError>
    requires { (total ≤ length s.now) × (total ≤ 65536) }
    ensures { result ≡ blob_memory s.now total }
{
    if !header_ok(s, total) {
        return Err(DevicetreeError::Invalid);
    }
    let struct_at = be32(s, 8) as usize;
    let struct_end = struct_at + be32(s, 36) as usize;
    let strings_at = be32(s, 12) as usize;
    let strings_end = strings_at + be32(s, 32) as usize;
    if total < struct_end || total < strings_end {
        return Err(DevicetreeError::Invalid);
    }
    judge_block(&s[struct_at..struct_end], &s[strings_at..strings_end])?;
    Ok(first_pair(Blocks {
        block: Part {
            from: struct_at,
            to: struct_end,
        },
        strings: Part {
            from: strings_at,
            to: strings_end,
        },
    }))
}

// The memory of the blob at the front of a slice: the place before the first pair, or why there are none.
#[tactic(auto, unfolding(crate::specs::Blob::memory_of))]
pub fn read_memory(s: &[u8]) -> Result<Cursor, DevicetreeError>
    ensures { result ≡ memory_of s.now }
{
    if s.len() < 40 {
        return Err(DevicetreeError::Invalid);
    }
    let total = be32(s, 4) as usize;
    if total < 40 || 65536 < total || s.len() < total {
        return Err(DevicetreeError::Invalid);
    }
    blob_memory(s, total)
}

// The next pair of the slice that the cursor was made for. Of another slice it hands out something, or nothing.
#[tactic(auto, using(crate::proofs::Laws::left_outside, crate::proofs::Laws::left_outside_strings, crate::proofs::Laws::left_inside, crate::proofs::Laws::left_inside_none))]
pub fn next_pair(s: &[u8], cursor: Cursor) -> Option<Next<Cursor>>
    ensures { MatchOption result
        (pairs_left s.now cursor ≡ [])
        (λ next. pairs_left s.now cursor ≡ pair_of next.base next.size ∷ pairs_left s.now next.after) }
{
    let blocks = cursor.blocks;
    let block = blocks.block.bytes(s)?;
    let strings = blocks.strings.bytes(s)?;
    let next = next_in(block, strings, cursor.walk)?;
    Some(Next {
        base: next.base,
        size: next.size,
        after: Cursor {
            blocks,
            walk: next.after,
        },
    })
}
