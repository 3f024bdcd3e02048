// A reply to a forwarded call on the bytes that a host lends, in place: it stores the registers that the reply writes, ELR and the wait, and makes the
// decisions of `forwarded_call` and `hvc_response`.
// (A call answers the number of its refusal, and no `Result`: `ritm` hands the number to C.)

#![tactic(auto)]

ghost use Rattle.std.specs.Prelude.{◌≡◌, [], ◌+◌, ◌<◌, ◌≤◌};
ghost use Rattle.lent_words.specs.Words.{words_at, with_word, with_words, store_each, Leaves};
ghost use Rattle.lent_cores.specs.Layout.{held_core, with_core};
ghost use Rattle.hvc_response.specs.Response.{reply_length, response, with_first};
ghost use Rattle.forwarded_call.specs.ForwardedCall.{resumed};
ghost use Rattle.lent_reply.specs.LentReply.{reply_call};

use core_answers::CoreError;
use exceptions::Conduit;
use hvc_response::{HvcResult, NOT_SUPPORTED, REPLY_VALUES};
use lent_cores::{CORE_WORDS, CORES_SIZE, ELR_WORD, LAST_CORE, WAIT_CODES, WAIT_WORD};
use lists::refusal::Refusal;

// The length of the buffer of a reply's values, in bytes.
pub const VALUES_SIZE: usize = 8 * REPLY_VALUES;

// Stores values of a reply from one on, in the words of their numbers. They are read before the first store, so that two words go at a time.
fn put_values<const COUNT: usize>(
    cores: &mut [u8; CORES_SIZE],
    at: usize,
    values: &[u8; VALUES_SIZE],
    from: usize,
)
    requires { (at ≤ 266) × (from ≤ reply_length) × (COUNT ≤ reply_length) }
    ensures { cores.new
        ≡ store_each (λ b j w. with_word b (at + (from + j)) w) cores.old 0 (words_at values.now from COUNT) }
{
    let read: [u64; COUNT] = lent_cores::get_words(values, from);
    for (i, value) in read.iter().enumerate() {
        lent_words::put_word(cores, at + (from + i), *value);
    }
}

// Stores a result from x0 on, by the SMCCC's convention. The counts are constants, so that no loop is left, and eighteen values go in two parts, of which
// none is long enough for a call of `memmove`.
#[tactic(auto, unfolding(hvc_response::specs::Response::response))]
fn modify_register_state(
    cores: &mut [u8; CORES_SIZE],
    at: usize,
    res: HvcResult,
    values: &[u8; VALUES_SIZE],
)
    requires { at ≤ 266 }
    ensures { cores.new ≡ with_words cores.old at (response res (words_at values.now 0 reply_length)) }
{
    match res {
        HvcResult::Unhandled => {
            lent_words::put_word(cores, at, hvc_response::error_to_u64(NOT_SUPPORTED));
        }
        HvcResult::Value(value) => {
            lent_words::put_word(cores, at, value);
            lent_words::put_word(cores, at + 1, 0);
            lent_words::put_word(cores, at + 2, 0);
            lent_words::put_word(cores, at + 3, 0);
        }
        HvcResult::Success => put_values::<4>(cores, at, values, 0),
        HvcResult::SuccessLarge => {
            put_values::<4>(cores, at, values, 0);
            put_values::<14>(cores, at, values, 4);
        }
        HvcResult::Error(error) => {
            lent_words::put_word(cores, at, hvc_response::error_to_u64(error));
        }
    }
}

// Stores what a reply writes: its registers, ELR, and that the core waits no more.
#[tactic(auto, using(crate::proofs::Laws::reply_put))]
fn put_reply(
    cores: &mut [u8; CORES_SIZE],
    core: u64,
    conduit: Conduit,
    res: HvcResult,
    values: &[u8; VALUES_SIZE],
)
    requires { core < 8 }
    ensures { cores.new
        ≡ with_core cores.old core (resumed conduit (with_first (held_core cores.old core) (response res (words_at values.now 0 reply_length)))) }
{
    lent_words::are_bytes(cores);
    let at = CORE_WORDS * core as usize;
    let elr = forwarded_call::resumed_elr(conduit, lent_core::get_elr(cores, core));
    let code = lent_words::kept_code(lent_words::get_word(cores, at + WAIT_WORD), WAIT_CODES, 0);
    modify_register_state(cores, at, res, values);
    lent_words::put_word(cores, at + ELR_WORD, elr);
    lent_words::put_word(cores, at + WAIT_WORD, code);
}

// Gives a core the answer that it waits for: refusals 10, 14, 15.
#[tactic(auto, using(crate::proofs::Laws::reply_none, crate::proofs::Laws::reply_one, core_answers::proofs::Laws::error_not_zero))]
pub fn reply(
    cores: &mut [u8; CORES_SIZE],
    core: u64,
    kind: u64,
    values: &[u8; VALUES_SIZE],
    error: i32,
) -> u64
    ensures { Leaves (reply_call cores.old core kind values.now error) result cores.new [] }
{
    if LAST_CORE < core {
        return CoreError::NoSuchCore.number();
    }
    let wait = lent_core::get_wait(cores, core);
    match forwarded_call::decide_reply(wait, kind, lent_words::get_word(values, 0), error) {
        Ok((result, conduit)) => {
            put_reply(cores, core, conduit, result, values);
            0
        }
        Err(refusal) => refusal.number(),
    }
}
