// RITM's src/hvc_response.rs: what a call's result does to the saved registers.

#![tactic(auto)]

ghost use Rattle.std.specs.Prelude.{◌≡◌, ◌≤◌, length};
ghost use Rattle.hvc_response.specs.Response.{signed_word, with_first, response, result_of_kind};

use core_answers::CoreError;
use exceptions::Core;

// The values of the longest reply.
pub const REPLY_VALUES: usize = 18;

// The result of a forwarded call (document 01: a reply): RITM's `HvcResult` and `HvcResponse` in one. The four or eighteen values of a
// success stand beside it, since a host lends them whatever the kind.
#[derive(Clone, Copy)]
pub enum HvcResult {
    Unhandled,
    Value(u64),
    Success,
    SuccessLarge,
    Error(i32),
}

// SMCCC's NOT_SUPPORTED (Arm DEN0028).
pub const NOT_SUPPORTED: i32 = -1;

impl HvcResult {
    // The result that a reply's kind names, with the value or the error where the kind has one.
    #[tactic(auto, using(crate::proofs::Laws::unknown_kind), unfolding(crate::specs::Response::result_of_kind))]
    pub fn from_kind(kind: u64, value: u64, error: i32) -> Result<HvcResult, CoreError>
        ensures { result ≡ result_of_kind kind value error }
    {
        match kind {
            0 => Ok(HvcResult::Unhandled),
            1 => Ok(HvcResult::Value(value)),
            2 => Ok(HvcResult::Success),
            3 => Ok(HvcResult::SuccessLarge),
            4 => Ok(HvcResult::Error(error)),
            _ => Err(CoreError::UnknownReplyKind),
        }
    }

    // Applies the result to the saved registers, by the SMCCC's convention.
    #[tactic(auto, unfolding(crate::specs::Response::response))]
    pub fn modify_register_state(self, core: Core, values: [u64; REPLY_VALUES]) -> Core
        ensures { result ≡ with_first core (response self values) }
    {
        match self {
            HvcResult::Unhandled => write_response_registers(core, &[error_to_u64(NOT_SUPPORTED)]),
            HvcResult::Value(value) => write_response_registers(core, &[value, 0, 0, 0]),
            HvcResult::Success => write_response_registers(core, &values[..4]),
            HvcResult::SuccessLarge => write_response_registers(core, &values),
            HvcResult::Error(error) => write_response_registers(core, &[error_to_u64(error)]),
        }
    }
}

// Writes the results to x0 and the registers after it.
#[tactic(auto, using(crate::proofs::Laws::copies), unfolding(exceptions::specs::Registers::with_registers))]
fn write_response_registers(core: Core, results: &[u64]) -> Core
    requires { length results.now ≤ 18 }
    ensures { result ≡ with_first core results.now }
{
    let mut x = core.x;
    x[..results.len()].copy_from_slice(results);
    Core { x, ..core }
}

// The error, sign-extended.
#[tactic(auto, using(crate::proofs::Laws::error_word))]
pub fn error_to_u64(error: i32) -> u64
    ensures { result ≡ signed_word error }
{
    i64::from(error).cast_unsigned()
}
