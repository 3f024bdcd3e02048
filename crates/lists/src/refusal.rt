// Refusals and their numbers.
ghost use Rattle.std.specs.Prelude.{◌≡◌, ℕ};
ghost use Rattle.lists.specs.Refusals.{answer_number, missing_number};

// Why a call is refused.
pub trait Refusal {
    // Its number in the table of refusals.
    ghost number_of: { Self → ℕ };

    fn number(self) -> u64
        ensures { result ≡ number_of self };
}

// The number of an answer: 0 where the call is accepted.
pub fn answer_number<T: Copy, E: Refusal + Copy>(answer: Result<T, E>) -> u64
    ensures { result ≡ answer_number E.number_of answer }
{
    match answer {
        Ok(_) => 0,
        Err(error) => error.number(),
    }
}

// The number of an answer that is refused in one case: 0 where there is a value.
pub fn missing_number<T: Copy>(answer: Option<T>, refusal: u64) -> u64
    ensures { result ≡ missing_number refusal answer }
{
    match answer {
        Some(_) => 0,
        None => refusal,
    }
}
