// What a call answers in C, which has no `Result`: a refusal is a number there.
ghost use Rattle.std.specs.Prelude.{◌≡◌};
ghost use Rattle.column.specs.Refusals.{meant};
ghost use Rattle.firmware.specs.Calls.{answer_of};

use column::error::Refusal;

// From here on an answer is a refusal.
const REFUSED: usize = 1000;

// The number that was found, which is below 1000; or 1000 and the number of the refusal.
pub fn answer(found: Result<usize, Refusal>) -> usize
    ensures { result ≡ answer_of (meant found) }
{
    match found {
        Ok(number) => number,
        Err(refusal) => REFUSED + usize::from(refusal.number()),
    }
}
