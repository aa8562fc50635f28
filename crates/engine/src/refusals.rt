// The tests that a call makes before it does anything, each with its refusal.
ghost use Rattle.std.specs.Prelude.{◌≡◌, cond, nat_lt, Some, None};
ghost use Rattle.engine.specs.Questions.{answered, asked_at, beyond};

use book::{Layer, QuestionCause, Refusal};

// A refusal at the layer of questions.
pub(crate) fn refused(place: usize, cause: QuestionCause) -> Refusal
    ensures { result ≡ asked_at place cause }
{
    Refusal {
        layer: Layer::Question { place, cause },
    }
}

// Refuses a number that is not below `end`.
pub(crate) fn listed(number: usize, end: usize) -> Result<(), Refusal>
    ensures { result ≡ answered (beyond number end) tt }
{
    if number < end {
        Ok(())
    } else {
        Err(refused(number, QuestionCause::NotInBook))
    }
}

// Refuses fewer cells, or places of output, than needed.
pub(crate) fn enough(need: usize, given: usize, cause: QuestionCause) -> Result<(), Refusal>
    ensures { result ≡ answered (cond (nat_lt given need) (Some (asked_at need cause)) None) tt }
{
    if given < need {
        Err(refused(need, cause))
    } else {
        Ok(())
    }
}
