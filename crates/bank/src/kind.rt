// The kinds of steps.
ghost use Rattle.std.specs.Prelude.{◌≡◌};
ghost use Rattle.bank.specs.StepKinds.{is_take, is_move};

use crate::bank::Step;

// Whether the step takes a packet.
pub(crate) fn is_take(x: Step) -> bool
    ensures { result ≡ is_take x }
{
    matches!(x, Step::Take(_))
}

// Whether the step rewrites the place of one column alone, whose step it is.
pub fn is_move(x: Step) -> bool
    ensures { result ≡ is_move x }
{
    !matches!(x, Step::Halt(_) | Step::Back(_) | Step::Write(..))
}
