// How numbers take in those of later rows.
ghost use Rattle.std.specs.Prelude.{◌≡◌};
ghost use Rattle.saber_plan.specs.Answers.{step};
ghost use Rattle.saber_partial.specs.Gathering.{FitsStep};

use saber_plan::Fold;

/// A number, with that of later rows taken in.
#[inline(always)]
pub(crate) fn step(fold: Fold, x: i128, y: i128) -> i128
    requires { FitsStep fold x y }
    ensures { result ≡ step fold x y }
{
    match fold {
        Fold::Sum => x + y,
        Fold::Min => { if y < x { y } else { x } }
        Fold::Max => { if x < y { y } else { x } }
        Fold::First => x,
    }
}
