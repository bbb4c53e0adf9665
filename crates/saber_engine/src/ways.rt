// How a plan answers, which tells its operator.
ghost use Rattle.std.specs.Prelude.{◌≡◌, [], Some};
ghost use Rattle.saber_plan.specs.Trees.{tree_of};
ghost use Rattle.saber_plan.specs.Checked.{IsChecked};
ghost use Rattle.saber_plan.specs.Answers.{way, way_of};
ghost use Rattle.saber_engine.specs.Ways.{way_by};

use saber_changes::Change;
use saber_plan::{Plan, Word};

/// What a query prints (CQL 2006: relation to stream).
#[derive(Clone, Copy)]
pub(crate) enum Way {
    /// The answers of each window, or each row: without a stream word, and under RSTREAM.
    Alike,
    /// The answers of each window of each key list: PARTITION BY.
    ByList,
    /// What each window gains or loses: ISTREAM and DSTREAM.
    Changing(Change),
}

// The way of a plan with this stream word, which has no PARTITION BY.
fn way_under(word: Word) -> Way
    ensures { way_by result ≡ way_of [] (Some word) }
{
    match word {
        Word::Rstream => Way::Alike,
        Word::Istream => Way::Changing(Change::Gained),
        Word::Dstream => Way::Changing(Change::Lost),
    }
}

/// The way of a plan.
pub(crate) fn way_of(plan: &Plan) -> Way
    ensures way { way_by result ≡ way (tree_of plan.now) }
    ensures checked { IsChecked (tree_of plan.now) }
{
    match plan.partition() {
        [] => match plan.word() {
            None => Way::Alike,
            Some(word) => way_under(word),
        },
        [_first, ..] => Way::ByList,
    }
}
