// The rows of a task, one by one and some at once.
ghost use Rattle.std.specs.Prelude.{◌≡◌, ◌<◌, ◌≤◌, length, take};
ghost use Rattle.saber_plan.specs.Windows.{mark_after};
ghost use Rattle.saber_plan.specs.Answers.{frame};
ghost use Rattle.saber_plan.specs.Trees.{tree_of};
ghost use Rattle.saber_plan.specs.GivenRows.{RowsFit};
ghost use Rattle.saber_window.specs.Together.{LieTogether};

use crate::batch::Batch;
use crate::group::Group;
use saber_plan::Mark;
use saber_window::mark_behind;

impl Group<'_> {
    /// Where the rows end that lie in the same windows as row `from`, from there on, before which
    /// `mark` stands.
    pub(crate) fn slice_end(&self, batch: &Batch, from: usize, mark: &Mark) -> usize
        requires fits { RowsFit (tree_of self.now) batch.now.before batch.now.rows.now }
        requires there { from < length batch.now.rows.now }
        requires mark { mark.now ≡ mark_after batch.now.before (take from batch.now.rows.now) }
        ensures more { from < result }
        ensures within { result ≤ length batch.now.rows.now }
        ensures together { LieTogether (frame (tree_of self.now)) mark.now batch.now.rows.now from result }
    {
        self.windows.slice_end(batch.rows, from, mark)
    }

    /// The mark behind the rows up to row `end`, of which `mark` has those up to row `from`.
    pub(crate) fn mark_behind(&self, batch: &Batch, from: usize, end: usize, mark: &Mark) -> Mark
        requires fits { RowsFit (tree_of self.now) batch.now.before batch.now.rows.now }
        requires more { from < end }
        requires within { end ≤ length batch.now.rows.now }
        requires mark { mark.now ≡ mark_after batch.now.before (take from batch.now.rows.now) }
        ensures { result ≡ mark_after batch.now.before (take end batch.now.rows.now) }
    {
        let _plan = &self.plan;
        mark_behind(mark, batch.rows, from, end)
    }
}
