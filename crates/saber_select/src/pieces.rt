// What a task of a selection gives, from its own rows.
ghost use Rattle.std.specs.Prelude.{◌≡◌, [], IfOk};
ghost use Rattle.saber_plan.specs.Trees.{tree_of};
ghost use Rattle.saber_plan.specs.Answers.{frame, way};
ghost use Rattle.saber_plan.specs.Windows.{mark_after, end_mark};
ghost use Rattle.saber_plan.specs.GivenRows.{RowsFit};
ghost use Rattle.saber_plan.specs.Shares.{shares_here, handed_here};
ghost use Rattle.saber_fragment.specs.Drafts.{own_sight};
ghost use Rattle.saber_fragment.specs.Shown.{shares_of};
ghost use Rattle.saber_changes.specs.Outputs.{way_by};
ghost use Rattle.saber_window.specs.Kinds.{AreBounds};
ghost use Rattle.saber_plan.specs.Inputs.{going_on};
ghost use Rattle.saber_plan.specs.Tasks.{nothing_kept};
ghost use Rattle.saber_parts.specs.Stored.{parts_by};
ghost use Rattle.saber_parts.specs.Taking.{kept_by, HasTaken};
ghost use Rattle.saber_select.specs.Found.{part_of};
ghost use Rattle.saber_select.specs.Sights.{Gives};
ghost use Rattle.saber_select.specs.Open.{seen_windows, HoldsTask};

use crate::picked::Picked;
use crate::windowed::WindowedSelect;
use saber_changes::Change;
use saber_fragment::{Block, Piece};
use saber_parts::{PartStore, handed_of_windows, piece_of_windows};
use saber_plan::NoMemory;
use saber_window::{Bounds, end_mark};
use std::alloc::Global;
use std::collections::BTreeMap;

impl WindowedSelect<'_> {
    // The rows of the windows that aren't closed before a task, and how many are begun before it
    // and closed after it.
    fn found_of(
        &self,
        alloc: Global,
        own: &Block,
    ) -> Result<(BTreeMap<u64, Picked>, Bounds), NoMemory>
        requires { RowsFit (tree_of self.now) own.now.before own.now.rows }
        ensures windows { IfOk result (λ r. HoldsTask (tree_of self.now) own.now.before own.now.rows (seen_windows r.0.entries)) }
        ensures bounds { IfOk result (λ r. AreBounds (frame (tree_of self.now)) own.now.before
            (end_mark own.now.ended (mark_after own.now.before own.now.rows)) r.1) }
    {
        let before = own.before;
        let found = self.windows_of(alloc, &before, &own.rows)?;
        let after = end_mark(own.ended, &found.1);
        let bounds = self.bounds(&before, &after);
        Ok((found.0, bounds))
    }

    /// The piece of a task where windows print their answers as they are.
    pub(crate) fn piece_of(&self, alloc: Global, own: &Block) -> Result<Piece<Picked>, NoMemory>
        requires { RowsFit (tree_of self.now) own.now.before own.now.rows }
        ensures { IfOk result (λ p. shares_of part_of p ≡ shares_here (tree_of self.now) own.now.before [] own.now.rows own.now.ended) }
    {
        let _plan = &self.plan;
        let found = self.found_of(alloc, own)?;
        let bounds = found.1;
        // That its windows rise, which the proof needs, is told by the length.
        let _count = found.0.len();
        let piece = piece_of_windows(alloc, self, &bounds, found.0)?;
        Ok(piece)
    }

    /// The piece of a task where they print what they gain or lose.
    pub(crate) fn handed_of(&self, alloc: Global, own: &Block) -> Result<Piece<Picked>, NoMemory>
        requires { RowsFit (tree_of self.now) own.now.before own.now.rows }
        ensures { IfOk result (λ p. shares_of part_of p ≡ handed_here (tree_of self.now) own.now.before [] own.now.rows own.now.ended) }
    {
        let _plan = &self.plan;
        let found = self.found_of(alloc, own)?;
        let bounds = found.1;
        // That its windows rise, which the proof needs, is told by the length.
        let _count = found.0.len();
        let piece = handed_of_windows(alloc, self, &bounds, found.0)?;
        Ok(piece)
    }

    /// Which of both it is, by what windows print.
    pub(crate) fn given_of(
        &self,
        alloc: Global,
        own: &Block,
        change: Option<Change>,
    ) -> Result<Piece<Picked>, NoMemory>
        requires fits { RowsFit (tree_of self.now) own.now.before own.now.rows }
        requires way { way (tree_of self.now) ≡ way_by change }
        ensures { IfOk result (λ p. Gives (tree_of self.now) (shares_of part_of p) (own_sight own.now)) }
    {
        match change {
            None => self.piece_of(alloc, own),
            Some(_) => self.handed_of(alloc, own),
        }
    }

    /// A store without a part, of windows that print their lines, or this change. Takes no memory.
    pub(crate) fn no_parts(&self, alloc: Global, change: Option<Change>) -> PartStore<Picked>
        requires { way (tree_of self.now) ≡ way_by change }
        ensures contents { kept_by (parts_by part_of result.parts.entries) result.output ≡ nothing_kept }
        ensures taken { HasTaken (tree_of self.now) result.output (going_on []) }
    {
        let _plan = &self.plan;
        PartStore::new(alloc, change)
    }
}
