// What a task of a join gives.
use crate::back::mark_before;
use crate::draft::JoinDraft;
use crate::join::Join;
use crate::pairs::Pairs;
use saber_changes::Change;
use saber_fragment::Piece;
use saber_parts::{PartStore, handed_of_windows, piece_of_windows};
use saber_plan::NoMemory;
use saber_window::{Bounds, end_mark};
use std::alloc::Global;
use std::collections::BTreeMap;

impl Join<'_> {
    ghost use Rattle.std.specs.Prelude.{◌≡◌, ℕ, [], IfOk};
    ghost use Rattle.saber_plan.specs.Inputs.{Input, going_on};
    ghost use Rattle.saber_plan.specs.Tasks.{nothing_kept};
    ghost use Rattle.saber_plan.specs.Trees.{tree_of};
    ghost use Rattle.saber_plan.specs.Answers.{way};
    ghost use Rattle.saber_plan.specs.Shares.{shares_between, handed_between};
    ghost use Rattle.saber_fragment.specs.Drafts.{Sight, IsWhole, IsSightOf};
    ghost use Rattle.saber_fragment.specs.Shown.{shares_of};
    ghost use Rattle.saber_changes.specs.Outputs.{way_by};
    ghost use Rattle.saber_parts.specs.Stored.{parts_by};
    ghost use Rattle.saber_parts.specs.Taking.{kept_by, HasTaken, IsGiven};
    ghost use Rattle.saber_join.specs.Sights.{HasSeen};
    ghost use Rattle.saber_join.specs.Pieces.{AreOfTask};

    // The windows of a task whose blocks are all in, and how many are begun before it and closed
    // after it.
    fn task_windows(
        &self,
        alloc: Global,
        draft: &JoinDraft,
    ) -> Result<(Bounds, BTreeMap<u64, Pairs>), NoMemory>
        requires { (s : Sight) × HasSeen (tree_of self.now) draft.now s × IsWhole (tree_of self.now) s }
        ensures { IfOk result (λ f. (s : Sight) → HasSeen (tree_of self.now) draft.now s → IsWhole (tree_of self.now) s
            → AreOfTask (tree_of self.now) s f.0 f.1.entries) }
    {
        let _plan = &self.plan;
        let back = &draft.back;
        let rows = &draft.rows;
        let before = draft.before;
        let first = mark_before(&before, draft.last, back);
        let found = self.windows_of(alloc, &first, &before, back, rows)?;
        let after = end_mark(draft.ended, &found.1);
        let bounds = self.bounds(&before, &after);
        // That its windows rise, which the proof needs, is told by the length.
        let _count = found.0.len();
        Ok((bounds, found.0))
    }

    /// The piece of a task whose blocks are all in: its shares of windows.
    pub(crate) fn piece_of(
        &self,
        alloc: Global,
        draft: &JoinDraft,
    ) -> Result<Piece<Pairs>, NoMemory>
        requires { (s : Sight) × HasSeen (tree_of self.now) draft.now s × IsWhole (tree_of self.now) s }
        ensures { IfOk result (λ p. (s : Sight) (r : Input) (x y : ℕ) → HasSeen (tree_of self.now) draft.now s → IsWhole (tree_of self.now) s
            → IsSightOf (tree_of self.now) s r x y → shares_of (λ part. part) p ≡ shares_between (tree_of self.now) r x y) }
    {
        let (bounds, windows) = self.task_windows(alloc, draft)?;
        let piece = piece_of_windows(alloc, self, &bounds, windows)?;
        Ok(piece)
    }

    /// What such a task hands on, where a query prints what its windows gain or lose.
    pub(crate) fn handed_of(
        &self,
        alloc: Global,
        draft: &JoinDraft,
    ) -> Result<Piece<Pairs>, NoMemory>
        requires { (s : Sight) × HasSeen (tree_of self.now) draft.now s × IsWhole (tree_of self.now) s }
        ensures { IfOk result (λ p. (s : Sight) (r : Input) (x y : ℕ) → HasSeen (tree_of self.now) draft.now s → IsWhole (tree_of self.now) s
            → IsSightOf (tree_of self.now) s r x y → shares_of (λ part. part) p ≡ handed_between (tree_of self.now) r x y) }
    {
        let (bounds, windows) = self.task_windows(alloc, draft)?;
        let piece = handed_of_windows(alloc, self, &bounds, windows)?;
        Ok(piece)
    }

    /// Which of both it is, by what windows print.
    pub(crate) fn given_of(
        &self,
        alloc: Global,
        draft: &JoinDraft,
        change: Option<Change>,
    ) -> Result<Piece<Pairs>, NoMemory>
        requires seen { (s : Sight) × HasSeen (tree_of self.now) draft.now s × IsWhole (tree_of self.now) s }
        requires way { way (tree_of self.now) ≡ way_by change }
        ensures { IfOk result (λ p. (s : Sight) (r : Input) (x y : ℕ) → HasSeen (tree_of self.now) draft.now s → IsWhole (tree_of self.now) s
            → IsSightOf (tree_of self.now) s r x y → IsGiven (tree_of self.now) (shares_of (λ part. part) p) r x y) }
    {
        match change {
            None => self.piece_of(alloc, draft),
            Some(_) => self.handed_of(alloc, draft),
        }
    }

    /// A store without a part, of windows that print their lines, or this change. Takes no memory.
    pub(crate) fn no_parts(&self, alloc: Global, change: Option<Change>) -> PartStore<Pairs>
        requires { way (tree_of self.now) ≡ way_by change }
        ensures contents { kept_by (parts_by (λ part. part) result.parts.entries) result.output ≡ nothing_kept }
        ensures taken { HasTaken (tree_of self.now) result.output (going_on []) }
    {
        let _plan = &self.plan;
        PartStore::new(alloc, change)
    }
}
