// The windows of a task, by number.
ghost use Rattle.std.specs.Prelude.{◌≡◌, ◌^◌, ◌≤◌, ◌∷◌, [], ◌++◌, length, take, OnOk, IfOk};
ghost use Rattle.saber_plan.specs.declared.rows.Side.TheVariants as sides;
ghost use Rattle.saber_plan.specs.Trees.{tree_of};
ghost use Rattle.saber_plan.specs.Answers.{frame};
ghost use Rattle.saber_plan.specs.Windows.{mark_after, placed_after};
ghost use Rattle.saber_plan.specs.GivenRows.{IsRowOf, RowsFit};
ghost use Rattle.saber_join.specs.Rows.{AllOn};
ghost use Rattle.saber_join.specs.Ties.{CanTie};
ghost use Rattle.saber_join.specs.Keeping.{KeepsLefts, KeepsRights};
ghost use Rattle.saber_join.specs.Open.{seen_parts, Takes, HoldsOpen};

use crate::held_rows::HeldRows;
use crate::join::Join;
use crate::pairs::Pairs;
use crate::seen::Seen;
use crate::ties::Tie;
use saber_flat::{RowRef, Rows};
use saber_plan::{Mark, NoMemory};
use saber_window::Lately;
use std::alloc::Global;
use std::collections::BTreeMap;

impl Join<'_> {
    // Keeps a row that is looked back on, if it lies in a window from `closed` on.
    fn note_row<'a>(
        &self,
        contents: &mut HeldRows<'a>,
        tie: &Option<Tie>,
        lately: &mut Lately,
        closed: u64,
        row: &RowRef<'a>,
        before: &Mark,
    ) -> Result<(), NoMemory>
        requires lately { lately.old ≡ frame (tree_of self.now) }
        requires left { before.now.left ≤ 2 ^ 40 }
        requires right { before.now.right ≤ 2 ^ 40 }
        requires row { IsRowOf (tree_of self.now) row.now }
        requires tie { CanTie (tree_of self.now).predicate tie.now }
        ensures lately { lately.new ≡ frame (tree_of self.now) }
        ensures lefts { OnOk result (KeepsLefts (tree_of self.now) tie.now closed (record { row = row.now; before = before.now } ∷ []) contents.old.lefts contents.new.lefts) }
        ensures rights { OnOk result (KeepsRights (tree_of self.now) tie.now closed (record { row = row.now; before = before.now } ∷ []) contents.old.rights contents.new.rights) }
        ensures windows { OnOk result (contents.new.windows.entries ≡ contents.old.windows.entries) }
    {
        let (first, past) = self.row_windows(lately, row, before);
        let low = first.max(closed);
        if past <= low {
            return Ok(());
        }
        contents.note(self.key(tie, row), low, past, Seen::new(row, *before))
    }

    // Takes a row of the task into each window from `closed` on that has it.
    #[inline(always)]
    fn take_row<'a>(
        &self,
        alloc: Global,
        contents: &mut HeldRows<'a>,
        tie: &Option<Tie>,
        lately: &mut Lately,
        closed: u64,
        row: &RowRef<'a>,
        before: &Mark,
    ) -> Result<(), NoMemory>
        requires lately { lately.old ≡ frame (tree_of self.now) }
        requires left { before.now.left ≤ 2 ^ 40 }
        requires right { before.now.right ≤ 2 ^ 40 }
        requires row { IsRowOf (tree_of self.now) row.now }
        requires tie { CanTie (tree_of self.now).predicate tie.now }
        requires lefts { AllOn (tree_of self.now) sides.Left contents.old.lefts }
        requires rights { AllOn (tree_of self.now) sides.Right contents.old.rights }
        ensures lately { lately.new ≡ frame (tree_of self.now) }
        ensures lefts { OnOk result (KeepsLefts (tree_of self.now) tie.now closed (record { row = row.now; before = before.now } ∷ []) contents.old.lefts contents.new.lefts) }
        ensures rights { OnOk result (KeepsRights (tree_of self.now) tie.now closed (record { row = row.now; before = before.now } ∷ []) contents.old.rights contents.new.rights) }
        ensures windows { OnOk result (Takes (tree_of self.now) tie.now closed (record { row = row.now; before = before.now }) contents.old.lefts contents.old.rights
            (seen_parts contents.old.windows.entries) (seen_parts contents.new.windows.entries)) }
    {
        let (first, past) = self.row_windows(lately, row, before);
        let low = first.max(closed);
        if past <= low {
            return Ok(());
        }
        let key = self.key(tie, row);
        let seen = Seen::new(row, *before);
        contents.meet(alloc, self, key, low, past, &seen)?;
        contents.note(key, low, past, seen)
    }

    // Keeps the rows that are looked back on and lie in windows from `closed` on.
    fn note_rows<'a>(
        &self,
        contents: &mut HeldRows<'a>,
        tie: &Option<Tie>,
        lately: &mut Lately,
        closed: u64,
        before: &Mark,
        rows: &'a Rows,
    ) -> Result<(), NoMemory>
        requires lately { lately.old ≡ frame (tree_of self.now) }
        requires tie { CanTie (tree_of self.now).predicate tie.now }
        requires fits { RowsFit (tree_of self.now) before.now rows.now }
        ensures lately { lately.new ≡ frame (tree_of self.now) }
        ensures lefts { OnOk result (KeepsLefts (tree_of self.now) tie.now closed (placed_after before.now rows.now) contents.old.lefts contents.new.lefts) }
        ensures rights { OnOk result (KeepsRights (tree_of self.now) tie.now closed (placed_after before.now rows.now) contents.old.rights contents.new.rights) }
        ensures windows { OnOk result (contents.new.windows.entries ≡ contents.old.windows.entries) }
    {
        let mut mark = *before;
        for i in 0..rows.len() {
            let row = rows.row(i);
            self.note_row(contents, tie, lately, closed, &row, &mark)?;
            mark = self.step(&mark, &row);
        }
        Ok(())
    }

    /// The pairs of the windows of a task that aren't closed before it, and the mark behind its
    /// rows. The mark `before` stands before the rows that are looked back on, and `after` behind
    /// them.
    pub(crate) fn windows_of(
        &self,
        alloc: Global,
        before: &Mark,
        after: &Mark,
        back: &Rows,
        rows: &Rows,
    ) -> Result<(BTreeMap<u64, Pairs>, Mark), NoMemory>
        requires fits { RowsFit (tree_of self.now) before.now (back.now ++ rows.now) }
        requires after { after.now ≡ mark_after before.now back.now }
        ensures windows { IfOk result (λ r. HoldsOpen (tree_of self.now) after.now before.now back.now rows.now (seen_parts r.0.entries)) }
        ensures last { IfOk result (λ r. r.1 ≡ mark_after after.now rows.now) }
    {
        let _plan = &self.plan;
        let mut contents = HeldRows::new(alloc, rows.len() / 2 + rows.len() / 4)?;
        let closed = self.closed_below(after);
        let tie = self.tie();
        let mut lately = self.lately();
        match self.note_rows(&mut contents, &tie, &mut lately, closed, before, back) {
            Ok(()) => {}
            Err(want) => {
                contents.let_go();
                return Err(want);
            }
        }
        let mut mark = *after;
        for i in 0..rows.len() {
            let row = rows.row(i);
            match self.take_row(alloc, &mut contents, &tie, &mut lately, closed, &row, &mark) {
                Ok(()) => {}
                Err(want) => {
                    contents.let_go();
                    return Err(want);
                }
            }
            mark = self.step(&mark, &row);
        }
        Ok((contents.into_windows(), mark))
    }
}
