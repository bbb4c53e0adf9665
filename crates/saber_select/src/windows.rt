// The windows of a task, by number.
ghost use Rattle.std.specs.Prelude.{◌≡◌, ◌^◌, ◌≤◌, ◌∷◌, [], OnOk, IfOk};
ghost use Rattle.saber_plan.specs.Trees.{tree_of};
ghost use Rattle.saber_plan.specs.Answers.{frame};
ghost use Rattle.saber_plan.specs.Windows.{mark_after, place};
ghost use Rattle.saber_plan.specs.GivenRows.{IsRowOf, RowsFit};
ghost use Rattle.saber_select.specs.Found.{AllBelow};
ghost use Rattle.saber_select.specs.Open.{seen_windows, rows_in, AllEarlier, PutsAt, Puts, Takes, HoldsTask};

use crate::picked::Picked;
use crate::windowed::WindowedSelect;
use saber_flat::{RowRef, Rows};
use saber_plan::{Mark, NoMemory};
use saber_window::Lately;
use std::alloc::Global;
use std::collections::BTreeMap;

// Puts a row into a window.
fn put_at(
    alloc: Global,
    windows: &mut BTreeMap<u64, Picked>,
    window: u64,
    place: u64,
    values: &[i128],
) -> Result<(), NoMemory>
    requires { AllBelow place (rows_in (seen_windows windows.old.entries) window) }
    ensures { OnOk result (PutsAt (place, values.now) window (seen_windows windows.old.entries) (seen_windows windows.new.entries)) }
{
    match windows.get_mut(&window) {
        Some(rows) => {
            rows.put(place, values)?;
            Ok(())
        }
        None => {
            let mut rows = Picked::new(alloc);
            rows.put(place, values)?;
            windows.insert(window, rows)?;
            Ok(())
        }
    }
}

// Puts a row into each window from the one up to the other.
fn put_from(
    alloc: Global,
    windows: &mut BTreeMap<u64, Picked>,
    low: u64,
    past: u64,
    place: u64,
    values: &[i128],
) -> Result<(), NoMemory>
    requires { AllEarlier place (seen_windows windows.old.entries) }
    ensures { OnOk result (Puts ((place, values.now) ∷ []) low past (seen_windows windows.old.entries) (seen_windows windows.new.entries)) }
{
    for window in low..past {
        put_at(alloc, windows, window, place, values)?;
    }
    Ok(())
}

impl WindowedSelect<'_> {
    // Takes a row that passes into each window from `closed` on that has it. Its values are worked
    // out once, in `values`.
    fn take_row(
        &self,
        alloc: Global,
        windows: &mut BTreeMap<u64, Picked>,
        values: &mut Vec<i128>,
        lately: &mut Lately,
        closed: u64,
        row: &RowRef,
        before: &Mark,
    ) -> Result<(), NoMemory>
        requires lately { lately.old ≡ frame (tree_of self.now) }
        requires left { before.now.left ≤ 2 ^ 40 }
        requires right { before.now.right ≤ 2 ^ 40 }
        requires row { IsRowOf (tree_of self.now) row.now }
        requires earlier { AllEarlier (place (record { row = row.now; before = before.now })) (seen_windows windows.old.entries) }
        ensures lately { lately.new ≡ frame (tree_of self.now) }
        ensures windows { OnOk result (Takes (tree_of self.now) closed (record { row = row.now; before = before.now })
            (seen_windows windows.old.entries) (seen_windows windows.new.entries)) }
    {
        if !self.passes(row) {
            return Ok(());
        }
        self.work_out(row, values)?;
        let (first, past) = lately.row_windows(row, before);
        let low = first.max(closed);
        let place = before.left + before.right;
        put_from(alloc, windows, low, past, place, values.as_slice())
    }

    /// The rows of the windows of a task that aren't closed before it, and the mark behind its
    /// rows.
    pub(crate) fn windows_of(
        &self,
        alloc: Global,
        before: &Mark,
        rows: &Rows,
    ) -> Result<(BTreeMap<u64, Picked>, Mark), NoMemory>
        requires { RowsFit (tree_of self.now) before.now rows.now }
        ensures windows { IfOk result (λ r. HoldsTask (tree_of self.now) before.now rows.now (seen_windows r.0.entries)) }
        ensures last { IfOk result (λ r. r.1 ≡ mark_after before.now rows.now) }
    {
        let _plan = &self.plan;
        let mut windows = BTreeMap::new(alloc);
        let mut values = Vec::new(alloc);
        let closed = self.closed_below(before);
        let mut lately = self.lately();
        let mut mark = *before;
        for i in 0..rows.len() {
            let row = rows.row(i);
            self.take_row(
                alloc,
                &mut windows,
                &mut values,
                &mut lately,
                closed,
                &row,
                &mark,
            )?;
            mark = self.step(&mark, &row);
        }
        Ok((windows, mark))
    }
}
