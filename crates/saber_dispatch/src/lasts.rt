// How far back a join's tasks look, by the last windows of blocks.
ghost use Rattle.std.specs.Prelude.{◌≡◌, ◌≤◌, ◌<◌, ◌+◌, ◌-◌, ◌++◌, ◌∷◌, ◌^◌, [], length, drop, OnOk};
ghost use Rattle.std.specs.List.{AllByRecursion};
ghost use Rattle.saber_plan.specs.Rows.{stamp};
ghost use Rattle.saber_plan.specs.Windows.{Ordered, placed_after, closed_count};
ghost use Rattle.saber_plan.specs.Needs.{last_of, free_of};
ghost use Rattle.saber_dispatch.specs.Cutting.{KeepsOne};

use crate::last_windows::last_of;
use saber_flat::Rows;
use saber_plan::{Mark, NoMemory};
use saber_window::{Windows, free_of};
use std::collections::VecDeque;

/// What is kept of the blocks before the next one, from the first that a task may still look back
/// on: the greatest last window of each block's rows.
#[derive(Drop)]
pub(crate) struct Lasts {
    pub(crate) windows: Windows,
    pub(crate) first: u64,
    pub(crate) list: VecDeque<Option<u64>>,
}

impl Lasts {
    /// The first block that the next task looks back on, where this mark stands before it. Earlier
    /// ones are forgotten.
    pub(crate) fn look_back(&mut self, mark: &Mark) -> u64
        requires { self.old.first < 2 ^ 42 }
        ensures first { result ≡ free_of self.old.first self.old.list.items (closed_count self.old.windows mark.now) }
        ensures kept { self.new.first ≡ result }
        ensures list { self.new.list.items ≡ drop (result - self.old.first) self.old.list.items }
        ensures windows { self.new.windows ≡ self.old.windows }
    {
        let first = free_of(self.first, &self.list, self.windows.closed_below(mark));
        for _ in self.first..first {
            self.list.pop_front();
        }
        self.first = first;
        first
    }

    /// One block more, of these rows.
    pub(crate) fn note(&mut self, before: &Mark, rows: &Rows) -> Result<(), NoMemory>
        requires left { before.now.left + length rows.now < 2 ^ 63 }
        requires right { before.now.right + length rows.now < 2 ^ 63 }
        requires times { AllByRecursion (λ r. stamp r.values < 2 ^ 63) rows.now }
        requires order { Ordered before.now rows.now }
        ensures { OnOk result (KeepsOne (last_of self.old.windows (placed_after before.now rows.now)) self.old self.new) }
    {
        let windows = self.windows;
        let last = last_of(&windows, before, rows);
        self.list.push_back(last)?;
        Ok(())
    }
}
