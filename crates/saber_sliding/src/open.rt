// Parts of rows that windows have which may get more, and what the others print.
ghost use Rattle.std.specs.Prelude.{◌≡◌, ◌≤◌, ◌<◌, ◌+◌, ◌++◌, ◌^◌, ℕ, max, [], None, OnOk};
ghost use Rattle.saber_plan.specs.declared.plans.Shape.TheVariants.{Group};
ghost use Rattle.saber_plan.specs.Answers as a;
ghost use Rattle.saber_plan.specs.Texts.{Behind};
ghost use Rattle.saber_plan.specs.Trees.{tree_of};
ghost use Rattle.saber_sliding.specs.Entries.{dropped_entries, whole, CanFollow, Entered};
ghost use Rattle.saber_plan.specs.Parts.{part_answers};
ghost use Rattle.saber_changes.specs.Outputs.{printed_from, IsBefore, Passed, StandsIn};
ghost use Rattle.saber_sliding.specs.Windows.{answers_at, AnswersOf};

use crate::queue::Sliding;
use saber_changes::Output;
use saber_partial::{Partial, RowPart, Steps};
use saber_plan::{NoMemory, Plan};
use std::alloc::Global;
use std::sync::ledger::Ledger;

/// The slices so far that window `next` or one behind it has, each with the first window that
/// doesn't have it. The windows below `next` are done.
#[derive(Drop)]
pub struct Open {
    /// The first window that isn't done.
    pub next: u64,
    /// The slices of the others.
    pub slices: Sliding,
}

// Passes a window, of which this is the whole queue, and appends what it prints: one step,
// beside those owed.
#[inline(always)]
fn pass<L: Ledger>(
    output: &mut Output,
    alloc: Global,
    plan: &Plan,
    window: u64,
    slices: &mut Sliding,
    out: &mut Vec<u8>,
    steps: &mut Steps<L>,
) -> Result<(), NoMemory>
    requires group { (tree_of plan.now).shape ≡ Group }
    requires before { IsBefore output.old window }
    requires high { window + 1 < 2 ^ 64 }
    ensures passed { OnOk result ((at : ℕ → a.Answers) → at window ≡ part_answers (tree_of plan.now) (whole slices.old.entries) → StandsIn at output.old
        → Passed at output.old output.new window (window + 1) out.old.items out.new.items) }
    ensures before { OnOk result (IsBefore output.new (window + 1)) }
    ensures same { OnOk result (slices.new.entries ≡ slices.old.entries) }
    ensures behind { Behind out.old.items out.new.items }
    ensures steps { OnOk result (steps.new + slices.new.owed ≤ steps.old + slices.old.owed + 1) }
{
    match output {
        Output::Each => {
            slices.lines(plan, window, out, steps)?;
            Ok(())
        }
        Output::Delta(change, walk) => {
            let answers = slices.answers(plan, steps)?;
            walk.pass(alloc, *change, window, answers, out)?;
            Ok(())
        }
    }
}

impl Open {
    /// No slice yet. Takes no memory.
    pub fn new(alloc: Global, next: u64) -> Open
        ensures next { result.next ≡ next }
        ensures slices { result.slices.entries ≡ [] }
        ensures owed { result.slices.owed ≡ 0 }
    {
        Open {
            next,
            slices: Sliding::empty(alloc),
        }
    }

    /// Lets the slices go.
    pub fn let_go(self) {}

    /// Adds the part of more rows, which lie in all windows from `next` up to `past`: two steps,
    /// now or later.
    pub fn take_in<L: Ledger>(
        &mut self,
        alloc: Global,
        past: u64,
        part: Partial,
        steps: &mut Steps<L>,
    ) -> Result<(), NoMemory>
        requires { CanFollow part self.old.slices.entries }
        ensures slices { OnOk result (Entered self.old.slices.entries past part self.new.slices.entries) }
        ensures next { OnOk result (self.new.next ≡ self.old.next) }
        ensures steps { OnOk result (steps.new + self.new.slices.owed ≤ steps.old + self.old.slices.owed + 2) }
    {
        self.slices.push(alloc, past, part, steps)
    }

    /// The same of a part of one group.
    #[inline(always)]
    pub fn take_one<L: Ledger>(
        &mut self,
        alloc: Global,
        past: u64,
        part: &RowPart,
        steps: &mut Steps<L>,
    ) -> Result<(), NoMemory>
        requires { CanFollow part.now self.old.slices.entries }
        ensures slices { OnOk result (Entered self.old.slices.entries past part.now self.new.slices.entries) }
        ensures next { OnOk result (self.new.next ≡ self.old.next) }
        ensures steps { OnOk result (steps.new + self.new.slices.owed ≤ steps.old + self.old.slices.owed + 2) }
    {
        self.slices.push_one(alloc, past, part, steps)
    }

    /// Appends what the windows below `low` print, each by what it has of the slices: one step for
    /// each that has one, beside those owed. No later row lies in them. What no window from there
    /// on has goes, so that it is never summed up with later slices. After want of memory some of
    /// the text may be there.
    #[inline(always)]
    pub fn close<L: Ledger>(
        &mut self,
        alloc: Global,
        plan: &Plan,
        low: u64,
        output: &mut Output,
        out: &mut Vec<u8>,
        steps: &mut Steps<L>,
    ) -> Result<(), NoMemory>
        requires group { (tree_of plan.now).shape ≡ Group }
        requires before { IsBefore output.old self.old.next }
        ensures next { OnOk result (self.new.next ≡ max self.old.next low) }
        ensures before { OnOk result (IsBefore output.new self.new.next) }
        ensures slices { OnOk result (self.new.slices.entries ≡ dropped_entries self.new.next self.old.slices.entries) }
        ensures text { OnOk result ((at : ℕ → a.Answers) → AnswersOf (tree_of plan.now) self.old.slices.entries self.old.next self.new.next at → StandsIn at output.old
            → Passed at output.old output.new self.old.next self.new.next out.old.items out.new.items) }
        ensures behind { Behind out.old.items out.new.items }
        ensures steps { OnOk result (steps.new + self.new.slices.owed + self.old.next ≤ steps.old + self.old.slices.owed + self.new.next) }
    {
        while self.next < low {
            self.slices.drop_to(self.next);
            match self.slices.first_number() {
                Some(_) => {
                    pass(output, alloc, plan, self.next, &mut self.slices, out, steps)?;
                    self.next += 1;
                }
                None => {
                    output.skip(alloc, low, out)?;
                    self.next = low;
                }
            }
        }
        let first_open = self.next;
        self.slices.drop_to(first_open);
        Ok(())
    }

    /// The same where each window prints its lines.
    #[inline(always)]
    pub fn close_lines<L: Ledger>(
        &mut self,
        alloc: Global,
        plan: &Plan,
        low: u64,
        out: &mut Vec<u8>,
        steps: &mut Steps<L>,
    ) -> Result<(), NoMemory>
        requires { (tree_of plan.now).shape ≡ Group }
        ensures next { OnOk result (self.new.next ≡ max self.old.next low) }
        ensures slices { OnOk result (self.new.slices.entries ≡ dropped_entries self.new.next self.old.slices.entries) }
        ensures text { OnOk result (out.new.items ≡ out.old.items ++ printed_from None (answers_at (tree_of plan.now) self.old.slices.entries) self.old.next self.new.next) }
        ensures behind { Behind out.old.items out.new.items }
        ensures steps { OnOk result (steps.new + self.new.slices.owed + self.old.next ≤ steps.old + self.old.slices.owed + self.new.next) }
    {
        let mut each = Output::Each;
        let closed = self.close(alloc, plan, low, &mut each, out, steps);
        each.let_go();
        closed
    }
}
