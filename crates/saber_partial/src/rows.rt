// Rows of a stream, counted into groups.
ghost use Rattle.std.specs.Prelude.{◌≡◌, ◌<◌, ◌+◌, ◌≤◌, [], ◌∷◌, ◌++◌, length, IfOk, OnOk, OnErr};
ghost use Rattle.saber_plan.specs.declared.rows.Side.TheVariants.{Left};
ghost use Rattle.saber_plan.specs.declared.plans.Shape.TheVariants.{Group};
ghost use Rattle.saber_plan.specs.Trees.{tree_of};
ghost use Rattle.saber_plan.specs.Rows.{RowFits};
ghost use Rattle.saber_plan.specs.Checked.{columns_on};
ghost use Rattle.saber_plan.specs.Answers.{key};
ghost use Rattle.saber_plan.specs.Parts.{group_part, merge};
ghost use Rattle.saber_partial.specs.Tallies.{CanMerge};
ghost use Rattle.std.specs.List.{AllByRecursion};

use crate::aggregates::Aggregates;
use crate::groups::Partial;
use crate::steps::Steps;
use arrayvec::ArrayVec;
use saber_flat::RowRef;
use saber_plan::{NoMemory, Plan};
use std::alloc::Global;
use std::sync::ledger::Ledger;

// The key list of a row, of at most eight columns.
#[inline]
pub(crate) fn push_key(list: &mut ArrayVec<i128, 8>, columns: &[u32], numbers: &[i64])
    requires few { length list.old.items + length columns.now ≤ 8 }
    requires there { AllByRecursion (λ k. k < length numbers.now) columns.now }
    ensures { list.new.items ≡ list.old.items ++ key columns.now numbers.now }
{
    for column in columns {
        list.push(i128::from(numbers[*column as usize]));
    }
}

impl Partial {
    /// Adds a row of a group query's stream to the group of its key (CQL 2006, GROUP BY; without
    /// one, all rows have the empty key), whether or not it passes WHERE: callers ask
    /// `saber_eval::passes` once a row. Only the first row of a group takes memory; where that is
    /// wanting, nothing changes. One step. What the plan asks is worked out anew.
    /// `small_merge` of `proofs/Counted.antt` meets `room`.
    pub fn add_row<L: Ledger>(
        &mut self,
        alloc: Global,
        plan: &Plan,
        row: &RowRef,
        steps: &mut Steps<L>,
    ) -> Result<(), NoMemory>
        requires group { (tree_of plan.now).shape ≡ Group }
        requires row { RowFits Left (columns_on (tree_of plan.now).streams Left) row.now }
        requires room { CanMerge self.old (group_part (tree_of plan.now) (row.now.values ∷ [])) }
        ensures ok { OnOk result (self.new ≡ merge self.old (group_part (tree_of plan.now) (row.now.values ∷ []))) }
        ensures err { OnErr result (self.new ≡ self.old) }
        ensures steps { steps.new ≡ steps.old + 1 }
    {
        steps.tick();
        self.add_by(alloc, &Aggregates::of_plan(plan), row)
    }

    // The same by what the plan asks of each row.
    fn add_by(
        &mut self,
        alloc: Global,
        aggregates: &Aggregates,
        row: &RowRef,
    ) -> Result<(), NoMemory>
        requires group { (tree_of aggregates.now).shape ≡ Group }
        requires row { RowFits Left (columns_on (tree_of aggregates.now).streams Left) row.now }
        requires room { CanMerge self.old (group_part (tree_of aggregates.now) (row.now.values ∷ [])) }
        ensures ok { OnOk result (self.new ≡ merge self.old (group_part (tree_of aggregates.now) (row.now.values ∷ []))) }
        ensures err { OnErr result (self.new ≡ self.old) }
    {
        let mut list = ArrayVec::new();
        push_key(&mut list, aggregates.keys(), row.values());
        self.add(alloc, list.as_slice(), aggregates, row)
    }

    /// The part of one row, as `Gathering` has it of some.
    #[inline(always)]
    pub fn of_row(alloc: Global, aggregates: &Aggregates, row: &RowRef) -> Result<Partial, NoMemory>
        requires group { (tree_of aggregates.now).shape ≡ Group }
        requires row { RowFits Left (columns_on (tree_of aggregates.now).streams Left) row.now }
        ensures { IfOk result (λ p. p ≡ group_part (tree_of aggregates.now) (row.now.values ∷ [])) }
    {
        let mut part = Partial::empty(alloc);
        part.add_by(alloc, aggregates, row)?;
        Ok(part)
    }
}
