// Parts of rows, each of one group, in one list.
ghost use Rattle.std.specs.Prelude.{◌≡◌, ◌<◌, [], ◌∷◌, ◌++◌, get_or, length, OnOk, OnErr};
ghost use Rattle.std.specs.List.{AllByRecursion};
ghost use Rattle.saber_plan.specs.declared.rows.Side.TheVariants.{Left};
ghost use Rattle.saber_plan.specs.declared.plans.Shape.TheVariants.{Group};
ghost use Rattle.saber_plan.specs.Trees.{tree_of};
ghost use Rattle.saber_plan.specs.Rows.{RowFits};
ghost use Rattle.saber_plan.specs.Checked.{columns_on};
ghost use Rattle.saber_plan.specs.Parts.{group_part, no_part};
ghost use Rattle.saber_partial.specs.PartLaws.{OfRows};

use crate::aggregates::Aggregates;
use crate::layout::Layout;
use crate::rows::push_key;
use crate::table::Table;
use arrayvec::ArrayVec;
use saber_flat::RowRef;
use saber_plan::NoMemory;
use std::alloc::Global;
use std::marker::Model;

/// The part of one row in a list of them, which is lent. Contracts see it as the part, which has
/// one group.
#[derive(Drop)]
pub struct RowPart<'a> {
    pub(crate) layout: &'a Layout,
    pub(crate) row: &'a [i128],
}

impl<'a> Model for RowPart<'a> {
    ghost use Rattle.saber_plan.specs.Parts.{Part};
    ghost use Rattle.saber_partial.specs.Flat.{entry_in, IsLayout, IsRow};
    ghost use Rattle.saber_partial.specs.Sorted.{alone};
    ghost use Rattle.saber_plan.specs.Codes.{coded_part};

    ghost Value = { Part };

    ghost coded = { coded_part };

    ghost view = { λ r. alone (entry_in r.layout.now r.row.now) };

    ghost invariant = { λ r. IsLayout r.layout.now × IsRow r.layout.now r.row.now };
}

/// Parts of rows of one plan, each of one row, in order. All lie in one list of numbers, so that
/// one more mostly takes no memory. Contracts see the parts.
#[derive(Drop)]
pub struct RowParts {
    groups: Table,
}

impl Model for RowParts {
    ghost use Rattle.std.specs.Prelude.{List, map};
    ghost use Rattle.std.specs.Coded.{coded_list};
    ghost use Rattle.saber_plan.specs.Parts.{Part};
    ghost use Rattle.saber_partial.specs.Sorted.{alone};
    ghost use Rattle.saber_plan.specs.Codes.{coded_part};

    ghost Value = { List Part };

    ghost coded = { coded_list coded_part };

    ghost view = { λ r. map alone r.groups.entries };
}

impl RowParts {
    /// No parts. Takes no memory.
    pub fn empty(alloc: Global) -> RowParts
        ensures { result ≡ [] }
    {
        RowParts {
            groups: Table::new(alloc, Layout::of_none()),
        }
    }

    /// How many parts there are.
    #[inline]
    pub fn len(&self) -> usize
        ensures { result ≡ length self.now }
    {
        self.groups.len()
    }

    /// Appends the part of a row, whether or not the row passes WHERE. Where memory is wanting,
    /// nothing changes.
    #[inline]
    pub fn push(&mut self, aggregates: &Aggregates, row: &RowRef) -> Result<(), NoMemory>
        requires group { (tree_of aggregates.now).shape ≡ Group }
        requires row { RowFits Left (columns_on (tree_of aggregates.now).streams Left) row.now }
        requires others { AllByRecursion (OfRows (tree_of aggregates.now) 1) self.old }
        ensures all { AllByRecursion (OfRows (tree_of aggregates.now) 1) self.new }
        ensures ok { OnOk result (self.new ≡ self.old ++ group_part (tree_of aggregates.now) (row.now.values ∷ []) ∷ []) }
        ensures err { OnErr result (self.new ≡ self.old) }
    {
        let mut list = ArrayVec::new();
        push_key(&mut list, aggregates.keys(), row.values());
        self.groups.has_one_layout();
        self.groups.suit(aggregates);
        self.groups.push_first(list.as_slice(), aggregates, row)
    }

    /// Part `i`, from 0 on.
    #[inline(always)]
    pub fn part(&self, i: usize) -> RowPart<'_>
        requires { i < length self.now }
        ensures { result ≡ get_or self.now i no_part }
    {
        RowPart {
            layout: self.groups.layout(),
            row: self.groups.row(i),
        }
    }
}
