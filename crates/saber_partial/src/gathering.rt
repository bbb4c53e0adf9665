// Rows gathered into groups, a few groups at a time.
ghost use Rattle.std.specs.Prelude.{◌≡◌, ◌∷◌, [], ◌<◌, length, OnOk, IfOk};
ghost use Rattle.saber_plan.specs.declared.rows.Side.TheVariants.{Left};
ghost use Rattle.saber_plan.specs.declared.plans.Shape.TheVariants.{Group};
ghost use Rattle.saber_plan.specs.Trees.{tree_of};
ghost use Rattle.saber_plan.specs.Rows.{RowFits};
ghost use Rattle.saber_plan.specs.Checked.{columns_on};
ghost use Rattle.saber_plan.specs.Parts.{group_part, merge, no_part};
ghost use Rattle.saber_partial.specs.Tallies.{CanMerge};
ghost use Rattle.saber_partial.specs.Young.{young_part, IsOrder};

use crate::aggregates::Aggregates;
use crate::groups::Partial;
use crate::piles::Pile;
use crate::young::Young;
use saber_flat::RowRef;
use saber_plan::NoMemory;
use std::alloc::Global;
use std::marker::Model;
use std::mem;

/// The part of rows that come one after another. A row is taken into one of the latest groups,
/// however many there are in all, and no group is moved for one whose key is new. Contracts see it
/// as the part.
#[derive(Drop)]
pub struct Gathering {
    pile: Pile,
    young: Young,
}

impl Model for Gathering {
    ghost use Rattle.saber_plan.specs.Parts.{Part, merge};
    ghost use Rattle.saber_plan.specs.Codes.{coded_part};
    ghost use Rattle.saber_partial.specs.Tallies.{CanMerge};
    ghost use Rattle.saber_partial.specs.Young.{young_part, IsOrder};

    ghost Value = { Part };

    ghost coded = { coded_part };

    ghost view = { λ g. merge g.pile.part (young_part g.young.order g.young.groups.entries) };

    ghost invariant = { λ g. CanMerge g.pile.part (young_part g.young.order g.young.groups.entries) × IsOrder g.young.order g.young.groups.entries };
}

// The latest groups go to the others. Few rows ask it.
#[inline(never)]
fn hand_over(alloc: Global, pile: &mut Pile, young: &mut Young) -> Result<(), NoMemory>
    requires can { CanMerge pile.old.part (young_part young.old.order young.old.groups.entries) }
    requires order { IsOrder young.old.order young.old.groups.entries }
    ensures can { CanMerge pile.new.part (young_part young.new.order young.new.groups.entries) }
    ensures order { IsOrder young.new.order young.new.groups.entries }
    ensures few { OnOk result (length young.new.groups.entries < 128) }
    ensures same { OnOk result (merge pile.new.part (young_part young.new.order young.new.groups.entries)
        ≡ merge pile.old.part (young_part young.old.order young.old.groups.entries)) }
{
    let full = young.take_part(alloc)?;
    pile.take_in(full)
}

// Where the latest groups are as many as there may be, they go to the others.
#[inline(always)]
fn make_room(alloc: Global, pile: &mut Pile, young: &mut Young) -> Result<(), NoMemory>
    requires can { CanMerge pile.old.part (young_part young.old.order young.old.groups.entries) }
    requires order { IsOrder young.old.order young.old.groups.entries }
    ensures can { CanMerge pile.new.part (young_part young.new.order young.new.groups.entries) }
    ensures order { IsOrder young.new.order young.new.groups.entries }
    ensures few { OnOk result (length young.new.groups.entries < 128) }
    ensures same { OnOk result (merge pile.new.part (young_part young.new.order young.new.groups.entries)
        ≡ merge pile.old.part (young_part young.old.order young.old.groups.entries)) }
{
    if !young.is_full() {
        return Ok(());
    }
    hand_over(alloc, pile, young)
}

impl Gathering {
    /// No group. Takes no memory.
    pub fn empty(alloc: Global) -> Gathering
        ensures { result ≡ no_part }
    {
        Gathering {
            pile: Pile::empty(alloc),
            young: Young::empty(alloc),
        }
    }

    /// Adds a row of a group query's stream to the group of its key, as `Partial::add_row` does.
    /// After want of memory it is only safe.
    #[inline]
    pub fn add_row(
        &mut self,
        alloc: Global,
        aggregates: &Aggregates,
        row: &RowRef,
    ) -> Result<(), NoMemory>
        requires group { (tree_of aggregates.now).shape ≡ Group }
        requires row { RowFits Left (columns_on (tree_of aggregates.now).streams Left) row.now }
        requires room { CanMerge self.old (group_part (tree_of aggregates.now) (row.now.values ∷ [])) }
        ensures { OnOk result (self.new ≡ merge self.old (group_part (tree_of aggregates.now) (row.now.values ∷ []))) }
    {
        make_room(alloc, &mut self.pile, &mut self.young)?;
        self.young.add_row(aggregates, row)
    }

    /// All in one part, after which there is no group. The memory for the latest groups stays, for
    /// others. After want of memory it is only safe.
    pub fn take_part(&mut self, alloc: Global) -> Result<Partial, NoMemory>
        ensures part { IfOk result (λ p. p ≡ self.old) }
        ensures none { OnOk result (self.new ≡ no_part) }
    {
        let part = self.young.take_part(alloc)?;
        if self.pile.is_empty() {
            return Ok(part);
        }
        self.pile.take_in(part)?;
        let all = mem::replace(&mut self.pile, Pile::empty(alloc));
        all.into_part(alloc)
    }
}
