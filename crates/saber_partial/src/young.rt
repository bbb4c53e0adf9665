// Few groups, in the order in which their keys came.
ghost use Rattle.std.specs.Prelude.{◌≡◌, ◌<◌, ◌≤◌, ◌+◌, [], ◌∷◌, false, length, take, OnOk, OnErr, IfOk, IfErr};
ghost use Rattle.std.specs.List.{insert, AllByRecursion};
ghost use Rattle.saber_plan.specs.declared.rows.Side.TheVariants.{Left};
ghost use Rattle.saber_plan.specs.declared.plans.Shape.TheVariants.{Group};
ghost use Rattle.saber_plan.specs.Trees.{tree_of};
ghost use Rattle.saber_plan.specs.Rows.{RowFits};
ghost use Rattle.saber_plan.specs.Checked.{columns_on};
ghost use Rattle.saber_plan.specs.Answers.{key};
ghost use Rattle.saber_plan.specs.Parts.{group_part, merge, no_part, numbers};
ghost use Rattle.saber_partial.specs.Gathering.{CanCount};
ghost use Rattle.saber_partial.specs.Sorted.{IsGap};
ghost use Rattle.saber_partial.specs.Tallies.{CanMerge, FitsAt, with_row};
ghost use Rattle.saber_partial.specs.Young.{by_key, young_part, HasKey, IsOrder};

use crate::aggregates::Aggregates;
use crate::groups::Partial;
use crate::layout::Layout;
use crate::places::{is_key_of, place_by};
use crate::rows::push_key;
use crate::table::Table;
use arrayvec::ArrayVec;
use saber_flat::RowRef;
use saber_plan::NoMemory;
use std::alloc::Global;

/// Groups of 128 keys at most. A new group comes behind all others, so that none is moved for it,
/// and its place is put among the places by key. A hint tells most rows the place of their group at
/// once. It may be wrong, and then the key is sought.
#[derive(Drop)]
pub(crate) struct Young {
    // in the order in which their keys came
    pub(crate) groups: Table,
    // their places by key, before others of no meaning
    pub(crate) order: [u8; 128],
    // for each number that a key can be given, where such a key stood last
    pub(crate) hints: [u8; 128],
}

// A number for a key, by the row's number in its first column. The product spreads numbers that
// follow one another, and those whose last bits are the same.
#[inline]
fn slot_of(columns: &[u32], numbers: &[i64]) -> usize
    requires { AllByRecursion (λ k. k < length numbers.now) columns.now }
    ensures { result < 128 }
{
    match columns.first() {
        Some(column) => {
            let number = numbers[*column as usize].cast_unsigned();
            (number.wrapping_mul(0x9E37_79B9_7F4A_7C15) >> 57) as usize
        }
        None => 0,
    }
}

// Puts a place before another, or behind all.
fn put_before(order: &mut [u8], count: usize, i: usize, place: u8)
    requires there { i ≤ count }
    requires room { count < length order.old }
    ensures long { length order.new ≡ length order.old }
    ensures put { take (count + 1) order.new ≡ insert (take count order.old) i place }
{
    order.copy_within(i..count, i + 1);
    order[i] = place;
}

impl Young {
    /// No group. Takes no memory.
    pub(crate) fn empty(alloc: Global) -> Young
        ensures order { IsOrder result.order result.groups.entries }
        ensures none { young_part result.order result.groups.entries ≡ no_part }
    {
        Young {
            groups: Table::new(alloc, Layout::of_none()),
            order: [0; 128],
            hints: [0; 128],
        }
    }

    // A group of a first row, whose key belongs before the i-th by key.
    fn add_first(
        &mut self,
        slot: usize,
        i: usize,
        key: &[i128],
        aggregates: &Aggregates,
        row: &RowRef,
    ) -> Result<(), NoMemory>
        requires slot { slot < 128 }
        requires order { IsOrder self.old.order self.old.groups.entries }
        requires few { length self.old.groups.entries < 128 }
        requires missing { IsGap (by_key self.old.order self.old.groups.entries) key.now i }
        requires keys { length key.now ≡ length (tree_of aggregates.now).keys }
        requires fit { AllByRecursion (CanCount row.now.values) (tree_of aggregates.now).aggregates }
        requires room { FitsAt (young_part self.old.order self.old.groups.entries) key.now (numbers (tree_of aggregates.now).aggregates (row.now.values ∷ [])) }
        ensures order { IsOrder self.new.order self.new.groups.entries }
        ensures ok { OnOk result (young_part self.new.order self.new.groups.entries
            ≡ with_row (young_part self.old.order self.old.groups.entries) key.now (numbers (tree_of aggregates.now).aggregates (row.now.values ∷ []))) }
        ensures err { OnErr result (young_part self.new.order self.new.groups.entries ≡ young_part self.old.order self.old.groups.entries) }
    {
        let count = self.groups.len();
        self.groups.has_one_layout();
        self.groups.suit(aggregates);
        self.groups.push_first(key, aggregates, row)?;
        let place = count as u8;
        put_before(&mut self.order, count, i, place);
        self.hints[slot] = place;
        Ok(())
    }

    // The place of the group with a row's key, sought by key; else where the key belongs by key.
    fn seek(&self, columns: &[u32], numbers: &[i64]) -> Result<usize, usize>
        requires order { IsOrder self.now.order self.now.groups.entries }
        requires keys { length columns.now ≤ 8 }
        requires there { AllByRecursion (λ k. k < length numbers.now) columns.now }
        ensures within { IfOk result (λ p. p < length self.now.groups.entries) }
        ensures there { IfOk result (HasKey self.now.groups.entries (key columns.now numbers.now)) }
        ensures missing { IfErr result (IsGap (by_key self.now.order self.now.groups.entries) (key columns.now numbers.now)) }
    {
        let mut list = ArrayVec::new();
        push_key(&mut list, columns, numbers);
        match place_by(&self.groups, &self.order, list.as_slice()) {
            Ok(i) => Ok(usize::from(self.order[i])),
            Err(i) => Err(i),
        }
    }

    // The same, where the hint tells first.
    #[inline]
    fn find(&self, slot: usize, columns: &[u32], numbers: &[i64]) -> Result<usize, usize>
        requires slot { slot < 128 }
        requires order { IsOrder self.now.order self.now.groups.entries }
        requires keys { length columns.now ≤ 8 }
        requires there { AllByRecursion (λ k. k < length numbers.now) columns.now }
        ensures within { IfOk result (λ p. p < length self.now.groups.entries) }
        ensures there { IfOk result (HasKey self.now.groups.entries (key columns.now numbers.now)) }
        ensures missing { IfErr result (IsGap (by_key self.now.order self.now.groups.entries) (key columns.now numbers.now)) }
    {
        let hint = usize::from(self.hints[slot]);
        if hint < self.groups.len() && is_key_of(self.groups.key(hint), columns, numbers) {
            return Ok(hint);
        }
        self.seek(columns, numbers)
    }

    // A group of a first row, as `add_first` puts it in.
    fn add_new(
        &mut self,
        slot: usize,
        i: usize,
        columns: &[u32],
        aggregates: &Aggregates,
        row: &RowRef,
    ) -> Result<(), NoMemory>
        requires slot { slot < 128 }
        requires order { IsOrder self.old.order self.old.groups.entries }
        requires few { length self.old.groups.entries < 128 }
        requires missing { IsGap (by_key self.old.order self.old.groups.entries) (key columns.now row.now.values) i }
        requires keys { length columns.now ≤ 8 }
        requires columns { columns.now ≡ (tree_of aggregates.now).keys }
        requires there { AllByRecursion (λ k. k < length row.now.values) columns.now }
        requires fit { AllByRecursion (CanCount row.now.values) (tree_of aggregates.now).aggregates }
        requires room { FitsAt (young_part self.old.order self.old.groups.entries) (key columns.now row.now.values) (numbers (tree_of aggregates.now).aggregates (row.now.values ∷ [])) }
        ensures order { IsOrder self.new.order self.new.groups.entries }
        ensures ok { OnOk result (young_part self.new.order self.new.groups.entries
            ≡ with_row (young_part self.old.order self.old.groups.entries) (key columns.now row.now.values) (numbers (tree_of aggregates.now).aggregates (row.now.values ∷ []))) }
        ensures err { OnErr result (young_part self.new.order self.new.groups.entries ≡ young_part self.old.order self.old.groups.entries) }
    {
        let mut list = ArrayVec::new();
        push_key(&mut list, columns, row.values());
        self.add_first(slot, i, list.as_slice(), aggregates, row)
    }

    // Adds what is known of one row to the group of its key.
    #[inline]
    fn add(
        &mut self,
        columns: &[u32],
        aggregates: &Aggregates,
        row: &RowRef,
    ) -> Result<(), NoMemory>
        requires order { IsOrder self.old.order self.old.groups.entries }
        requires few { length self.old.groups.entries < 128 }
        requires keys { length columns.now ≤ 8 }
        requires columns { columns.now ≡ (tree_of aggregates.now).keys }
        requires there { AllByRecursion (λ k. k < length row.now.values) columns.now }
        requires fit { AllByRecursion (CanCount row.now.values) (tree_of aggregates.now).aggregates }
        requires room { FitsAt (young_part self.old.order self.old.groups.entries) (key columns.now row.now.values) (numbers (tree_of aggregates.now).aggregates (row.now.values ∷ [])) }
        ensures order { IsOrder self.new.order self.new.groups.entries }
        ensures ok { OnOk result (young_part self.new.order self.new.groups.entries
            ≡ with_row (young_part self.old.order self.old.groups.entries) (key columns.now row.now.values) (numbers (tree_of aggregates.now).aggregates (row.now.values ∷ []))) }
        ensures err { OnErr result (young_part self.new.order self.new.groups.entries ≡ young_part self.old.order self.old.groups.entries) }
    {
        let slot = slot_of(columns, row.values());
        match self.find(slot, columns, row.values()) {
            Ok(place) => {
                self.hints[slot] = place as u8;
                self.groups.add_row(place, aggregates, row);
                Ok(())
            }
            Err(i) => self.add_new(slot, i, columns, aggregates, row),
        }
    }

    /// Adds a row to the group of its key, as `Partial::add_row` does.
    #[inline]
    pub(crate) fn add_row(&mut self, aggregates: &Aggregates, row: &RowRef) -> Result<(), NoMemory>
        requires order { IsOrder self.old.order self.old.groups.entries }
        requires few { length self.old.groups.entries < 128 }
        requires group { (tree_of aggregates.now).shape ≡ Group }
        requires row { RowFits Left (columns_on (tree_of aggregates.now).streams Left) row.now }
        requires room { CanMerge (young_part self.old.order self.old.groups.entries) (group_part (tree_of aggregates.now) (row.now.values ∷ [])) }
        ensures order { IsOrder self.new.order self.new.groups.entries }
        ensures ok { OnOk result (young_part self.new.order self.new.groups.entries
            ≡ merge (young_part self.old.order self.old.groups.entries) (group_part (tree_of aggregates.now) (row.now.values ∷ []))) }
        ensures err { OnErr result (young_part self.new.order self.new.groups.entries ≡ young_part self.old.order self.old.groups.entries) }
    {
        self.add(aggregates.keys(), aggregates, row)
    }

    /// Whether no more groups have room.
    #[inline]
    pub(crate) fn is_full(&self) -> bool
        ensures { result ≡ false → length self.now.groups.entries < 128 }
    {
        self.groups.len() >= 128
    }

    /// All groups in one part, after which there is none. The memory stays.
    pub(crate) fn take_part(&mut self, alloc: Global) -> Result<Partial, NoMemory>
        requires { IsOrder self.old.order self.old.groups.entries }
        ensures order { IsOrder self.new.order self.new.groups.entries }
        ensures part { IfOk result (λ p. p ≡ young_part self.old.order self.old.groups.entries) }
        ensures none { OnOk result (self.new.groups.entries ≡ []) }
        ensures err { OnErr result (young_part self.new.order self.new.groups.entries ≡ young_part self.old.order self.old.groups.entries) }
    {
        let groups = self.groups.in_order(alloc, &self.order)?;
        self.groups.clear(Layout::of_none());
        Ok(Partial { groups })
    }
}
