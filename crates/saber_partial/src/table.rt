// Groups of one layout, in one list of numbers.
ghost use Rattle.std.specs.Prelude.{◌≡◌, [], ◌∷◌, ◌++◌, ◌+◌, ◌-◌, ◌<◌, ◌≤◌, List, ℤ, length, get_or, take, drop, IfOk, OnOk, OnErr};
ghost use Rattle.std.specs.List.{insert, AllByRecursion};
ghost use Rattle.std.proofs.Math.ListN.{set};
ghost use Rattle.saber_plan.specs.Trees.{tree_of};
ghost use Rattle.saber_plan.specs.Parts.{Numbers, numbers, join_numbers};
ghost use Rattle.saber_partial.specs.Gathering.{CanCount};
ghost use Rattle.saber_partial.specs.Tallies.{CanJoin};
ghost use Rattle.saber_partial.specs.Flat.{entry_in, HaveLayout, IsLayout, IsRow, Suits};
ghost use Rattle.saber_partial.specs.Young.{by_key};

use crate::aggregates::Aggregates;
use crate::layout::Layout;
use crate::tally::{add_row, join_row, write_first};
use saber_flat::RowRef;
use saber_plan::NoMemory;
use std::alloc::Global;
use std::marker::Model;

/// Groups, each a row of numbers, one behind another in one list, so that a copy of many groups is
/// one copy of memory, and a group takes no memory of its own. Contracts see the layout and an
/// entry a row.
#[derive(Drop)]
pub(crate) struct Table {
    layout: Layout,
    len: usize,
    numbers: Vec<i128>,
}

impl Model for Table {
    ghost use Rattle.saber_partial.specs.Flat as flat;
    ghost use Rattle.saber_partial.specs.Flat.{entries_in, AreRows};

    ghost Value = { flat.Table };

    ghost view = { λ t. record { layout = t.layout; entries = entries_in t.layout t.len t.numbers.items } };

    ghost invariant = { λ t. AreRows t.layout t.len t.numbers.items };
}

// Room for some numbers before another, or behind all. What stands there then is to be written
// over.
#[inline]
fn make_room(numbers: &mut Vec<i128>, start: usize, width: usize) -> Result<(), NoMemory>
    requires start { start ≤ length numbers.old.items }
    requires width { width ≤ 64 }
    ensures long { OnOk result (length numbers.new.items ≡ length numbers.old.items + width) }
    ensures front { OnOk result (take start numbers.new.items ≡ take start numbers.old.items) }
    ensures behind { OnOk result (drop (start + width) numbers.new.items ≡ drop start numbers.old.items) }
    ensures err { OnErr result (numbers.new.items ≡ numbers.old.items) }
{
    let end = numbers.len();
    numbers.resize(end + width, 0)?;
    if start < end {
        numbers.copy_within(start..end, start + width);
    }
    Ok(())
}

// Without the first numbers. The memory stays.
fn drop_numbers(numbers: &mut Vec<i128>, count: usize)
    requires { count ≤ length numbers.old.items }
    ensures { numbers.new.items ≡ drop count numbers.old.items }
{
    let _gone = numbers.drain(..count);
}

// Takes what is known by a row of numbers into the row before it.
#[inline(always)]
fn join_side(layout: &Layout, rows: &mut [i128])
    requires layout { IsLayout layout.now }
    requires long { length rows.old ≡ layout.now.width + layout.now.width }
    requires mine { IsRow layout.now (take layout.now.width rows.old) }
    requires theirs { IsRow layout.now (drop layout.now.width rows.old) }
    requires can { CanJoin (entry_in layout.now (take layout.now.width rows.old)).1 (entry_in layout.now (drop layout.now.width rows.old)).1 }
    ensures long { length rows.new ≡ layout.now.width + layout.now.width }
    ensures row { IsRow layout.now (take layout.now.width rows.new) }
    ensures joined { entry_in layout.now (take layout.now.width rows.new)
        ≡ (
          (entry_in layout.now (take layout.now.width rows.old)).0,
          join_numbers (entry_in layout.now (take layout.now.width rows.old)).1 (entry_in layout.now (drop layout.now.width rows.old)).1,
        ) }
    ensures same { drop layout.now.width rows.new ≡ drop layout.now.width rows.old }
{
    let (front, behind) = rows.split_at_mut(layout.width);
    join_row(layout, front, behind);
}

impl Table {
    /// No groups. Takes no memory.
    pub(crate) fn new(alloc: Global, layout: Layout) -> Table
        requires { IsLayout layout }
        ensures layout { result.layout ≡ layout }
        ensures none { result.entries ≡ [] }
    {
        Table {
            layout,
            len: 0,
            numbers: Vec::new(alloc),
        }
    }

    /// No groups, and room for the groups of two lists of one layout.
    pub(crate) fn with_room_for(
        alloc: Global,
        one: &Table,
        other: &Table,
    ) -> Result<Table, NoMemory>
        ensures layout { IfOk result (λ t. t.layout ≡ one.now.layout) }
        ensures none { IfOk result (λ t. t.entries ≡ []) }
    {
        let room = one.numbers.len().saturating_add(other.numbers.len());
        Ok(Table {
            layout: one.layout,
            len: 0,
            numbers: Vec::with_capacity(alloc, room)?,
        })
    }

    /// A copy with memory of its own.
    pub(crate) fn copy(&self) -> Result<Table, NoMemory>
        ensures { IfOk result (λ t. t ≡ self.now) }
    {
        let mut numbers = Vec::with_capacity(*self.numbers.allocator(), self.numbers.len())?;
        numbers.extend_from_slice(&self.numbers)?;
        Ok(Table {
            layout: self.layout,
            len: self.len,
            numbers,
        })
    }

    /// Each group lies in its row as the layout tells.
    pub(crate) fn has_one_layout(&self)
        ensures layout { IsLayout self.now.layout }
        ensures each { HaveLayout self.now.layout self.now.entries }
    {
        let _numbers = &self.numbers;
    }

    /// Whose memory it takes.
    pub(crate) fn allocator(&self) -> Global {
        *self.numbers.allocator()
    }

    /// How many groups there are.
    pub(crate) fn len(&self) -> usize
        ensures { result ≡ length self.now.entries }
    {
        let _numbers = &self.numbers;
        self.len
    }

    /// How each group lies in its row.
    pub(crate) fn layout(&self) -> &Layout
        ensures layout { result.now ≡ self.now.layout }
        ensures within { IsLayout self.now.layout }
    {
        let _numbers = &self.numbers;
        &self.layout
    }

    /// The row of a group.
    #[inline]
    pub(crate) fn row(&self, i: usize) -> &[i128]
        requires { i < length self.now.entries }
        ensures entry { (d : List ℤ × Numbers) → entry_in self.now.layout result.now ≡ get_or self.now.entries i d }
        ensures row { IsRow self.now.layout result.now }
    {
        let start = i * self.layout.width;
        &self.numbers[start..start + self.layout.width]
    }

    /// The key of a group.
    #[inline]
    pub(crate) fn key(&self, i: usize) -> &[i128]
        requires { i < length self.now.entries }
        ensures { (d : List ℤ × Numbers) → result.now ≡ (get_or self.now.entries i d).0 }
    {
        let start = i * self.layout.width;
        &self.numbers[start..start + self.layout.keys]
    }

    /// Takes what is known of later rows into a group.
    #[inline]
    pub(crate) fn join(&mut self, i: usize, other: &[i128])
        requires there { i < length self.old.entries }
        requires other { IsRow self.old.layout other.now }
        requires can { (d : List ℤ × Numbers) → CanJoin (get_or self.old.entries i d).1 (entry_in self.old.layout other.now).1 }
        ensures layout { self.new.layout ≡ self.old.layout }
        ensures joined { (d : List ℤ × Numbers) → self.new.entries
            ≡ set self.old.entries i ((get_or self.old.entries i d).0, join_numbers (get_or self.old.entries i d).1 (entry_in self.old.layout other.now).1) }
    {
        let start = i * self.layout.width;
        let end = start + self.layout.width;
        join_row(&self.layout, &mut self.numbers[start..end], other);
    }

    /// Takes what is known of the next group into a group.
    #[inline(always)]
    pub(crate) fn join_next(&mut self, i: usize)
        requires there { i + 1 < length self.old.entries }
        requires can { (d : List ℤ × Numbers) → CanJoin (get_or self.old.entries i d).1 (get_or self.old.entries (i + 1) d).1 }
        ensures layout { self.new.layout ≡ self.old.layout }
        ensures joined { (d : List ℤ × Numbers) → self.new.entries
            ≡ set self.old.entries i ((get_or self.old.entries i d).0, join_numbers (get_or self.old.entries i d).1 (get_or self.old.entries (i + 1) d).1) }
    {
        let width = self.layout.width;
        let start = i * width;
        let end = start + (width + width);
        join_side(&self.layout, &mut self.numbers[start..end]);
    }

    /// Counts one row more in a group. Each row asks it.
    #[inline(always)]
    pub(crate) fn add_row(&mut self, i: usize, aggregates: &Aggregates, row: &RowRef)
        requires there { i < length self.old.entries }
        requires fit { AllByRecursion (CanCount row.now.values) (tree_of aggregates.now).aggregates }
        requires can { (d : List ℤ × Numbers) → CanJoin (get_or self.old.entries i d).1 (numbers (tree_of aggregates.now).aggregates (row.now.values ∷ [])) }
        ensures layout { self.new.layout ≡ self.old.layout }
        ensures joined { (d : List ℤ × Numbers) → self.new.entries
            ≡ set self.old.entries i ((get_or self.old.entries i d).0, join_numbers (get_or self.old.entries i d).1 (numbers (tree_of aggregates.now).aggregates (row.now.values ∷ []))) }
    {
        let start = i * self.layout.width;
        let end = start + self.layout.width;
        add_row(&self.layout, &mut self.numbers[start..end], aggregates, row);
    }

    /// Appends a group.
    #[inline]
    pub(crate) fn push(&mut self, row: &[i128]) -> Result<(), NoMemory>
        requires { IsRow self.old.layout row.now }
        ensures layout { self.new.layout ≡ self.old.layout }
        ensures ok { OnOk result (self.new.entries ≡ self.old.entries ++ entry_in self.old.layout row.now ∷ []) }
        ensures err { OnErr result (self.new.entries ≡ self.old.entries) }
    {
        self.numbers.extend_from_slice(row)?;
        self.len += 1;
        Ok(())
    }

    /// Appends the groups of a list of the same layout from one up to another, in one copy.
    pub(crate) fn push_range(
        &mut self,
        other: &Table,
        from: usize,
        end: usize,
    ) -> Result<(), NoMemory>
        requires order { from ≤ end }
        requires there { end ≤ length other.now.entries }
        requires alike { self.old.layout ≡ other.now.layout }
        ensures layout { self.new.layout ≡ self.old.layout }
        ensures ok { OnOk result (self.new.entries ≡ self.old.entries ++ take (end - from) (drop from other.now.entries)) }
        ensures err { OnErr result (self.new.entries ≡ self.old.entries) }
    {
        let numbers = &other.numbers;
        let start = from * self.layout.width;
        let stop = end * self.layout.width;
        self.numbers.extend_from_slice(&numbers[start..stop])?;
        self.len += end - from;
        Ok(())
    }

    /// Puts a group before another, or behind all.
    pub(crate) fn insert(&mut self, i: usize, row: &[i128]) -> Result<(), NoMemory>
        requires there { i ≤ length self.old.entries }
        requires row { IsRow self.old.layout row.now }
        ensures layout { self.new.layout ≡ self.old.layout }
        ensures ok { OnOk result (self.new.entries ≡ insert self.old.entries i (entry_in self.old.layout row.now)) }
        ensures err { OnErr result (self.new.entries ≡ self.old.entries) }
    {
        let start = i * self.layout.width;
        make_room(&mut self.numbers, start, self.layout.width)?;
        self.numbers[start..start + self.layout.width].copy_from_slice(row);
        self.len += 1;
        Ok(())
    }

    /// Puts the group of a first row before another, or behind all.
    pub(crate) fn insert_first(
        &mut self,
        i: usize,
        key: &[i128],
        aggregates: &Aggregates,
        row: &RowRef,
    ) -> Result<(), NoMemory>
        requires there { i ≤ length self.old.entries }
        requires suits { Suits self.old.layout (length key.now) (tree_of aggregates.now).aggregates }
        requires fit { AllByRecursion (CanCount row.now.values) (tree_of aggregates.now).aggregates }
        ensures layout { self.new.layout ≡ self.old.layout }
        ensures ok { OnOk result (self.new.entries ≡ insert self.old.entries i (key.now, numbers (tree_of aggregates.now).aggregates (row.now.values ∷ []))) }
        ensures err { OnErr result (self.new.entries ≡ self.old.entries) }
    {
        let start = i * self.layout.width;
        make_room(&mut self.numbers, start, self.layout.width)?;
        let end = start + self.layout.width;
        write_first(
            &self.layout,
            &mut self.numbers[start..end],
            key,
            aggregates,
            row,
        );
        self.len += 1;
        Ok(())
    }

    /// Appends the group of a first row.
    pub(crate) fn push_first(
        &mut self,
        key: &[i128],
        aggregates: &Aggregates,
        row: &RowRef,
    ) -> Result<(), NoMemory>
        requires suits { Suits self.old.layout (length key.now) (tree_of aggregates.now).aggregates }
        requires fit { AllByRecursion (CanCount row.now.values) (tree_of aggregates.now).aggregates }
        ensures layout { self.new.layout ≡ self.old.layout }
        ensures ok { OnOk result (self.new.entries ≡ self.old.entries ++ (key.now, numbers (tree_of aggregates.now).aggregates (row.now.values ∷ [])) ∷ []) }
        ensures err { OnErr result (self.new.entries ≡ self.old.entries) }
    {
        let start = self.numbers.len();
        let end = start + self.layout.width;
        self.numbers.resize(end, 0)?;
        write_first(
            &self.layout,
            &mut self.numbers[start..end],
            key,
            aggregates,
            row,
        );
        self.len += 1;
        Ok(())
    }

    /// Lets the first groups go. The memory stays.
    pub(crate) fn drop_front(&mut self, count: usize)
        requires { count ≤ length self.old.entries }
        ensures layout { self.new.layout ≡ self.old.layout }
        ensures rest { self.new.entries ≡ drop count self.old.entries }
    {
        self.len -= count;
        drop_numbers(&mut self.numbers, count * self.layout.width);
    }

    /// The first groups, in memory of their own.
    pub(crate) fn copy_front(&self, alloc: Global, count: usize) -> Result<Table, NoMemory>
        requires { count ≤ length self.now.entries }
        ensures layout { IfOk result (λ t. t.layout ≡ self.now.layout) }
        ensures all { IfOk result (λ t. t.entries ≡ take count self.now.entries) }
    {
        let mut copy = Table::new(alloc, self.layout);
        copy.push_range(self, 0, count)?;
        Ok(copy)
    }

    /// No groups any more, and a layout for others. The memory stays.
    pub(crate) fn clear(&mut self, layout: Layout)
        requires { IsLayout layout }
        ensures layout { self.new.layout ≡ layout }
        ensures none { self.new.entries ≡ [] }
    {
        self.numbers.clear();
        self.len = 0;
        self.layout = layout;
    }

    /// Becomes a copy of another, in the memory that it has.
    pub(crate) fn set_to(&mut self, other: &Table) -> Result<(), NoMemory>
        ensures ok { OnOk result (self.new ≡ other.now) }
        ensures err { OnErr result (self.new.entries ≡ []) }
    {
        self.clear(*other.layout());
        self.push_range(other, 0, other.len())
    }

    /// Where there is no group yet, the layout becomes that of the groups of a plan.
    pub(crate) fn suit(&mut self, aggregates: &Aggregates)
        requires others { 0 < length self.old.entries → Suits self.old.layout (length (tree_of aggregates.now).keys) (tree_of aggregates.now).aggregates }
        ensures suits { Suits self.new.layout (length (tree_of aggregates.now).keys) (tree_of aggregates.now).aggregates }
        ensures same { self.new.entries ≡ self.old.entries }
    {
        if self.len() == 0 {
            self.clear(aggregates.layout());
        }
    }

    /// Where there is no group yet, the layout becomes another.
    #[inline]
    pub(crate) fn be_like(&mut self, layout: &Layout)
        requires layout { IsLayout layout.now }
        requires others { 0 < length self.old.entries → self.old.layout ≡ layout.now }
        ensures layout { self.new.layout ≡ layout.now }
        ensures same { self.new.entries ≡ self.old.entries }
    {
        if self.len() == 0 {
            self.clear(*layout);
        }
    }

    /// The groups in another order, in memory of their own.
    pub(crate) fn in_order(&self, alloc: Global, order: &[u8]) -> Result<Table, NoMemory>
        requires long { length self.now.entries ≤ length order.now }
        requires within { AllByRecursion (λ p. p < length self.now.entries) (take (length self.now.entries) order.now) }
        ensures { IfOk result (λ t. t.entries ≡ by_key order.now self.now.entries) }
    {
        let mut groups = Table {
            layout: self.layout,
            len: 0,
            numbers: Vec::with_capacity(alloc, self.numbers.len())?,
        };
        for i in 0..self.len() {
            groups.push(self.row(usize::from(order[i])))?;
        }
        Ok(groups)
    }
}
