// Groups with those of later rows, in lists by key.
ghost use Rattle.std.specs.Prelude.{◌≡◌, ◌≤◌, ◌<◌, ◌+◌, ◌-◌, ◌++◌, ◌∷◌, [], length, take, drop, IfOk, OnOk};
ghost use Rattle.std.specs.Map.{keys_of};
ghost use Rattle.saber_plan.specs.Parts.{join_numbers, merge};
ghost use Rattle.saber_partial.specs.Flat.{entry_in, IsRow};
ghost use Rattle.saber_partial.specs.Sorted.{alone, joined_each, part_of, weave, AllBelow, CanJoinAll, JoinsFit, Rises};
ghost use Rattle.saber_partial.specs.Tallies.{CanJoin};

use crate::places::{have_one_key, have_same_keys, is_at, key_order, place, reach};
use crate::table::Table;
use saber_plan::NoMemory;
use std::alloc::Global;
use std::cmp::Ordering;

// Takes in groups of the same keys, in one walk over both.
fn join_each(groups: &mut Table, others: &Table)
    requires alike { groups.old.layout ≡ others.now.layout }
    requires same { keys_of groups.old.entries ≡ keys_of others.now.entries }
    requires can { CanJoinAll groups.old.entries others.now.entries }
    ensures layout { groups.new.layout ≡ groups.old.layout }
    ensures all { groups.new.entries ≡ joined_each groups.old.entries others.now.entries }
{
    for i in 0..groups.len() {
        groups.join(i, others.row(i));
    }
}

// The same where there is one group.
#[inline]
fn join_one(groups: &mut Table, others: &Table)
    requires alike { groups.old.layout ≡ others.now.layout }
    requires same { keys_of groups.old.entries ≡ keys_of others.now.entries }
    requires one { length groups.old.entries ≡ 1 }
    requires can { CanJoinAll groups.old.entries others.now.entries }
    ensures { groups.new.entries ≡ joined_each groups.old.entries others.now.entries }
{
    groups.join(0, others.row(0));
}

// Takes in the groups, from the first on, whose keys are there, in one walk over both, and says how
// many these are before the first whose key isn't.
fn take_found(groups: &mut Table, others: &Table) -> usize
    requires alike { groups.old.layout ≡ others.now.layout }
    requires mine { Rises groups.old.entries }
    requires theirs { Rises others.now.entries }
    requires can { JoinsFit (part_of groups.old.entries) (part_of others.now.entries) }
    ensures within { result ≤ length others.now.entries }
    ensures layout { groups.new.layout ≡ groups.old.layout }
    ensures mine { Rises groups.new.entries }
    ensures theirs { Rises (drop result others.now.entries) }
    ensures can { JoinsFit (part_of groups.new.entries) (part_of (drop result others.now.entries)) }
    ensures all { merge (part_of groups.new.entries) (part_of (drop result others.now.entries)) ≡ merge (part_of groups.old.entries) (part_of others.now.entries) }
{
    let mut i = 0;
    for j in 0..others.len() {
        let at = reach(groups, i, others.key(j));
        if !is_at(groups, at, others.key(j)) {
            return j;
        }
        groups.join(at, others.row(j));
        i = at;
    }
    others.len()
}

// Appends the groups from one on whose keys are below this one, at once, and says where they end.
// The first of them is.
fn push_below(out: &mut Table, groups: &Table, from: usize, key: &[i128]) -> Result<usize, NoMemory>
    requires alike { out.old.layout ≡ groups.now.layout }
    requires there { from < length groups.now.entries }
    ensures layout { out.new.layout ≡ out.old.layout }
    ensures more { IfOk result (λ end. from < end) }
    ensures within { IfOk result (λ end. end ≤ length groups.now.entries) }
    ensures below { IfOk result (λ end. AllBelow groups.now.entries (from + 1) end key.now) }
    ensures all { IfOk result (λ end. out.new.entries ≡ out.old.entries ++ take (end - from) (drop from groups.now.entries)) }
{
    let _count = groups.len();
    let end = reach(groups, from + 1, key);
    out.push_range(groups, from, end)?;
    Ok(end)
}

// Appends a group that both have, joined.
fn push_joined(out: &mut Table, row: &[i128], later: &[i128]) -> Result<(), NoMemory>
    requires row { IsRow out.old.layout row.now }
    requires later { IsRow out.old.layout later.now }
    requires can { CanJoin (entry_in out.old.layout row.now).1 (entry_in out.old.layout later.now).1 }
    ensures layout { out.new.layout ≡ out.old.layout }
    ensures all { OnOk result (out.new.entries ≡ out.old.entries
        ++ ((entry_in out.old.layout row.now).0, join_numbers (entry_in out.old.layout row.now).1 (entry_in out.old.layout later.now).1) ∷ []) }
{
    let last = out.len();
    out.push(row)?;
    out.join(last, later);
    Ok(())
}

// Appends all groups of both by key, of the others those from one on, and those that both have
// joined, in one walk over both. Groups of one that lie between two of the other are copied at
// once.
fn weave_into(out: &mut Table, groups: &Table, others: &Table, from: usize) -> Result<(), NoMemory>
    requires layout { out.old.layout ≡ groups.now.layout }
    requires alike { groups.now.layout ≡ others.now.layout }
    requires there { from ≤ length others.now.entries }
    requires can { CanJoinAll groups.now.entries (drop from others.now.entries) }
    ensures layout { out.new.layout ≡ out.old.layout }
    ensures all { OnOk result (out.new.entries ≡ out.old.entries ++ weave groups.now.entries (drop from others.now.entries)) }
{
    let mut i = 0;
    let mut j = from;
    while i < groups.len() && j < others.len() {
        match key_order(groups.key(i), others.key(j)) {
            Ordering::Less => i = push_below(out, groups, i, others.key(j))?,
            Ordering::Equal => {
                push_joined(out, groups.row(i), others.row(j))?;
                i += 1;
                j += 1;
            }
            Ordering::Greater => j = push_below(out, others, j, groups.key(i))?,
        }
    }
    out.push_range(groups, i, groups.len())?;
    out.push_range(others, j, others.len())?;
    Ok(())
}

// The same in a list of their own.
fn woven(alloc: Global, groups: &Table, others: &Table, from: usize) -> Result<Table, NoMemory>
    requires alike { groups.now.layout ≡ others.now.layout }
    requires there { from ≤ length others.now.entries }
    requires can { CanJoinAll groups.now.entries (drop from others.now.entries) }
    ensures layout { IfOk result (λ t. t.layout ≡ groups.now.layout) }
    ensures all { IfOk result (λ t. t.entries ≡ weave groups.now.entries (drop from others.now.entries)) }
{
    let mut out = Table::with_room_for(alloc, groups, others)?;
    weave_into(&mut out, groups, others, from)?;
    Ok(out)
}

// Takes in the groups from one on, in a walk over both into a new list.
fn take_rest(alloc: Global, groups: &mut Table, others: &Table, from: usize) -> Result<(), NoMemory>
    requires alike { groups.old.layout ≡ others.now.layout }
    requires there { from ≤ length others.now.entries }
    requires mine { Rises groups.old.entries }
    requires theirs { Rises (drop from others.now.entries) }
    requires can { JoinsFit (part_of groups.old.entries) (part_of (drop from others.now.entries)) }
    ensures rises { Rises groups.new.entries }
    ensures ok { OnOk result (part_of groups.new.entries ≡ merge (part_of groups.old.entries) (part_of (drop from others.now.entries))) }
{
    if from == others.len() {
        return Ok(());
    }
    *groups = woven(alloc, groups, others, from)?;
    Ok(())
}

// Takes in groups of later rows, by key: side by side where both have the same keys; in place while
// the keys of the fewer are there; and the rest in a walk over both into a new list.
#[inline(never)]
fn take_in_some(alloc: Global, groups: &mut Table, others: &Table) -> Result<(), NoMemory>
    requires alike { groups.old.layout ≡ others.now.layout }
    requires mine { Rises groups.old.entries }
    requires theirs { Rises others.now.entries }
    requires can { JoinsFit (part_of groups.old.entries) (part_of others.now.entries) }
    ensures rises { Rises groups.new.entries }
    ensures ok { OnOk result (part_of groups.new.entries ≡ merge (part_of groups.old.entries) (part_of others.now.entries)) }
{
    if have_same_keys(groups, others) {
        join_each(groups, others);
        return Ok(());
    }
    if others.len() > groups.len() {
        return take_rest(alloc, groups, others, 0);
    }
    let found = take_found(groups, others);
    take_rest(alloc, groups, others, found)
}

/// Takes in groups of later rows, by key. Where there is one group, and it is the same one, at
/// once.
#[inline]
pub(crate) fn take_in(alloc: Global, groups: &mut Table, others: &Table) -> Result<(), NoMemory>
    requires alike { groups.old.layout ≡ others.now.layout }
    requires mine { Rises groups.old.entries }
    requires theirs { Rises others.now.entries }
    requires can { JoinsFit (part_of groups.old.entries) (part_of others.now.entries) }
    ensures rises { Rises groups.new.entries }
    ensures ok { OnOk result (part_of groups.new.entries ≡ merge (part_of groups.old.entries) (part_of others.now.entries)) }
{
    if have_one_key(groups, others) {
        join_one(groups, others);
        return Ok(());
    }
    take_in_some(alloc, groups, others)
}

/// Takes in one group of a later row, which lies in its row as all do here: into the group of its
/// key, or as one more.
#[inline]
pub(crate) fn take_in_row(groups: &mut Table, row: &[i128]) -> Result<(), NoMemory>
    requires row { IsRow groups.old.layout row.now }
    requires mine { Rises groups.old.entries }
    requires can { JoinsFit (part_of groups.old.entries) (alone (entry_in groups.old.layout row.now)) }
    ensures rises { Rises groups.new.entries }
    ensures ok { OnOk result (part_of groups.new.entries ≡ merge (part_of groups.old.entries) (alone (entry_in groups.old.layout row.now))) }
{
    let keys = groups.layout().keys;
    match place(groups, &row[..keys]) {
        Ok(i) => {
            groups.join(i, row);
            Ok(())
        }
        Err(i) => groups.insert(i, row),
    }
}
