// Where keys stand among groups whose keys rise.
ghost use Rattle.std.specs.Prelude.{◌≡◌, ◌<◌, ◌≤◌, true, length, IfOk, IfErr};
ghost use Rattle.std.specs.declared.cmp.Ordering.TheVariants.{Less};
ghost use Rattle.std.specs.List.{AllByRecursion};
ghost use Rattle.std.specs.Map.{keys_of};
ghost use Rattle.saber_plan.specs.Answers as a;
ghost use Rattle.saber_plan.specs.Answers.{key_cmp};
ghost use Rattle.saber_partial.specs.Sorted.{AllBelow, IsAt, IsGap, Rises};
ghost use Rattle.saber_partial.specs.Young.{by_key, IsOrder};

use crate::table::Table;
use std::cmp::Ordering;

/// The order of keys: number by number, and the shorter one first.
#[inline]
pub(crate) fn key_order(key: &[i128], other: &[i128]) -> Ordering
    ensures { result ≡ key_cmp key.now other.now }
{
    for i in 0..key.len() {
        if i == other.len() {
            return Ordering::Greater;
        }
        let found = key[i].cmp(&other[i]);
        if found.is_ne() {
            return found;
        }
    }
    if key.len() < other.len() {
        Ordering::Less
    } else {
        Ordering::Equal
    }
}

/// Where a key stands; else where it belongs. Halves what is left with each look. Each row asks it.
#[inline(always)]
pub(crate) fn place(groups: &Table, key: &[i128]) -> Result<usize, usize>
    requires { Rises groups.now.entries }
    ensures there { IfOk result (IsAt groups.now.entries key.now) }
    ensures missing { IfErr result (IsGap groups.now.entries key.now) }
{
    let mut low = 0;
    let mut high = groups.len();
    while low < high {
        let middle = low + (high - low) / 2;
        match key_order(groups.key(middle), key) {
            Ordering::Less => low = middle + 1,
            Ordering::Equal => return Ok(middle),
            Ordering::Greater => high = middle,
        }
    }
    Err(low)
}

// Whether the first number of a key is less than that of another.
#[inline(always)]
fn begins_below(key: &[i128], other: &[i128]) -> bool
    ensures { result ≡ true → key_cmp key.now other.now ≡ Less }
{
    match key.first() {
        Some(number) => match other.first() {
            Some(bound) => number < bound,
            None => false,
        },
        None => false,
    }
}

/// Where a walk over the groups from one on stops, with groups alone behind it whose keys are less
/// than this one. It passes those whose first number is less, so that a group costs it one look.
#[inline(always)]
pub(crate) fn reach(groups: &Table, from: usize, key: &[i128]) -> usize
    requires { from ≤ length groups.now.entries }
    ensures more { from ≤ result }
    ensures within { result ≤ length groups.now.entries }
    ensures below { AllBelow groups.now.entries from result key.now }
{
    let mut i = from;
    while i < groups.len() && begins_below(groups.key(i), key) {
        i += 1;
    }
    i
}

/// Whether a key stands at this place.
#[inline]
pub(crate) fn is_at(groups: &Table, i: usize, key: &[i128]) -> bool
    ensures { result ≡ true → IsAt groups.now.entries key.now i }
{
    i < groups.len() && key_order(groups.key(i), key).is_eq()
}

/// Whether both have groups of the same keys, as windows mostly have.
pub(crate) fn have_same_keys(groups: &Table, others: &Table) -> bool
    ensures { result ≡ true → keys_of groups.now.entries ≡ keys_of others.now.entries }
{
    if groups.len() != others.len() {
        return false;
    }
    for i in 0..groups.len() {
        if groups.key(i) != others.key(i) {
            return false;
        }
    }
    true
}

/// Whether both have one group alone, of the same key, as parts of queries without GROUP BY have.
#[inline]
pub(crate) fn have_one_key(groups: &Table, others: &Table) -> bool
    ensures same { result ≡ true → keys_of groups.now.entries ≡ keys_of others.now.entries }
    ensures one { result ≡ true → length groups.now.entries ≡ 1 }
{
    if groups.len() != 1 || others.len() != 1 {
        return false;
    }
    match key_order(groups.key(0), others.key(0)) {
        Ordering::Equal => true,
        Ordering::Less => false,
        Ordering::Greater => false,
    }
}

/// The same among groups whose places by key are told.
pub(crate) fn place_by(groups: &Table, order: &[u8], key: &[i128]) -> Result<usize, usize>
    requires { IsOrder order.now groups.now.entries }
    ensures there { IfOk result (IsAt (by_key order.now groups.now.entries) key.now) }
    ensures missing { IfErr result (IsGap (by_key order.now groups.now.entries) key.now) }
{
    let mut low = 0;
    let mut high = groups.len();
    while low < high {
        let middle = low + (high - low) / 2;
        match key_order(groups.key(usize::from(order[middle])), key) {
            Ordering::Less => low = middle + 1,
            Ordering::Equal => return Ok(middle),
            Ordering::Greater => high = middle,
        }
    }
    Err(low)
}

/// Whether a key has the numbers of a row in some columns.
#[inline]
pub(crate) fn is_key_of(key: &[i128], columns: &[u32], numbers: &[i64]) -> bool
    requires { AllByRecursion (λ k. k < length numbers.now) columns.now }
    ensures { result ≡ true → key.now ≡ a.key columns.now numbers.now }
{
    if key.len() != columns.len() {
        return false;
    }
    for i in 0..columns.len() {
        if key[i] != i128::from(numbers[columns[i] as usize]) {
            return false;
        }
    }
    true
}
