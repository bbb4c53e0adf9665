// The rows of one side of a task, found by their keys.
ghost use Rattle.std.specs.Prelude.{◌≡◌, ◌+◌, ◌^◌, ◌<◌, ◌≤◌, [], ◌∷◌, ◌++◌, length, filter, get_or, map, reverse, if◌then◌else◌, OnOk, IfOk};
ghost use Rattle.saber_join.specs.Shelves.{Card, meets, bucket_of, no_card, cards_at, Found};
ghost use Rattle.std.specs.List.{AllByRecursion};
ghost use Rattle.saber_join.specs.Linked.{card_in, Linked};

use crate::seen::Seen;
use saber_plan::NoMemory;
use std::alloc::Global;
use std::marker::Model;

/// A row with its key, and the windows that it lies in: those from `first` up to `past`.
#[derive(Drop)]
pub(crate) struct Kept<'a> {
    pub(crate) seen: Seen<'a>,
    pub(crate) key: i64,
    pub(crate) first: u64,
    pub(crate) past: u64,
    // the greatest `past` of it and of the rows before it
    pub(crate) high: u64,
    // the last row before it that lies in its bucket, counted from 1 on; 0 where there is none
    pub(crate) previous: usize,
}

/// Rows in the order in which they came. Those whose keys lie in one bucket are linked, each to the
/// last one before it, so that the rows with a key are found from the last one on. Contracts see it
/// as the list of the rows.
#[derive(Drop)]
pub(crate) struct Shelf<'a> {
    rows: Vec<Kept<'a>>,
    // of each bucket its last row, counted from 1 on; 0 where there is none
    last: Vec<usize>,
    mask: u64,
    // the greatest `past` of all
    high: u64,
}

impl<'a> Model for Shelf<'a> {
    ghost use Rattle.std.specs.Prelude.{List, map, ◌^◌, ◌<◌};
    ghost use Rattle.saber_join.specs.Shelves.{Card};
    ghost use Rattle.saber_join.specs.Linked.{card_in, AllBelow, Linked};

    ghost Value = { List Card };

    ghost view = { λ s. map card_in s.rows.items };

    ghost invariant = { λ s. (s.mask < 2 ^ 33) × AllBelow s.high s.rows.items × Linked s.mask s.last.items s.rows.items };
}

// All ones, at least as great as this where that is no more than four thousand million.
fn mask_for(rows: usize) -> u64
    ensures { result < 2 ^ 33 }
{
    let wanted = (rows as u64).min(0xFFFF_FFFF);
    let mut mask = 15;
    for _i in 0..28 {
        if mask < wanted {
            mask = 2 * mask + 1;
        }
    }
    mask
}

// The bucket of a key: the upmost 16 bits of a product, in which all bits of the key have a part,
// so that keys in a row, or with zeros at their ends, are spread over the buckets.
fn bucket(key: i64, mask: u64) -> usize
    ensures bucket { result ≡ bucket_of mask key }
    ensures below { result ≤ mask }
{
    let spread = key.cast_unsigned().wrapping_mul(0x9E37_79B9_7F4A_7C15);
    ((spread >> 48) & mask) as usize
}

// One place more, if it is wanted.
fn push_if(found: &mut Vec<usize>, at: usize, is_wanted: bool) -> Result<(), NoMemory>
    ensures { OnOk result (found.new.items ≡ found.old.items ++ (if is_wanted then at ∷ [] else [])) }
{
    if is_wanted {
        found.push(at)?;
    }
    Ok(())
}

impl<'a> Kept<'a> {
    // It has this key, and a window behind the first `low`.
    fn meets(&self, key: i64, low: u64) -> bool
        ensures { result ≡ meets key low (card_in self.now) }
    {
        self.key == key && low < self.past
    }
}

// The places of the rows that have this key and a window behind the first `low`, the last first.
#[inline(always)]
fn walk(
    rows: &[Kept],
    last: &[usize],
    mask: u64,
    key: i64,
    low: u64,
    found: &mut Vec<usize>,
) -> Result<(), NoMemory>
    requires linked { Linked mask last.now rows.now }
    requires empty { found.old.items ≡ [] }
    ensures there { OnOk result (AllByRecursion (λ i. i < length rows.now) found.new.items) }
    ensures are { OnOk result (cards_at (map card_in rows.now) (reverse found.new.items) ≡ filter (meets key low) (map card_in rows.now)) }
{
    let mut next = last[bucket(key, mask)];
    while next > 0 {
        let at = next - 1;
        let kept = &rows[at];
        // No row up to this one has a window behind the first `low`.
        if kept.high <= low {
            return Ok(());
        }
        push_if(found, at, kept.meets(key, low))?;
        next = kept.previous;
    }
    Ok(())
}

impl<'a> Shelf<'a> {
    /// No row, and room for so many.
    pub(crate) fn new(alloc: Global, rows: usize) -> Result<Shelf<'a>, NoMemory>
        ensures { IfOk result (λ s. s ≡ []) }
    {
        let mask = mask_for(rows);
        Ok(Shelf {
            rows: Vec::with_capacity(alloc, rows)?,
            last: vec![in alloc; 0; mask as usize + 1]?,
            mask,
            high: 0,
        })
    }

    /// Lets the rows go.
    pub(crate) fn let_go(self) {}

    /// The row at this place.
    pub(crate) fn at(&self, i: usize) -> &Kept<'a>
        requires { i < length self.now }
        ensures { card_in result.now ≡ get_or self.now i no_card }
    {
        &self.rows[i]
    }

    /// One row more. After want of memory the shelf is only safe to let go.
    #[inline(always)]
    pub(crate) fn put(
        &mut self,
        key: i64,
        first: u64,
        past: u64,
        seen: Seen<'a>,
    ) -> Result<(), NoMemory>
        ensures { OnOk result (self.new ≡ self.old ++ record { seen = seen.entry; key = key; first = first; past = past } ∷ []) }
    {
        let bucket = bucket(key, self.mask);
        let previous = self.last[bucket];
        let high = self.high.max(past);
        self.rows.push(Kept {
            seen,
            key,
            first,
            past,
            high,
            previous,
        })?;
        self.high = high;
        self.last[bucket] = self.rows.len();
        Ok(())
    }

    /// The places of the rows that have this key and a window behind the first `low`.
    #[inline(always)]
    pub(crate) fn find(&self, key: i64, low: u64, found: &mut Vec<usize>) -> Result<(), NoMemory>
        ensures { OnOk result (Found self.now (filter (meets key low) self.now) found.new.items) }
    {
        found.clear();
        walk(&self.rows, &self.last, self.mask, key, low, found)?;
        found.reverse();
        Ok(())
    }
}
