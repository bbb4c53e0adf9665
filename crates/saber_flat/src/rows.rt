// Rows that stay.
use crate::row_ref::RowRef;
use saber_plan::{NoMemory, Side};
use std::alloc::Global;
use std::marker::Model;

/// Where a row's numbers stand among those of all, and which stream it came on.
#[derive(Clone, Copy)]
pub(crate) struct Place {
    pub(crate) side: Side,
    pub(crate) start: usize,
    pub(crate) end: usize,
}

/// Rows in the order in which they came, seen as their list.
#[derive(Drop)]
pub struct Rows {
    pub(crate) numbers: Vec<i64>,
    pub(crate) places: Vec<Place>,
}

impl Model for Rows {
    ghost use Rattle.std.specs.Prelude.{List, length};
    ghost use Rattle.saber_plan.specs.declared.rows.Row.{Row};
    ghost use Rattle.saber_flat.specs.Places.{rows_at, AreBelow};

    ghost Value = { List Row };

    ghost view = { λ r. rows_at r.numbers.items r.places.items };

    ghost invariant = { λ r. AreBelow (length r.numbers.items) r.places.items };
}

impl Rows {
    ghost use Rattle.std.specs.Prelude.{◌≡◌, ◌<◌, [], ◌∷◌, ◌++◌, length, slice_get, Some, OnOk, OnErr, IfOk};

    /// No rows yet. Takes no memory.
    pub fn new(alloc: Global) -> Rows
        ensures { result ≡ [] }
    {
        Rows {
            numbers: Vec::new(alloc),
            places: Vec::new(alloc),
        }
    }

    /// No rows yet, with room for so many that have so many numbers in all.
    pub fn with_capacity(alloc: Global, rows: usize, numbers: usize) -> Result<Rows, NoMemory>
        ensures { IfOk result (λ rows. rows ≡ []) }
    {
        Ok(Rows {
            numbers: Vec::with_capacity(alloc, numbers)?,
            places: Vec::with_capacity(alloc, rows)?,
        })
    }

    /// One row more, behind the others: a copy of its numbers.
    pub fn push(&mut self, row: &RowRef) -> Result<(), NoMemory>
        ensures ok { OnOk result (self.new ≡ self.old ++ row.now ∷ []) }
        ensures err { OnErr result (self.new ≡ self.old) }
    {
        let start = self.numbers.len();
        self.numbers.extend_from_slice(row.values())?;
        let end = self.numbers.len();
        self.places.push(Place {
            side: row.side(),
            start,
            end,
        })?;
        Ok(())
    }

    /// Copies of these rows, behind the others: their numbers in one piece. After want of memory
    /// some of them are there.
    pub fn extend(&mut self, rows: &Rows) -> Result<(), NoMemory>
        ensures { OnOk result (self.new ≡ self.old ++ rows.now) }
    {
        let behind = self.numbers.len();
        self.numbers.extend_from_slice(&rows.numbers)?;
        self.places.reserve(rows.places.len())?;
        for place in &rows.places {
            self.places.push(Place {
                side: place.side,
                start: behind + place.start,
                end: behind + place.end,
            })?;
        }
        Ok(())
    }

    /// An equal value.
    pub fn copy(&self, alloc: Global) -> Result<Rows, NoMemory>
        ensures { IfOk result (λ rows. rows ≡ self.now) }
    {
        let numbers = self.numbers.to_vec(alloc)?;
        let places = self.places.to_vec(alloc)?;
        Ok(Rows { numbers, places })
    }

    /// How many there are.
    #[inline(always)]
    pub fn len(&self) -> usize
        ensures { result ≡ length self.now }
    {
        self.places.len()
    }

    /// Row `i`, from 0 on.
    #[inline(always)]
    pub fn row(&self, i: usize) -> RowRef<'_>
        requires { i < length self.now }
        ensures { Some result ≡ slice_get self.now i }
    {
        let place = self.places[i];
        RowRef::new(place.side, &self.numbers[place.start..place.end])
    }
}
