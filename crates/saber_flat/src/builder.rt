// Rows in the making.
use crate::row_ref::RowRef;
use crate::rows::{Place, Rows};
use saber_plan::{NoMemory, Side};
use std::alloc::Global;
use std::marker::Model;

/// Rows, and the numbers so far of one that is not closed yet.
#[derive(Drop)]
pub struct RowBuilder {
    numbers: Vec<i64>,
    places: Vec<Place>,
    // where the numbers begin of the row that is not closed
    from: usize,
}

impl Model for RowBuilder {
    ghost use Rattle.std.specs.Prelude.{◌≤◌, drop, length};
    ghost use Rattle.saber_flat.specs.Places.{rows_at, AreBelow, Building};

    ghost Value = { Building };

    ghost view = { λ b. record { rows = rows_at b.numbers.items b.places.items; begun = drop b.from b.numbers.items } };

    ghost invariant = { λ b. AreBelow b.from b.places.items × (b.from ≤ length b.numbers.items) };
}

impl RowBuilder {
    ghost use Rattle.std.specs.Prelude.{◌≡◌, ◌<◌, [], ◌∷◌, ◌++◌, length, slice_get, Some, OnOk, OnErr, IfOk};
    ghost use Rattle.saber_flat.specs.Places.{nothing, with_number, with_row, closed_by};

    /// Nothing yet, with room for so many rows that have so many numbers in all.
    pub fn with_capacity(alloc: Global, rows: usize, numbers: usize) -> Result<RowBuilder, NoMemory>
        ensures { IfOk result (λ b. b ≡ nothing) }
    {
        Ok(RowBuilder {
            numbers: Vec::with_capacity(alloc, numbers)?,
            places: Vec::with_capacity(alloc, rows)?,
            from: 0,
        })
    }

    /// One number more of the row that is not closed.
    #[inline(always)]
    pub fn put(&mut self, number: i64) -> Result<(), NoMemory>
        ensures ok { OnOk result (self.new ≡ with_number number self.old) }
        ensures err { OnErr result (self.new ≡ self.old) }
    {
        self.numbers.push(number)?;
        Ok(())
    }

    /// The numbers so far of the row that is not closed.
    #[inline(always)]
    pub fn begun(&self) -> &[i64]
        ensures { result.now ≡ self.now.begun }
    {
        &self.numbers[self.from..]
    }

    /// Closes the row.
    #[inline(always)]
    pub fn close(&mut self, side: Side) -> Result<(), NoMemory>
        ensures ok { OnOk result (self.new ≡ closed_by side self.old) }
        ensures err { OnErr result (self.new ≡ self.old) }
    {
        let end = self.numbers.len();
        self.places.push(Place {
            side,
            start: self.from,
            end,
        })?;
        self.from = end;
        Ok(())
    }

    /// Drops the numbers of the row that is not closed.
    pub fn drop_begun(&mut self)
        ensures rows { self.new.rows ≡ self.old.rows }
        ensures begun { self.new.begun ≡ [] }
    {
        self.numbers.truncate(self.from);
    }

    /// One row more, a copy of its numbers, in place of one that is not closed.
    pub fn push(&mut self, row: &RowRef) -> Result<(), NoMemory>
        requires { self.old.begun ≡ [] }
        ensures ok { OnOk result (self.new ≡ with_row row.now self.old) }
    {
        self.numbers.extend_from_slice(row.values())?;
        self.close(row.side())
    }

    /// How many rows are closed.
    #[inline(always)]
    pub fn len(&self) -> usize
        ensures { result ≡ length self.now.rows }
    {
        self.places.len()
    }

    /// Row `i`, from 0 on.
    #[inline(always)]
    pub fn row(&self, i: usize) -> RowRef<'_>
        requires { i < length self.now.rows }
        ensures { Some result ≡ slice_get self.now.rows i }
    {
        let place = self.places[i];
        RowRef::new(place.side, &self.numbers[place.start..place.end])
    }

    /// The rows that are closed.
    pub fn finish(self) -> Rows
        ensures { result ≡ self.rows }
    {
        Rows {
            numbers: self.numbers,
            places: self.places,
        }
    }
}
