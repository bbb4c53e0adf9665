// The rows found of one window.
use saber_plan::NoMemory;
use std::alloc::Global;
use std::marker::Model;

/// Where a row's values stand among those of all, and the row's position.
#[derive(Clone, Copy)]
pub(crate) struct Spot {
    pub(crate) place: u64,
    pub(crate) start: usize,
    pub(crate) end: usize,
}

/// The rows of a window that pass WHERE, over some rows of the stream (SABER 2016: what a task
/// gives for a window that does not lie whole in it): each with its position among all rows and the
/// values of the items. Contracts see it as the list of these, whose positions rise.
#[derive(Drop)]
pub struct Picked {
    pub(crate) numbers: Vec<i128>,
    pub(crate) spots: Vec<Spot>,
}

impl Model for Picked {
    ghost use Rattle.std.specs.Prelude.{List, length};
    ghost use Rattle.saber_select.specs.Found.{Found, Rises};
    ghost use Rattle.saber_select.specs.Spots.{found_in, AreWithin};

    ghost Value = { List Found };

    ghost view = { λ p. found_in p.numbers.items p.spots.items };

    ghost invariant = { λ p. AreWithin (length p.numbers.items) p.spots.items × Rises (found_in p.numbers.items p.spots.items) };
}

impl Picked {
    ghost use Rattle.std.specs.Prelude.{◌≡◌, [], ◌∷◌, ◌++◌, ◌≢◌, true, false, OnOk};
    ghost use Rattle.saber_select.specs.Found.{AllBelow, Precedes, Rises};

    /// No row. Takes no memory.
    pub(crate) fn new(alloc: Global) -> Picked
        ensures { result ≡ [] }
    {
        Picked {
            numbers: Vec::new(alloc),
            spots: Vec::new(alloc),
        }
    }

    /// Whether there is no row, so that there is nothing to keep.
    pub(crate) fn is_empty(&self) -> bool
        ensures none { result ≡ true → self.now ≡ [] }
        ensures some { result ≡ false → self.now ≢ [] }
    {
        self.spots.is_empty()
    }

    /// Its positions rise.
    pub(crate) fn rises(&self)
        ensures { Rises self.now }
    {
        let _spots = &self.spots;
    }

    /// One row more, behind the others, by its position and the values of its items.
    pub(crate) fn put(&mut self, place: u64, values: &[i128]) -> Result<(), NoMemory>
        requires { AllBelow place self.old }
        ensures { OnOk result (self.new ≡ self.old ++ (place, values.now) ∷ []) }
    {
        let start = self.numbers.len();
        self.numbers.extend_from_slice(values)?;
        let end = self.numbers.len();
        self.spots.push(Spot { place, start, end })?;
        Ok(())
    }

    /// Takes in later rows, behind the others. After want of memory it is only safe: some are taken
    /// in and others not.
    pub(crate) fn merge(&mut self, later: Picked) -> Result<(), NoMemory>
        requires { Precedes self.old later }
        ensures { OnOk result (self.new ≡ self.old ++ later) }
    {
        let behind = self.numbers.len();
        self.numbers.extend_from_slice(&later.numbers)?;
        self.spots.reserve(later.spots.len())?;
        for spot in &later.spots {
            self.spots.push(Spot {
                place: spot.place,
                start: behind + spot.start,
                end: behind + spot.end,
            })?;
        }
        Ok(())
    }
}
