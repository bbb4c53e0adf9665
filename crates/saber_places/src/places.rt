// The rows so far of each key list, counted.
ghost use Rattle.std.specs.Prelude.{◌≡◌, ◌<◌, ◌^◌, ◌+◌, ◌++◌, ◌∷◌, [], List, length, IfOk, OnOk};
ghost use Rattle.saber_plan.specs.declared.rows.Row.{Row};
ghost use Rattle.saber_plan.specs.Trees.{Tree, tree_of};
ghost use Rattle.saber_plan.specs.GivenRows.{IsRowOf, RowsFit};
ghost use Rattle.saber_plan.specs.Windows.{no_rows};
ghost use Rattle.saber_plan.specs.Answers.{list_of, substream};
ghost use Rattle.saber_plan.specs.Tasks.{places_after};
ghost use Rattle.saber_places.specs.Counting.{Counts, AreCounted, PlacesOn};

use crate::counts::count_one;
use crate::keys::push_list;
use crate::numbered::Numbered;
use arrayvec::ArrayVec;
use saber_flat::{RowRef, Rows};
use saber_plan::{NoMemory, Plan};
use std::alloc::Global;

/// How many rows so far have each key list of the columns of PARTITION BY, which are at most eight.
/// A row of a key list that is known takes no memory. Contracts see it by `Counts`: which rows it
/// has counted.
#[derive(Drop)]
pub struct Places {
    columns: Vec<u32>,
    known: Numbered,
    // of each list, by its number
    counts: Vec<u64>,
}

impl Places {
    /// For a plan, before its first row; nothing without PARTITION BY.
    pub fn of_plan(alloc: Global, plan: &Plan) -> Result<Option<Places>, NoMemory>
        ensures { IfOk result (AreCounted (tree_of plan.now) []) }
    {
        let partition = plan.partition();
        if partition.len() == 0 {
            return Ok(None);
        }
        let mut columns = Vec::new(alloc);
        columns.extend_from_slice(partition)?;
        Ok(Some(Places {
            columns,
            known: Numbered::new(alloc),
            counts: Vec::new(alloc),
        }))
    }

    // Counts a row, and answers where it stands among those with its key list.
    #[inline]
    fn place(&mut self, row: &RowRef) -> Result<u64, NoMemory>
        requires { (q : Tree) × (xs : List Row) × Counts q xs self.old × IsRowOf q row.now × (length xs < 2 ^ 63) }
        ensures stands { IfOk result (λ n. (q : Tree) (xs : List Row) → Counts q xs self.old → n ≡ length (substream q (list_of q row.now) xs)) }
        ensures counts { OnOk result ((q : Tree) (xs : List Row) → Counts q xs self.old → Counts q (xs ++ row.now ∷ []) self.new) }
    {
        let mut list = ArrayVec::new();
        push_list(&mut list, &self.columns, row.values());
        let place = count_one(&mut self.known, &mut self.counts, list)?;
        Ok(place)
    }

    // Counts rows, and answers where each stands.
    fn places(&mut self, alloc: Global, rows: &Rows) -> Result<Vec<u64>, NoMemory>
        requires { (q : Tree) × (xs : List Row) × Counts q xs self.old × RowsFit q no_rows (xs ++ rows.now) }
        ensures stand { IfOk result (λ ps. (q : Tree) (xs : List Row) → Counts q xs self.old → ps.items ≡ places_after q xs rows.now) }
        ensures counts { OnOk result ((q : Tree) (xs : List Row) → Counts q xs self.old → Counts q (xs ++ rows.now) self.new) }
    {
        let mut places = Vec::with_capacity(alloc, rows.len())?;
        for i in 0..rows.len() {
            let place = self.place(&rows.row(i))?;
            places.push(place)?;
        }
        Ok(places)
    }
}

/// Where rows behind those so far stand among all rows with their key lists, and counts them;
/// nothing without PARTITION BY. After want of memory some of them are counted.
pub fn places_of(
    counter: &mut Option<Places>,
    alloc: Global,
    rows: &Rows,
) -> Result<Vec<u64>, NoMemory>
    requires { (q : Tree) × (xs : List Row) × AreCounted q xs counter.old × RowsFit q no_rows (xs ++ rows.now) }
    ensures { IfOk result (λ ps. PlacesOn rows.now ps.items counter.old counter.new) }
{
    match counter {
        None => Ok(Vec::new(alloc)),
        Some(places) => {
            let stands = places.places(alloc, rows)?;
            Ok(stands)
        }
    }
}
