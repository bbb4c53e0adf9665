// What a task works out of its rows.
ghost use Rattle.std.specs.Prelude.{◌≡◌, ◌<◌, ◌≤◌, ◌+◌, ◌++◌, length, get_or, map, IfOk, OnOk};
ghost use Rattle.std.specs.List.{AllByRecursion};
ghost use Rattle.saber_plan.specs.Answers.{key, list_of};
ghost use Rattle.saber_plan.specs.GivenRows.{IsRowOf};
ghost use Rattle.saber_plan.specs.Trees.{tree_of};
ghost use Rattle.std.specs.Prelude as l;
ghost use Rattle.saber_partial.specs.PartLaws.{OfRows};
ghost use Rattle.saber_partition.specs.Streams.{part_in, row_part};
ghost use Rattle.saber_partition.specs.Pieces.{AreMade, Grew, IsMade, IsPlace};
ghost use Rattle.saber_partition.specs.Stores.{made_of, HasPart};

use crate::letting::let_rows_go;
use crate::partition::Partition;
use arrayvec::ArrayVec;
use saber_eval::passes;
use saber_flat::{RowRef, Rows};
use saber_partial::RowParts;
use saber_plan::NoMemory;
use std::alloc::Global;

/// A row's key list, where it stands among the rows with it, and where its part stands among those
/// of the task, if it passes WHERE.
#[derive(Drop)]
pub(crate) struct RowPiece {
    pub(crate) list: ArrayVec<i64, 8>,
    pub(crate) place: u64,
    pub(crate) part: Option<usize>,
}

/// What a task gives: this of each of its rows, in order, the parts of all in one list, so that a
/// row takes no memory of its own, and whether the input ends behind them.
#[derive(Drop)]
pub struct ListPiece {
    pub(crate) rows: Vec<RowPiece>,
    pub(crate) parts: RowParts,
    pub(crate) ended: bool,
}

// The key list of a row, of at most eight columns.
fn push_list(list: &mut ArrayVec<i64, 8>, columns: &[u32], numbers: &[i64])
    requires few { length list.old.items + length columns.now ≤ 8 }
    requires there { AllByRecursion (λ k. k < length numbers.now) columns.now }
    ensures { list.new.items ≡ list.old.items ++ key columns.now numbers.now }
{
    for column in columns {
        list.push(numbers[*column as usize]);
    }
}

// The place of row `i`, if it is told.
fn place_at(places: &[u64], i: usize) -> u64
    ensures { result ≡ get_or places.now i 0 }
{
    match places.get(i) {
        Some(place) => *place,
        None => 0,
    }
}

impl Partition<'_> {
    // Appends the part of a row to those of others, if the row passes, and says where it stands.
    #[tactic(auto, using(saber_eval::proofs::FittingLaws::group_fits, crate::proofs::Rowing::row_fits, crate::proofs::Rowing::failing_part))]
    fn push_part(&self, row: &RowRef, parts: &mut RowParts) -> Result<Option<usize>, NoMemory>
        requires row { IsRowOf (tree_of self.now) row.now }
        requires others { AllByRecursion (OfRows (tree_of self.now) 1) parts.old }
        ensures all { AllByRecursion (OfRows (tree_of self.now) 1) parts.new }
        ensures more { OnOk result (Grew parts.old parts.new) }
        ensures there { IfOk result (λ at. IsPlace parts.new at) }
        ensures part { IfOk result (λ at. part_in parts.new at ≡ row_part (tree_of self.now) row.now) }
    {
        if !passes(self.plan, row) {
            return Ok(None);
        }
        let i = parts.len();
        parts.push(&self.aggregates, row)?;
        Ok(Some(i))
    }

    // Its key list.
    fn list_of_row(&self, row: &RowRef) -> ArrayVec<i64, 8>
        requires { IsRowOf (tree_of self.now) row.now }
        ensures { result.items ≡ list_of (tree_of self.now) row.now }
    {
        let mut list = ArrayVec::new();
        push_list(&mut list, self.plan.partition(), row.values());
        list
    }

    // What a row gives that stands at this place.
    fn row_piece(
        &self,
        row: &RowRef,
        place: u64,
        parts: &mut RowParts,
    ) -> Result<RowPiece, NoMemory>
        requires row { IsRowOf (tree_of self.now) row.now }
        requires others { AllByRecursion (OfRows (tree_of self.now) 1) parts.old }
        ensures all { AllByRecursion (OfRows (tree_of self.now) 1) parts.new }
        ensures more { OnOk result (Grew parts.old parts.new) }
        ensures there { IfOk result (λ p. HasPart parts.new p) }
        ensures made { IfOk result (λ p. IsMade (tree_of self.now) row.now place (made_of parts.new p)) }
    {
        let part = self.push_part(row, parts)?;
        Ok(RowPiece {
            list: self.list_of_row(row),
            place,
            part,
        })
    }

    // Puts what rows give that stand at these places into an empty list, and their parts behind
    // others.
    fn put_pieces(
        &self,
        rows: &Rows,
        places: &[u64],
        pieces: &mut Vec<RowPiece>,
        parts: &mut RowParts,
    ) -> Result<(), NoMemory>
        requires rows { AllByRecursion (IsRowOf (tree_of self.now)) rows.now }
        requires none { pieces.old.items ≡ l.[] }
        requires others { AllByRecursion (OfRows (tree_of self.now) 1) parts.old }
        ensures { OnOk result (AreMade (tree_of self.now) rows.now places.now (map (made_of parts.new) pieces.new.items)) }
    {
        let count = rows.len();
        pieces.try_reserve_exact(count)?;
        for i in 0..count {
            let place = place_at(places, i);
            let piece = self.row_piece(&rows.row(i), place, parts)?;
            pieces.push(piece)?;
        }
        Ok(())
    }

    /// What a task's rows give that stand at these places, and their parts. Each row is looked at
    /// once.
    pub(crate) fn pieces_of(
        &self,
        alloc: Global,
        rows: &Rows,
        places: &[u64],
    ) -> Result<(Vec<RowPiece>, RowParts), NoMemory>
        requires { AllByRecursion (IsRowOf (tree_of self.now)) rows.now }
        ensures { IfOk result (λ v. AreMade (tree_of self.now) rows.now places.now (map (made_of v.1) v.0.items)) }
    {
        let mut pieces = Vec::new(alloc);
        let mut parts = RowParts::empty(alloc);
        match self.put_pieces(rows, places, &mut pieces, &mut parts) {
            Ok(()) => Ok((pieces, parts)),
            Err(want) => {
                let_rows_go(pieces);
                Err(want)
            }
        }
    }
}
