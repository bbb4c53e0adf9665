// What a query with PARTITION BY does with tasks and what they give.
ghost use Rattle.std.specs.Prelude.{◌≡◌, ◌<◌, ℕ, OnOk, map};
ghost use Rattle.saber_plan.specs.Texts.{Behind};
ghost use Rattle.saber_plan.specs.Trees.{tree_of};
ghost use Rattle.saber_plan.specs.Inputs.{Input};
ghost use Rattle.saber_partition.specs.Pieces.{Follow, Followed};
ghost use Rattle.saber_partition.specs.Stores.{kept_lists, made_of, IsLong};

use crate::lists::{ListStore, take_end, take_rows};
use crate::partition::Partition;
use crate::pieces::ListPiece;
use saber_fragment::{Block, Operator};
use saber_partial::Steps;
use saber_places::Numbered;
use saber_plan::NoMemory;
use std::alloc::Global;
use std::marker::Brand;
use std::sync::ledger::{Blank, Ledger};

impl Partition<'_> {
    // Takes a piece in, where nobody asks for the steps.
    fn take_piece<L: Ledger>(
        &self,
        alloc: Global,
        store: &mut ListStore,
        piece: ListPiece,
        out: &mut Vec<u8>,
        blank: Blank,
    ) -> Result<(), NoMemory>
        requires follow { (r : Input) × (x : ℕ) × (y : ℕ) × Follow (tree_of self.now) r x y (map (made_of piece.parts) piece.rows.items) piece.ended (kept_lists store.old) }
        requires long { IsLong store.old }
        requires name { blank.name ≡ L.name }
        requires parts { blank.parts ≡ L.parts }
        requires some { 0 < blank.parts }
        ensures followed { OnOk result ((r : Input) (x y : ℕ) → Follow (tree_of self.now) r x y (map (made_of piece.parts) piece.rows.items) piece.ended (kept_lists store.old)
            → Followed (tree_of self.now) r x y (kept_lists store.new) out.old.items out.new.items) }
        ensures long { OnOk result (IsLong store.new) }
        ensures behind { Behind out.old.items out.new.items }
    {
        let ListPiece { rows, parts, ended } = piece;
        let mut steps = Steps::<L>::new(blank);
        take_rows(
            alloc,
            self.plan,
            &self.windows,
            store,
            rows,
            &parts,
            out,
            &mut steps,
        )?;
        take_end(alloc, self.plan, store, ended, out, &mut steps)?;
        Ok(())
    }
}

// A task's piece is made of its own block, so nothing of the block is copied.
impl Operator for Partition<'_> {
    type Draft = ListPiece;

    type Piece = ListPiece;

    type Store = ListStore;

    ghost use Rattle.std.specs.Prelude.{map};
    ghost use Rattle.saber_plan.specs.Trees.{tree_of};
    ghost use Rattle.saber_partition.specs.Lists.{TakenIn, kept_in};
    ghost use Rattle.saber_partition.specs.Pieces.{HasSeen, IsOf};
    ghost use Rattle.saber_partition.specs.Stores.{kept_lists, made_of, IsLong};

    ghost plan = { tree_of };

    ghost has_seen = { λ partition draft s. HasSeen (tree_of partition) s (map (made_of draft.parts) draft.rows.items) draft.ended };

    ghost contents = { λ s. kept_in (kept_lists s) };

    ghost remainder = { λ s. kept_in (kept_lists s) };

    ghost has_taken = { λ partition store r. TakenIn (tree_of partition) r (kept_lists store) × IsLong store };

    ghost is_of = { λ partition piece r x y. IsOf (tree_of partition) r x y (map (made_of piece.parts) piece.rows.items) piece.ended };

    fn start(&self, alloc: Global, own: &Block) -> Result<ListPiece, NoMemory> {
        let (rows, parts) = self.pieces_of(alloc, &own.rows, &own.places)?;
        Ok(ListPiece {
            rows,
            parts,
            ended: own.ended,
        })
    }

    fn look_back(
        &self,
        _alloc: Global,
        _draft: &mut ListPiece,
        _block: &Block,
    ) -> Result<(), NoMemory> {
        Ok(())
    }

    fn finish(&self, _alloc: Global, draft: ListPiece) -> Result<ListPiece, NoMemory> {
        let _plan = &self.plan;
        Ok(draft)
    }

    fn empty_store(&self, alloc: Global) -> ListStore {
        ListStore {
            known: Numbered::new(alloc),
            lists: Vec::new(alloc),
        }
    }

    fn take_in(
        &self,
        alloc: Global,
        store: &mut ListStore,
        piece: ListPiece,
        out: &mut Vec<u8>,
    ) -> Result<(), NoMemory> {
        let _plan = &self.plan;
        self.take_piece::<Brand>(alloc, store, piece, out, Blank::new(1))?;
        Ok(())
    }

    // Taking a piece in has dropped what no open window has.
    fn drop_closed(&self, _store: &mut ListStore) {}
}
