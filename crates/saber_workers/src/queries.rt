//! The operators of queries as what makes pieces, and the ordered assembly as their stage.
ghost use Rattle.std.specs.Prelude.{◌≡◌, ℕ, false, None, ⊤};
ghost use Rattle.saber_ring.specs.Shows.{first_of_task};
ghost use Rattle.saber_assembly.specs.declared.work.RunData.{RunData};
ghost use Rattle.saber_assembly.specs.Stages.{HasPoured};
ghost use Rattle.saber_assembly.specs.Works.{first_tasks, first_needed, IsBlockOf, IsPieceOf};
ghost use Rattle.saber_workers.specs.Labors.{IsOwn, Begins, CanFinish, Finishes};
ghost use Rattle.saber_workers.specs.Queries.{Suits, HasBlocks, CanLookBackOn, LooksBackOn, IsNextPiece, AbsorbsPiece};

use crate::labor::Labor;
use saber_assembly::{Absorbed, SaberWork, Stage};
use saber_fragment::{Block, Operator};
use saber_io::{Pour, Sink};
use std::alloc::Global;

// Takes a piece, or the mark, into the stage.
fn take_in<O: Operator, K: Sink>(
    op: &O,
    alloc: Global,
    stage: &mut Stage<O::Store, K>,
    piece: Option<O::Piece>,
) -> bool
    requires { IsNextPiece O.plan O.is_of O.contents O.has_taken K.written K.faults K.writes op.now stage.old piece }
    ensures none { piece ≡ None → result ≡ false }
    ensures stage { AbsorbsPiece O.plan O.is_of O.contents O.has_taken K.written K.faults K.writes op.now stage.old piece stage.new result }
{
    match stage.absorb(alloc, op, piece) {
        Absorbed::Done => true,
        Absorbed::Stopped => false,
    }
}

impl<O: Operator, K: Pour> Labor<SaberWork<O, K>> for O {
    type Draft = O::Draft;

    ghost suits = { Suits };

    ghost has_blocks = { HasBlocks O.plan O.has_seen };

    ghost lacked = { λ op. ⊤ };

    fn first(&self, own: &Block) -> u64
        ensures { (told : RunData O) (t : ℕ) → IsBlockOf O.plan told t own.now → result ≡ first_of_task first_tasks (first_needed O.plan) told t }
    {
        own.first
    }

    fn start(&self, alloc: Global, own: &Block) -> Option<O::Draft>
        requires { IsOwn first_tasks (IsBlockOf O.plan) (Suits self.now) own.now }
        ensures { Begins first_tasks (first_needed O.plan) (IsBlockOf O.plan) (Suits self.now) (HasBlocks O.plan O.has_seen self.now) own.now result }
    {
        let Ok(draft) = Operator::start(self, alloc, own) else {
            return None;
        };
        Some(draft)
    }

    fn look_back(&self, alloc: Global, draft: &mut O::Draft, block: &Block) -> bool
        requires { CanLookBackOn O.plan O.has_seen self.now draft.old block.now }
        ensures { LooksBackOn O.plan O.has_seen self.now draft.old block.now result draft.new }
    {
        let Ok(()) = Operator::look_back(self, alloc, draft, block) else {
            return false;
        };
        true
    }

    fn finish(&self, alloc: Global, draft: O::Draft) -> Option<O::Piece>
        requires { CanFinish first_tasks (Suits self.now) (HasBlocks O.plan O.has_seen self.now) draft }
        ensures { Finishes first_tasks (Suits self.now) (HasBlocks O.plan O.has_seen self.now) (IsPieceOf O.plan O.is_of) draft result }
    {
        let Ok(piece) = Operator::finish(self, alloc, draft) else {
            return None;
        };
        Some(piece)
    }

    fn absorb(&self, alloc: Global, stage: &mut Stage<O::Store, K>, piece: Option<O::Piece>) -> bool
        requires { IsNextPiece O.plan O.is_of O.contents O.has_taken K.written K.faults K.writes self.now stage.old piece }
        ensures none { piece ≡ None → result ≡ false }
        ensures stage { AbsorbsPiece O.plan O.is_of O.contents O.has_taken K.written K.faults K.writes self.now stage.old piece stage.new result }
        // And the sink was poured, also behind what stopped the stage.
        ensures poured { HasPoured K.backlog K.had_no_room stage.new }
    {
        let goes = take_in::<O, K>(self, alloc, stage, piece);
        stage.pour();
        goes
    }
}
