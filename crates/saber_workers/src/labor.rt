//! What is done with a task, and with a piece.
ghost use Rattle.std.specs.Prelude.{◌≡◌, ℕ, false, None};
ghost use Rattle.saber_ring.specs.Shows.{first_of_task};
ghost use Rattle.saber_workers.specs.Labors.{IsOwn, Begins, CanLookBack, LooksBack, CanFinish, Finishes, IsNext, Absorbs};

use saber_core::Work;
use std::alloc::Global;

/// What makes the pieces of a work's tasks, and takes them into its stage. A task's piece is made
/// from the task's own block and then from those before it, from the first that it needs on, one by
/// one.
pub trait Labor<W: Work> {
    /// A task's piece in the making.
    type Draft: Drop;

    // What it does is for these fixed data.
    ghost suits: { Self → W.Data → Type 0 };

    // The draft of a task has its own block, and of those before it all up to this one.
    ghost has_blocks: { Self → W.Data → ℕ → ℕ → Self.Draft → Type 0 };

    // Memory lacked for a piece. Why, no clause can say; so who tells that has tried.
    ghost lacked: { Self → Type 0 };

    /// The first block that a task needs, as the task's own says.
    fn first(&self, own: &W::Rows) -> u64
        ensures { (told : W.Data) (t : ℕ) → W.is_rows told t own.now → result ≡ first_of_task W.upto W.first told t };

    /// Begins a task's piece with the task's own block. None for want of memory.
    fn start(&self, alloc: Global, own: &W::Rows) -> Option<Self::Draft>
        requires { IsOwn W.upto W.is_rows (suits self.now) own.now }
        ensures lacks { result ≡ None → lacked self.now }
        ensures begins { Begins W.upto W.first W.is_rows (suits self.now) (has_blocks self.now) own.now result };

    /// Takes in the next of the blocks before the task's own. False for want of memory.
    fn look_back(&self, alloc: Global, draft: &mut Self::Draft, block: &W::Rows) -> bool
        requires { CanLookBack W.upto W.first W.is_rows (suits self.now) (has_blocks self.now) draft.old block.now }
        ensures { LooksBack W.upto W.first W.is_rows (suits self.now) (has_blocks self.now) draft.old block.now result draft.new };

    /// The piece, once all blocks are in. None for want of memory.
    fn finish(&self, alloc: Global, draft: Self::Draft) -> Option<W::Piece>
        requires { CanFinish W.upto (suits self.now) (has_blocks self.now) draft }
        ensures lacks { result ≡ None → lacked self.now }
        ensures finishes { Finishes W.upto (suits self.now) (has_blocks self.now) W.is_piece draft result };

    /// Takes a piece, or the mark of want of memory, into the stage. True where the stage goes on,
    /// with one task more behind it.
    fn absorb(&self, alloc: Global, stage: &mut W::Stage, piece: Option<W::Piece>) -> bool
        requires { IsNext W.upto W.is_piece W.is_stage (suits self.now) stage.old piece }
        ensures none { piece ≡ None → result ≡ false }
        ensures stage { Absorbs W.upto W.is_piece W.is_stage (suits self.now) stage.old piece stage.new result };
}
