// An operator of one of two kinds.
ghost use Rattle.std.specs.Prelude.{◌≡◌, OnOk};
ghost use Rattle.saber_plan.specs.Inputs.{Input};
ghost use Rattle.saber_plan.specs.Texts.{Behind};
ghost use Rattle.saber_fragment.specs.Stores.{CanTakeIn, AddsText, LeavesKept, TakesIn};
ghost use Rattle.saber_fragment.specs.Cases.{of_one, OfOne};

use crate::blocks::Block;
use crate::one_of::OneOf;
use crate::operator::Operator;
use saber_plan::NoMemory;
use std::alloc::Global;

// Takes in the next task's piece, and drops the parts of windows that are closed then.
fn take_and_drop<O: Operator>(
    op: &O,
    alloc: Global,
    store: &mut O::Store,
    piece: O::Piece,
    out: &mut Vec<u8>,
) -> Result<(), NoMemory>
    requires can { CanTakeIn (O.plan op.now) (O.contents store.old) (O.has_taken op.now store.old) (O.is_of op.now piece) }
    ensures text { OnOk result (AddsText (O.plan op.now) (O.contents store.old) (O.has_taken op.now store.old) (O.is_of op.now piece) out.old.items out.new.items) }
    ensures stays { OnOk result (LeavesKept (O.plan op.now) (O.contents store.old) (O.has_taken op.now store.old) (O.is_of op.now piece) (O.contents store.new)) }
    ensures taken { OnOk result (TakesIn (O.plan op.now) (O.contents store.old) (O.has_taken op.now store.old) (O.is_of op.now piece) (O.has_taken op.now store.new)) }
    ensures behind { Behind out.old.items out.new.items }
{
    op.take_in(alloc, store, piece, out)?;
    op.drop_closed(store);
    Ok(())
}

// What it holds is all that stays of it, since closed parts are dropped as soon as a piece is taken
// in.
impl<A: Operator, B: Operator> Operator for OneOf<A, B> {
    type Draft = OneOf<A::Draft, B::Draft>;

    type Piece = OneOf<A::Piece, B::Piece>;

    type Store = OneOf<A::Store, B::Store>;

    ghost plan = { of_one A.plan B.plan };

    ghost has_seen = { λ op draft s. OfOne (λ a d. A.has_seen a d s) (λ b d. B.has_seen b d s) op draft };

    ghost contents = { of_one A.contents B.contents };

    ghost remainder = { of_one A.contents B.contents };

    ghost has_taken = { λ op store r. OfOne (λ a t. A.has_taken a t r) (λ b t. B.has_taken b t r) op store };

    ghost is_of = { λ op piece r x y. OfOne (λ a p. A.is_of a p r x y) (λ b p. B.is_of b p r x y) op piece };

    fn start(&self, alloc: Global, own: &Block) -> Result<Self::Draft, NoMemory> {
        match self {
            OneOf::First(op) => {
                let draft = op.start(alloc, own)?;
                Ok(OneOf::First(draft))
            }
            OneOf::Second(op) => {
                let draft = op.start(alloc, own)?;
                Ok(OneOf::Second(draft))
            }
        }
    }

    fn look_back(
        &self,
        alloc: Global,
        draft: &mut Self::Draft,
        block: &Block,
    ) -> Result<(), NoMemory> {
        match self {
            OneOf::First(op) => match draft {
                OneOf::First(draft) => op.look_back(alloc, draft, block),
                OneOf::Second(_) => unreachable!(),
            },
            OneOf::Second(op) => match draft {
                OneOf::First(_) => unreachable!(),
                OneOf::Second(draft) => op.look_back(alloc, draft, block),
            },
        }
    }

    fn finish(&self, alloc: Global, draft: Self::Draft) -> Result<Self::Piece, NoMemory> {
        match self {
            OneOf::First(op) => match draft {
                OneOf::First(draft) => {
                    let piece = op.finish(alloc, draft)?;
                    Ok(OneOf::First(piece))
                }
                OneOf::Second(_) => unreachable!(),
            },
            OneOf::Second(op) => match draft {
                OneOf::First(_) => unreachable!(),
                OneOf::Second(draft) => {
                    let piece = op.finish(alloc, draft)?;
                    Ok(OneOf::Second(piece))
                }
            },
        }
    }

    fn empty_store(&self, alloc: Global) -> Self::Store {
        match self {
            OneOf::First(op) => OneOf::First(op.empty_store(alloc)),
            OneOf::Second(op) => OneOf::Second(op.empty_store(alloc)),
        }
    }

    fn take_in(
        &self,
        alloc: Global,
        store: &mut Self::Store,
        piece: Self::Piece,
        out: &mut Vec<u8>,
    ) -> Result<(), NoMemory> {
        match self {
            OneOf::First(op) => match store {
                OneOf::First(store) => match piece {
                    OneOf::First(piece) => take_and_drop(op, alloc, store, piece, out),
                    OneOf::Second(_) => unreachable!(),
                },
                OneOf::Second(_) => unreachable!(),
            },
            OneOf::Second(op) => match store {
                OneOf::First(_) => unreachable!(),
                OneOf::Second(store) => match piece {
                    OneOf::First(_) => unreachable!(),
                    OneOf::Second(piece) => take_and_drop(op, alloc, store, piece, out),
                },
            },
        }
    }

    // Nothing is left to drop.
    fn drop_closed(&self, _store: &mut Self::Store) {}
}
