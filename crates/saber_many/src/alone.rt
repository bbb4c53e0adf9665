// A task of one work, done in one go.
ghost use Rattle.saber_many.specs.Alone.{CanDo, Does};

use crate::labor::make;
use crate::shareable::Shareable;
use saber_workers::Labor;
use std::alloc::Global;

/// Does the task of these rows, which needs no others, on the caller's thread: its piece, or the
/// mark where memory lacks for that, is taken into the stage. True where the stage goes on then.
pub fn do_task<W: Shareable, L: Labor<W>>(
    labor: &L,
    alloc: Global,
    stage: &mut W::Stage,
    own: &W::Rows,
) -> bool
    requires can { CanDo W.upto W.is_rows W.is_stage W.is_alone L.suits labor.now stage.old own.now }
    ensures does { Does W.upto W.is_rows W.is_stage W.is_alone L.suits labor.now stage.old own.now stage.new result }
{
    let piece = make::<W, L>(labor, alloc, own);
    labor.absorb(alloc, stage, piece)
}
