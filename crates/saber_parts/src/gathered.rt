// What the windows of a task have given so far.
use saber_fragment::{Parts, Piece, Text};
use std::alloc::Global;

/// The parts of windows that don't lie whole in the task, and the text of those that do. Windows
/// come in rising order, so that each is put behind the others.
#[derive(Drop)]
pub(crate) struct Gathered<P> {
    /// The parts of windows that earlier tasks began and this one closes.
    pub(crate) closing: Parts<P>,
    /// Those of windows that earlier tasks began and later ones close.
    pub(crate) pending: Parts<P>,
    /// Those of windows that this task begins and later ones close.
    pub(crate) opening: Parts<P>,
    /// The lines of the windows that lie whole in the task.
    pub(crate) text: Vec<u8>,
}

impl<P: Drop> Gathered<P> {
    ghost use Rattle.std.specs.Prelude.{◌≡◌, []};

    /// Nothing yet. Takes no memory.
    pub(crate) fn new(alloc: Global) -> Gathered<P>
        ensures closing { result.closing ≡ [] }
        ensures pending { result.pending ≡ [] }
        ensures opening { result.opening ≡ [] }
        ensures text { result.text.items ≡ [] }
    {
        Gathered {
            closing: Parts::new(alloc),
            pending: Parts::new(alloc),
            opening: Parts::new(alloc),
            text: Vec::new(alloc),
        }
    }

    /// All of it, as the piece of a task.
    pub(crate) fn into_piece(self, closed_below: u64) -> Piece<P>
        ensures closing { result.closing ≡ self.closing }
        ensures pending { result.pending ≡ self.pending }
        ensures opening { result.opening ≡ self.opening }
        ensures text { result.complete_text ≡ self.text.items }
        ensures closed { result.closed_below ≡ closed_below }
    {
        Piece {
            closing: self.closing,
            complete_text: Text::from_vec(self.text),
            pending: self.pending,
            opening: self.opening,
            closed_below,
        }
    }
}
