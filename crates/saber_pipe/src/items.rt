// What goes through a pipe.
use saber_io::EndMark;

/// A piece of the bytes, or how they end.
#[derive(Drop)]
pub enum Item {
    Piece(Vec<u8>),
    Last(EndMark),
}
