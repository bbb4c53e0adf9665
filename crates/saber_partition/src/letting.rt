// What a task works out of its rows, and what is kept of a key list, are let go by calls. Where a
// function held one at an exit of its own, the steps that let each of its parts go would stand in
// that function, once for each exit, and its proof would take them all in.
use crate::keyed::Keyed;
use crate::pieces::RowPiece;

impl Keyed {
    /// Lets the parts go.
    pub(crate) fn let_go(self) {}
}

/// Lets go of what rows gave.
pub(crate) fn let_rows_go(_rows: Vec<RowPiece>) {}

/// Lets go of what a map had of a key list, if it had anything.
pub(crate) fn let_old_go(_old: Option<Keyed>) {}
