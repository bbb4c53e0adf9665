// The law of the windows of a key list.
ghost use Rattle.saber_laws.specs.Lists.{RowsCloseOne};

/// A row closes at most one window by rows.
pub fn rows_close_one()
    ensures { RowsCloseOne }
{}
