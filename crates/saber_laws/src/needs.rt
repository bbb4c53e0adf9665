// The law of the rows that a task needs.
ghost use Rattle.saber_laws.specs.Needs.{NeedsMakePieces};

/// The rows that a task needs are enough for its piece.
pub fn needs_make_pieces()
    ensures { NeedsMakePieces }
{}
