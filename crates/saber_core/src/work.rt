//! What a ring is generic over.
ghost use Rattle.std.specs.Prelude.{◌≡◌, ℕ, Bool, ◌≤◌, ◌+◌};

/// What a ring moves from seat to seat: the rows of a task, the piece that is made of them, and
/// the stage that assembles the pieces in the order of tasks. A ring looks into none of them; it
/// promises that each value it hands out stands in the relation below that its owner wants.
pub trait Work {
    /// The rows of a task, from its fill on.
    type Rows;

    /// What a seat makes of the rows of a task.
    type Piece;

    /// What assembles the pieces, handed from holder to holder of the turn.
    type Stage;

    /// Plain data of the tasks filled so far. No value of it is made: it is what clauses speak of.
    type Data;

    // The data are those of this many tasks.
    ghost is_told: { Self.Data → ℕ → Type 0 };

    // The data once the next task is filled with these rows.
    ghost filled: { Self.Data → Self.Rows → Self.Data };

    // The data of the first so many tasks.
    ghost upto: { Self.Data → ℕ → Self.Data };

    // These are the rows of a task, the last one that the data know.
    ghost is_rows: { Self.Data → ℕ → Self.Rows → Type 0 };

    // This is the piece of a task, the last one that the data know. The mark of want of memory
    // may stand for any piece.
    ghost is_piece: { Self.Data → ℕ → Self.Piece → Type 0 };

    // The first task whose rows this one needs, by the data of the tasks before it. It needs those
    // of all tasks from that one on to its own.
    ghost first: { Self.Data → ℕ → ℕ };

    // The stage has assembled the pieces of so many tasks, and is stopped or goes on. The data
    // are those of these tasks, and of the one where it stopped.
    ghost is_stage: { Self.Data → ℕ → Bool → Self.Stage → Type 0 };

    // A fill leaves the data of all earlier tasks. So a job or a turn that was handed out before
    // it still holds what its data say.
    ghost keeps: { (told : Self.Data) (d k : ℕ) (rows : Self.Rows)
        → is_told told d → is_told (filled told rows) (d + 1) → is_rows (filled told rows) d rows → k ≤ d
        → upto (filled told rows) k ≡ upto told k };

    // The first tasks of the first tasks are those of all. So what a seat knows of its task agrees
    // with what the ring knows of more tasks.
    ghost again: { (told : Self.Data) (d j k : ℕ) → is_told told d → k ≤ j → j ≤ d → upto (upto told j) k ≡ upto told k };

    // The data of all tasks are the data. So the task that was filled last is the last one that
    // they know.
    ghost whole: { (told : Self.Data) (d : ℕ) → is_told told d → upto told d ≡ told };

    // No task needs rows of a later one first.
    ghost early: { (told : Self.Data) (d t : ℕ) → is_told told d → t ≤ d → first (upto told t) t ≤ t };

    // The first task that is needed never falls. So rows that the tasks from some one on don't need
    // stay unneeded.
    ghost rises: { (told : Self.Data) (d j k : ℕ) → is_told told d → j ≤ k → k ≤ d → first (upto told j) j ≤ first (upto told k) k };
}
