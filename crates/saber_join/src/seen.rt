// Rows of a task, and of its look-back.
ghost use Rattle.std.specs.Prelude.{◌≡◌, ◌+◌, ◌^◌, ◌<◌, pos};
ghost use Rattle.saber_plan.specs.Windows.{place};
ghost use Rattle.saber_join.specs.Standing.{standing_row};

use saber_flat::RowRef;
use saber_plan::Mark;
use std::marker::Model;

/// A row, and how many rows of both sides came before it. Contracts see it as the row behind so
/// many others.
#[derive(Drop)]
pub(crate) struct Seen<'a> {
    row: RowRef<'a>,
    place: u64,
}

impl<'a> Model for Seen<'a> {
    ghost use Rattle.std.specs.Prelude.{◌^◌, ◌<◌};
    ghost use Rattle.saber_plan.specs.Windows.{Placed};
    ghost use Rattle.saber_join.specs.Standing.{behind_rows};

    ghost Value = { Placed };

    ghost view = { λ s. record { row = s.row; before = behind_rows s.place } };

    ghost invariant = { λ s. s.place < 2 ^ 62 };
}

impl<'a> Seen<'a> {
    /// A row with the mark before it, of which its place alone is kept.
    pub(crate) fn new(row: &RowRef<'a>, before: Mark) -> Seen<'a>
        requires { before.left + before.right < 2 ^ 62 }
        ensures { result ≡ standing_row (record { row = row.now; before = before }) }
    {
        Seen {
            row: row.again(),
            place: before.left + before.right,
        }
    }

    /// How many rows of both sides came before it.
    pub(crate) fn place(&self) -> i64
        ensures { result ≡ pos (place self.now) }
    {
        self.place as i64
    }

    /// The row itself.
    pub(crate) fn row(&self) -> &RowRef<'a>
        ensures { result.now ≡ self.now.row }
    {
        &self.row
    }
}
