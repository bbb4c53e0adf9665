// One row, lent.
use saber_plan::{Row, Side};
use std::marker::Model;

/// A row whose numbers lie in a list of others, seen as the row.
#[derive(Drop)]
pub struct RowRef<'a> {
    side: Side,
    values: &'a [i64],
}

impl<'a> Model for RowRef<'a> {
    ghost use Rattle.saber_plan.specs.declared.rows.Row.{Row};

    ghost Value = { Row };

    ghost view = { λ r. record { side = r.side; values = r.values.now } };
}

impl<'a> RowRef<'a> {
    ghost use Rattle.std.specs.Prelude.{◌≡◌};

    /// A row of this stream with these numbers, the timestamp first.
    #[inline(always)]
    pub fn new(side: Side, values: &'a [i64]) -> RowRef<'a>
        ensures side { result.side ≡ side }
        ensures values { result.values ≡ values.now }
    {
        RowRef { side, values }
    }

    /// The same row as one that stands alone.
    pub fn of(row: &'a Row) -> RowRef<'a>
        ensures { result ≡ row.now }
    {
        RowRef {
            side: row.side,
            values: row.values.as_slice(),
        }
    }

    /// The same row once more.
    #[inline(always)]
    pub fn again(&self) -> RowRef<'a>
        ensures { result ≡ self.now }
    {
        RowRef {
            side: self.side,
            values: self.values,
        }
    }

    /// The stream that it came on.
    #[inline(always)]
    pub fn side(&self) -> Side
        ensures { result ≡ self.now.side }
    {
        self.side
    }

    /// Its columns, the timestamp first.
    #[inline(always)]
    pub fn values(&self) -> &'a [i64]
        ensures { result.now ≡ self.now.values }
    {
        self.values
    }
}
