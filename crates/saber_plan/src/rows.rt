// Rows, and why a line of a file is none.
use crate::NoMemory;
use smallvec::SmallVec;
use std::alloc::Global;
use std::marker::Model;

/// Which of a query's streams: the first one of FROM is the left.
#[derive(Clone, Copy, Debug, PartialEq, Eq)]
pub enum Side {
    Left,
    Right,
}

/// The numbers of a row, the timestamp first, seen as a list. Up to eight lie in the value itself,
/// so that a row of at most eight columns takes no memory.
#[derive(Drop)]
pub struct Values {
    items: SmallVec<i64, 8>,
}

impl Model for Values {
    ghost use Rattle.std.specs.Prelude.{List, ℤ, ◌≤◌};

    ghost Value = { List ℤ };

    ghost view = { λ v. v.items.items };

    ghost invariant = { λ v. 8 ≤ v.items.capacity };
}

impl Values {
    ghost use Rattle.std.specs.Prelude.{◌≡◌, ◌<◌, [], ◌∷◌, ◌++◌, length, IsOk, IfOk, OnOk, OnErr};

    /// No numbers yet. Takes no memory.
    #[inline]
    pub fn new(alloc: Global) -> Values
        ensures { result ≡ [] }
    {
        Values {
            items: SmallVec::new(alloc),
        }
    }

    /// A copy of these numbers.
    pub fn from_slice(alloc: Global, numbers: &[i64]) -> Result<Values, NoMemory>
        ensures { IfOk result (λ v. v ≡ numbers.now) }
    {
        let mut items = SmallVec::new(alloc);
        items.extend_from_slice(numbers)?;
        Ok(Values { items })
    }

    /// One number more, behind the others. Only the ninth and those behind it may want memory.
    #[inline]
    pub fn push(&mut self, number: i64) -> Result<(), NoMemory>
        ensures few { length self.old < 8 → IsOk result }
        ensures ok { OnOk result (self.new ≡ self.old ++ number ∷ []) }
        ensures err { OnErr result (self.new ≡ self.old) }
    {
        self.items.push(number)?;
        Ok(())
    }

    /// The numbers in order.
    #[inline]
    pub fn as_slice(&self) -> &[i64]
        ensures { result.now ≡ self.now }
    {
        self.items.as_slice()
    }
}

/// A row of one of the streams.
#[derive(Drop)]
pub struct Row {
    /// The stream that it came on.
    pub side: Side,
    /// Its columns, the timestamp first.
    pub values: Values,
}

impl Row {
    ghost use Rattle.std.specs.Prelude.{◌≡◌, IfOk};

    /// An equal row.
    pub fn copy(&self, alloc: Global) -> Result<Row, NoMemory>
        ensures { IfOk result (λ r. r ≡ self.now) }
    {
        let values = Values::from_slice(alloc, self.values.as_slice())?;
        Ok(Row {
            side: self.side,
            values,
        })
    }
}

/// Why a line is refused. Fields count from 1. For one line the causes are tried in this order.
#[derive(Clone, Copy, Debug, PartialEq, Eq)]
pub enum RowCause {
    /// The line's number is above the limit of lines.
    TooManyLines,
    /// The content has more than 4,096 bytes.
    TooLong,
    /// There are more or fewer fields than columns.
    FieldCount,
    /// The first field from the left that is no number.
    BadNumber { field: u32 },
    /// The first field from the left that is out of its range: 0 to 2^62 for the timestamp, 64 bits
    /// for the others.
    Range { field: u32 },
    /// The timestamp is below the greatest one before it by more than the slack.
    TimeOrder,
    /// With this row more than 1,048,576 rows would wait for others.
    TooManyHeld,
}
