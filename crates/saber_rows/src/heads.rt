// A reader, and the row in front of it.
ghost use Rattle.std.specs.Prelude.{◌≡◌, None, [], ◌∷◌, ◌++◌, OnOk, true, false};
ghost use Rattle.saber_rows.specs.Reader.{reader_of};

use crate::ends::RowEnd;
use crate::judge::stamp_of;
use crate::lines::Lines;
use saber_flat::RowBuilder;
use saber_io::Source;
use saber_plan::{NoMemory, Row};

/// A reader, and the row that it gave last, with whether that isn't passed on yet. The next row is
/// written over it.
#[derive(Drop)]
pub(crate) struct Head {
    lines: Lines,
    row: Row,
    full: bool,
}

/// What stands in front of a side: a row with this timestamp, or none.
#[derive(Clone, Copy)]
pub(crate) enum Look {
    Found(u64),
    Ended,
    Failed(RowEnd),
}

// Appends numbers to the row that is not closed.
#[inline(always)]
fn put_numbers(numbers: &[i64], out: &mut RowBuilder) -> Result<(), NoMemory>
    requires begun { out.old.begun ≡ [] }
    ensures rows { out.new.rows ≡ out.old.rows }
    ensures numbers { OnOk result (out.new.begun ≡ numbers.now) }
{
    for i in 0..numbers.len() {
        out.put(numbers[i])?;
    }
    Ok(())
}

// Appends a copy of a row, and tells whether it did. Rows are short, so that it goes number by
// number.
#[inline(always)]
fn put_copy(row: &Row, out: &mut RowBuilder) -> bool
    requires begun { out.old.begun ≡ [] }
    ensures begun { out.new.begun ≡ [] }
    ensures put { result ≡ true → out.new.rows ≡ out.old.rows ++ row.now ∷ [] }
    ensures kept { result ≡ false → out.new.rows ≡ out.old.rows }
{
    if put_numbers(row.values.as_slice(), out).is_err() || out.close(row.side).is_err() {
        out.drop_begun();
        return false;
    }
    true
}

impl Head {
    ghost use Rattle.std.specs.Prelude.{◌≡◌, ◌≢◌, ◌≤◌, ℕ, ℤ, List, [], Option, None, IfSome, true, false};
    ghost use Rattle.saber_plan.specs.Outputs.{Rose};
    ghost use Rattle.saber_plan.specs.declared.rows.Side.{Side};
    ghost use Rattle.saber_rows.specs.declared.heads.Look.{Look};
    ghost use Rattle.saber_rows.specs.declared.ends.RowEnd.{RowEnd};
    ghost use Rattle.saber_rows.specs.Reader.{reader_of, NeedsMore};
    ghost use Rattle.saber_rows.specs.Calls.{ReadsNoMore};
    ghost use Rattle.saber_rows.specs.Heads.{head_view, bare, LooksAfterAny, front_of};
    ghost use Rattle.saber_rows.specs.MergedRows.{PutsFront};

    /// A reader with no row in front of it.
    pub(crate) fn new(lines: Lines) -> Head
        ensures { head_view result ≡ bare (reader_of lines) }
    {
        let row = lines.no_row();
        Head {
            lines,
            row,
            full: false,
        }
    }

    /// Has the next row in front, and tells its timestamp, or why there is none. It reads only
    /// where no row is in front.
    pub(crate) fn look<S: Source>(&mut self, source: &mut S) -> Look
        ensures looks { LooksAfterAny result (head_view self.old) (head_view self.new) (S.left source.old) (S.left source.new) }
        ensures again { IfSome (front_of (head_view self.old)) (λ look. (result ≡ look) × (self.new ≡ self.old) × (source.new ≡ source.old)) }
        ensures rules { (head_view self.new).reader.rules ≡ (head_view self.old).reader.rules }
        ensures cause { front_of (head_view self.old) ≡ None → result ≡ Look.Failed RowEnd.ReadFault → Rose (S.faults source.old) (S.faults source.new) }
        ensures good { result ≢ Look.Failed RowEnd.ReadFault → S.faults source.new ≡ S.faults source.old }
        ensures count { S.faults source.old ≤ S.faults source.new }
        ensures reads { ¬ NeedsMore (head_view self.old).reader → source.new ≡ source.old }
        ensures once { ReadsNoMore S.left source.old source.new (head_view self.old).reader }
    {
        if self.full {
            return Look::Found(stamp_of(self.row.values.as_slice()));
        }
        match self.lines.next(source) {
            Ok(Some(row)) => {
                let stamp = stamp_of(row.values.as_slice());
                self.row = row;
                self.full = true;
                Look::Found(stamp)
            }
            Ok(None) => Look::Ended,
            Err(end) => Look::Failed(end),
        }
    }

    /// Has the next row in front where the reader holds it and needs no second look at it, and
    /// tells its timestamp. The source isn't asked.
    #[inline(always)]
    pub(crate) fn look_quick(&mut self) -> Option<u64>
        ensures none { result ≡ None → head_view self.new ≡ head_view self.old }
        ensures some { IfSome result (λ stamp. (left : Option (List ℕ)) → LooksAfterAny (Look.Found stamp) (head_view self.old) (head_view self.new) left left) }
        ensures rules { (head_view self.new).reader.rules ≡ (head_view self.old).reader.rules }
    {
        if self.full {
            return Some(stamp_of(self.row.values.as_slice()));
        }
        self.fetch_quick()
    }

    // The same where no row is in front.
    #[inline(always)]
    fn fetch_quick(&mut self) -> Option<u64>
        requires { self.old.full ≡ false }
        ensures none { result ≡ None → head_view self.new ≡ head_view self.old }
        ensures some { IfSome result (λ stamp. (left : Option (List ℕ)) → LooksAfterAny (Look.Found stamp) (head_view self.old) (head_view self.new) left left) }
        ensures rules { (head_view self.new).reader.rules ≡ (head_view self.old).reader.rules }
    {
        self.row = self.lines.no_row();
        let stamp = self.lines.held_into(&mut self.row.values)?;
        self.full = true;
        Some(stamp)
    }

    /// Appends the row in front, and tells whether it did.
    #[inline(always)]
    pub(crate) fn put(&mut self, out: &mut RowBuilder) -> bool
        requires begun { out.old.begun ≡ [] }
        ensures begun { out.new.begun ≡ [] }
        ensures put { result ≡ true → PutsFront (head_view self.old) (head_view self.new) out.old.rows out.new.rows }
        ensures kept { result ≡ false → (head_view self.new ≡ head_view self.old) × (out.new.rows ≡ out.old.rows) }
    {
        if !self.full || !put_copy(&self.row, out) {
            return false;
        }
        self.full = false;
        true
    }

    /// Passes on the row in front.
    pub(crate) fn take(&mut self) -> Option<Row>
        ensures row { result ≡ (head_view self.old).ahead }
        ensures rest { head_view self.new ≡ bare (head_view self.old).reader }
    {
        if !self.full {
            return None;
        }
        self.full = false;
        let none = self.lines.no_row();
        Some(std::mem::replace(&mut self.row, none))
    }
}
