// Usual rows that are held whole, in one pass over their bytes.
use crate::judge::{is_below, stamp_of};
use crate::lines::{Lines, Run};
use crate::quick_rows::{put_row, row_in};
use saber_flat::RowBuilder;
use saber_plan::{Row, Values};

impl Lines {
    ghost use Rattle.std.specs.Prelude.{◌≡◌, ◌≤◌, [], IfSome, None, true};
    ghost use Rattle.saber_plan.specs.Rows.{before, stamp as stamp_in};
    ghost use Rattle.saber_rows.specs.Reader.{reader_of};
    ghost use Rattle.saber_rows.specs.Calls.{HoldsNext, TakesRows, IsGiven};
    ghost use Rattle.saber_rows.specs.Turns.{Steps, Runs};

    // The row at the front, if it is a row at the first look, and there is no slack. The source is
    // not asked.
    #[inline]
    pub(crate) fn quick_row(&mut self) -> Option<Row>
        ensures none { result ≡ None → self.new ≡ self.old }
        ensures some { IfSome result (λ row. Steps (before row) (reader_of self.old) (reader_of self.new)) }
        ensures given { IfSome result (λ row. IsGiven row (reader_of self.old) (reader_of self.new)) }
        ensures rules { (reader_of self.new).rules ≡ (reader_of self.old).rules }
        ensures stop { self.new.stop ≡ self.old.stop }
    {
        let mut row = self.no_row();
        self.held_into(&mut row.values)?;
        Some(row)
    }

    // Whether rows at the front that are rows at the first look are the next ones.
    #[inline(always)]
    fn is_plain(&self) -> bool
        ensures slack { result ≡ true → self.now.slack ≡ 0 }
        ensures goes { result ≡ true → self.now.stop ≡ None }
        ensures over { result ≡ true → self.now.over ≡ None }
    {
        self.slack == 0 && self.stop.is_none() && self.over.is_none()
    }

    /// A row of the side without numbers, to be written into.
    #[inline(always)]
    pub(crate) fn no_row(&self) -> Row
        ensures { result ≡ record { side = self.now.side; values = [] } }
    {
        Row {
            side: self.side,
            values: Values::new(self.alloc),
        }
    }

    /// Writes the next row's numbers here, and tells its timestamp, if it is held and is a row at
    /// the first look, and there is no slack. Where it is not, some of its numbers may be there.
    /// The source is not asked.
    #[inline(always)]
    pub(crate) fn held_into(&mut self, values: &mut Values) -> Option<u64>
        requires empty { values.old ≡ [] }
        ensures none { result ≡ None → self.new ≡ self.old }
        ensures own { IfSome result (λ time. time ≡ stamp_in values.new) }
        ensures steps { IfSome result (λ time. Steps (before (record { side = self.old.side; values = values.new })) (reader_of self.old) (reader_of self.new)) }
        ensures stop { self.new.stop ≡ self.old.stop }
        ensures some { IfSome result (λ time. HoldsNext (record { side = self.old.side; values = values.new }) (reader_of self.old) (reader_of self.new)) }
    {
        if !self.is_plain() || self.lines >= self.max_lines {
            return None;
        }
        let n = row_in(self.columns, self.held.bytes(), values)?;
        let stamp = stamp_of(values.as_slice());
        if is_below(self.high, stamp) {
            return None;
        }
        self.high = Some(stamp);
        self.last = Some(stamp);
        self.held.consume(n + 1);
        self.lines += 1;
        Some(stamp)
    }

    // Appends the rows at the front, up to so many, as far as each is one at the first look.
    #[inline(always)]
    fn run(&self, out: &mut RowBuilder, most: usize) -> Run
        requires begun { out.old.begun ≡ [] }
        requires slack { self.now.slack ≡ 0 }
        requires goes { self.now.stop ≡ None }
        requires over { self.now.over ≡ None }
        ensures most { result.taken ≤ most }
        ensures begun { out.new.begun ≡ [] }
        ensures runs { Runs (reader_of self.now) self.now.over result out.old.rows out.new.rows }
    {
        let side = self.side;
        let columns = self.columns;
        let held = self.held.bytes();
        let most = most.min((self.max_lines - self.lines) as usize);
        let mut run = Run {
            taken: 0,
            at: 0,
            high: self.high,
            last: self.last,
        };
        while run.taken < most {
            let rest = &held[run.at..];
            let Some((n, stamp)) = put_row(side, columns, rest, run.high, out) else {
                return run;
            };
            run.taken += 1;
            run.at += n + 1;
            run.high = Some(stamp);
            run.last = Some(stamp);
        }
        run
    }

    /// Appends the next rows, up to so many, as far as they are held whole and are rows at the
    /// first look, and there is no slack. Answers how many they are. No source is asked.
    #[inline(never)]
    pub fn take_quick(&mut self, out: &mut RowBuilder, most: usize) -> usize
        requires begun { out.old.begun ≡ [] }
        ensures most { result ≤ most }
        ensures begun { out.new.begun ≡ [] }
        ensures rows { TakesRows result (reader_of self.old) (reader_of self.new) out.old.rows out.new.rows }
    {
        if !self.is_plain() {
            return 0;
        }
        let run = self.run(out, most);
        self.lines += run.taken as u64;
        self.high = run.high;
        self.last = run.last;
        self.held.consume(run.at);
        run.taken
    }
}
