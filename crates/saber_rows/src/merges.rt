// The rows of two readers, merged by timestamp.
use crate::ends::RowEnd;
use crate::heads::{Head, Look};
use crate::lines::Lines;
use saber_flat::RowBuilder;
use saber_io::Source;
use saber_plan::{Row, Side};

/// The merged rows of two sides, from the bytes of two sources. Contracts see it as a `Merger`, by
/// `merger_of`. It is called with the same sources each time.
#[derive(Drop)]
pub struct Merge {
    left: Head,
    right: Head,
}

impl Merge {
    ghost use Rattle.std.specs.Prelude.{◌≡◌, ◌≢◌, ◌≤◌, nat_le, Some, Err, IfSome, [], true, false};
    ghost use Rattle.saber_plan.specs.declared.rows.Side.TheVariants as sides;
    ghost use Rattle.saber_plan.specs.declared.windows.Mark.{Mark};
    ghost use Rattle.saber_rows.specs.declared.ends.RowEnd.{RowEnd};
    ghost use Rattle.saber_rows.specs.declared.heads.Look.{Look};
    ghost use Rattle.saber_rows.specs.Reader.{reader_of, NeedsMore};
    ghost use Rattle.saber_rows.specs.Calls.{ReadsNoMore};
    ghost use Rattle.saber_rows.specs.Heads.{head_view, front_of};
    ghost use Rattle.saber_rows.specs.Merging.{merger_of, new_merger, settled_answer, merge_answer, Passed, StartsPassed, MergeTurns, RightTurns};
    ghost use Rattle.saber_rows.specs.MergedRows.{MergesOne, MergeStands, TakesFront, TakesMerged};
    ghost use Rattle.saber_rows.specs.Merging.{FaultRose, RightFaultRose};

    /// The merge of a reader of the left side and one of the right. Takes no memory.
    pub fn new(left: Lines, right: Lines) -> Merge
        ensures is { merger_of result ≡ new_merger (reader_of left) (reader_of right) }
        ensures passed { StartsPassed (reader_of left) (reader_of right) (merger_of result) }
    {
        Merge {
            left: Head::new(left),
            right: Head::new(right),
        }
    }

    // The next row, where the left side is read to its end: the right side's.
    fn right_row<S: Source>(&mut self, right: &mut S) -> Result<Option<Row>, (Side, RowEnd)>
        ensures turn { RightTurns Look.Ended result (merger_of self.old) (merger_of self.new) (S.left right.old) (S.left right.new) }
        ensures again { IfSome (settled_answer (Some Look.Ended) (front_of (merger_of self.old).right))
            (λ answer. (result ≡ answer) × (self.new ≡ self.old) × (right.new ≡ right.old)) }
        ensures left { (e : RowEnd) → result ≢ Err (sides.Left, e) }
        ensures cause { RightFaultRose (merger_of self.old) result (S.faults right.old) (S.faults right.new) }
        ensures good { result ≢ Err (sides.Right, RowEnd.ReadFault) → S.faults right.new ≡ S.faults right.old }
        ensures left_rules { (merger_of self.new).left.reader.rules ≡ (merger_of self.old).left.reader.rules }
        ensures right_rules { (merger_of self.new).right.reader.rules ≡ (merger_of self.old).right.reader.rules }
        ensures count { S.faults right.old ≤ S.faults right.new }
        ensures reads { ¬ NeedsMore (merger_of self.old).right.reader → right.new ≡ right.old }
        ensures once { ReadsNoMore S.left right.old right.new (merger_of self.old).right.reader }
    {
        match self.right.look(right) {
            Look::Found(_) => Ok(self.right.take()),
            Look::Ended => Ok(None),
            Look::Failed(end) => Err((Side::Right, end)),
        }
    }

    // The row in front of one side, where both have one, with these timestamps: the lesser, the left
    // on a tie.
    #[inline(always)]
    fn take_lesser(&mut self, stamp: u64, other: u64) -> Option<Row>
        ensures { TakesFront (nat_le stamp other) result (merger_of self.old) (merger_of self.new) }
    {
        if stamp <= other {
            self.left.take()
        } else {
            self.right.take()
        }
    }

    // The next row, where the left side has one with this timestamp: the lesser, the left on a tie.
    fn lesser_row<S: Source>(
        &mut self,
        stamp: u64,
        right: &mut S,
    ) -> Result<Option<Row>, (Side, RowEnd)>
        ensures turn { RightTurns (Look.Found stamp) result (merger_of self.old) (merger_of self.new) (S.left right.old) (S.left right.new) }
        ensures again { IfSome (settled_answer (Some (Look.Found stamp)) (front_of (merger_of self.old).right))
            (λ answer. (result ≡ answer) × (self.new ≡ self.old) × (right.new ≡ right.old)) }
        ensures left { (e : RowEnd) → result ≢ Err (sides.Left, e) }
        ensures cause { RightFaultRose (merger_of self.old) result (S.faults right.old) (S.faults right.new) }
        ensures good { result ≢ Err (sides.Right, RowEnd.ReadFault) → S.faults right.new ≡ S.faults right.old }
        ensures left_rules { (merger_of self.new).left.reader.rules ≡ (merger_of self.old).left.reader.rules }
        ensures right_rules { (merger_of self.new).right.reader.rules ≡ (merger_of self.old).right.reader.rules }
        ensures count { S.faults right.old ≤ S.faults right.new }
        ensures reads { ¬ NeedsMore (merger_of self.old).right.reader → right.new ≡ right.old }
        ensures once { ReadsNoMore S.left right.old right.new (merger_of self.old).right.reader }
    {
        match self.right.look(right) {
            Look::Found(other) => Ok(self.take_lesser(stamp, other)),
            Look::Ended => Ok(self.left.take()),
            Look::Failed(end) => Err((Side::Right, end)),
        }
    }

    // Appends the next row, if both sides hold theirs: the lesser, the left on a tie. Tells whether
    // it did.
    #[inline(always)]
    fn put_lesser(&mut self, out: &mut RowBuilder) -> bool
        requires begun { out.old.begun ≡ [] }
        ensures begun { out.new.begun ≡ [] }
        ensures one { result ≡ true → MergesOne (merger_of self.old) (merger_of self.new) out.old.rows out.new.rows }
        ensures none { result ≡ false → MergeStands (merger_of self.old) (merger_of self.new) × (out.new.rows ≡ out.old.rows) }
    {
        let Some(time) = self.left.look_quick() else {
            return false;
        };
        let Some(other) = self.right.look_quick() else {
            return false;
        };
        if time <= other {
            self.left.put(out)
        } else {
            self.right.put(out)
        }
    }

    /// Appends the next rows, up to so many, as far as both sides hold them whole and as rows at
    /// the first look, and there is no slack. Answers how many they are. No source is asked.
    #[inline(never)]
    pub fn take_quick(&mut self, out: &mut RowBuilder, most: usize) -> usize
        requires begun { out.old.begun ≡ [] }
        ensures most { result ≤ most }
        ensures begun { out.new.begun ≡ [] }
        ensures rows { TakesMerged result (merger_of self.old) (merger_of self.new) out.old.rows out.new.rows }
    {
        let mut taken = 0;
        while taken < most {
            if !self.put_lesser(out) {
                return taken;
            }
            taken += 1;
        }
        taken
    }

    /// The next row by timestamp, the left on a tie, or `None` at the end of both. The left side is
    /// asked first; a side that has a row in front isn't asked. An error names its side. It comes
    /// when that side's next row is wanted, also where the other side has an earlier one. After an
    /// error or `None` each later call gives the same answer and reads nothing.
    pub fn next<S: Source>(
        &mut self,
        left: &mut S,
        right: &mut S,
    ) -> Result<Option<Row>, (Side, RowEnd)>
        // What the call takes of the sources and of the rows that are left, whatever bytes follow,
        // and why a row doesn't come.
        ensures turn { MergeTurns result (merger_of self.old) (merger_of self.new) (S.left left.old) (S.left left.new) (S.left right.old) (S.left right.new) }

        // An answer that ends the merge is given again.
        ensures again { IfSome (merge_answer (merger_of self.old))
            (λ answer. (result ≡ answer) × (self.new ≡ self.old) × (left.new ≡ left.old) × (right.new ≡ right.old)) }

        // A fault of reading comes first only in a call in which that side's count rose; else that
        // count stays, and none falls.
        ensures left_cause { FaultRose sides.Left (merger_of self.old) result (S.faults left.old) (S.faults left.new) }
        ensures right_cause { (m : Mark) → Passed m (merger_of self.old)
            → FaultRose sides.Right (merger_of self.old) result (S.faults right.old) (S.faults right.new) }
        ensures left_good { result ≢ Err (sides.Left, RowEnd.ReadFault) → S.faults left.new ≡ S.faults left.old }
        ensures right_good { result ≢ Err (sides.Right, RowEnd.ReadFault) → S.faults right.new ≡ S.faults right.old }
        ensures left_count { S.faults left.old ≤ S.faults left.new }
        ensures right_count { S.faults right.old ≤ S.faults right.new }

        // What is fixed of the sides stays, and a side is read only where it holds no line that
        // decides its next row; and no more once it holds one.
        ensures left_rules { (merger_of self.new).left.reader.rules ≡ (merger_of self.old).left.reader.rules }
        ensures right_rules { (merger_of self.new).right.reader.rules ≡ (merger_of self.old).right.reader.rules }
        ensures left_reads { ¬ NeedsMore (merger_of self.old).left.reader → left.new ≡ left.old }
        ensures right_reads { ¬ NeedsMore (merger_of self.old).right.reader → right.new ≡ right.old }
        ensures left_once { ReadsNoMore S.left left.old left.new (merger_of self.old).left.reader }
        ensures right_once { ReadsNoMore S.left right.old right.new (merger_of self.old).right.reader }
    {
        match self.left.look(left) {
            Look::Found(stamp) => self.lesser_row(stamp, right),
            Look::Ended => self.right_row(right),
            Look::Failed(end) => Err((Side::Left, end)),
        }
    }
}
