// Rows from a feed.
use crate::ends::{FedRow, RowEnd, Stop, fed_row};
use crate::lines::{Lines, Turn};
use saber_io::{Fed, Feed};
use saber_plan::Row;

impl Lines {
    ghost use Rattle.std.specs.Prelude.{◌≡◌, ◌≢◌, ◌≤◌, IfOk, IfSome, IfNone, Some, None, Ok, Err, option_map, true, false};
    ghost use Rattle.saber_io.specs.declared.feeds.EndMark.{EndMark};
    ghost use Rattle.saber_plan.specs.Outputs.{Rose};
    ghost use Rattle.saber_plan.specs.Rows.{all_read};
    ghost use Rattle.saber_rows.specs.Reader.{reader_of, rest_over, gone_count, HasEnd, EndsRefused, NeedsMore};
    ghost use Rattle.saber_rows.specs.Calls.{Moves, IsGiven, IsNext, WantsMemory};
    ghost use Rattle.saber_rows.specs.Turns.{IfAgain, HasEnough, IsDrained, TurnFaults};
    ghost use Rattle.saber_rows.specs.declared.ends.RowEnd.{RowEnd};
    ghost use Rattle.saber_rows.specs.FedTurns.{answer_in, given_in, kept_in, last_in, IsDry, IsCutOff, HasNothing, Waits, IsKnown};
    ghost use Rattle.saber_rows.specs.FedSteps.{StaysDry};
    ghost use Rattle.saber_rows.specs.FedAnswers.{FedTurned, FedAnswered, FedEnds, FedFaults};

    // Takes some more of a feed, if something is there.
    fn fill_fed<F: Feed>(&mut self, feed: &mut F) -> Option<Turn>
        requires drained { IsDrained (reader_of self.old) }
        ensures turns { IfSome result (λ t. FedTurned t (reader_of self.old) (reader_of self.new) (F.waiting feed.old) (F.waiting feed.new) (F.mark feed.old)) }
        ensures dry { IfNone result (StaysDry (reader_of self.old) (reader_of self.new) (F.waiting feed.old) (F.waiting feed.new) (F.mark feed.old)) }
        ensures faults { IfSome result (λ t. TurnFaults t (F.faults feed.old) (F.faults feed.new)) }
        ensures calm { IfNone result (F.faults feed.new ≡ F.faults feed.old) }
        ensures stop { self.new.stop ≡ self.old.stop }
        ensures stands { (F.taken feed.new ≡ F.taken feed.old) × (F.mark feed.new ≡ F.mark feed.old) }
    {
        let fed = match self.held.fill_fed(feed) {
            Ok(fed) => fed,
            Err(_) => return Some(Turn::Stop(Stop::Failed(RowEnd::ReadFault))),
        };
        match fed {
            Fed::Bytes(_) => Some(Turn::Again),
            Fed::End => {
                self.ended = true;
                Some(Turn::Again)
            }
            Fed::NotYet => None,
        }
    }

    // One step: a line, or bytes of the feed. None where nothing is there as yet.
    fn turn_fed<F: Feed>(&mut self, feed: &mut F) -> Option<Turn>
        ensures turns { IfSome result (λ t. FedTurned t (reader_of self.old) (reader_of self.new) (F.waiting feed.old) (F.waiting feed.new) (F.mark feed.old)) }
        ensures dry { IfNone result (StaysDry (reader_of self.old) (reader_of self.new) (F.waiting feed.old) (F.waiting feed.new) (F.mark feed.old)) }
        ensures faults { IfSome result (λ t. TurnFaults t (F.faults feed.old) (F.faults feed.new)) }
        ensures calm { IfNone result (F.faults feed.new ≡ F.faults feed.old) }
        ensures stop { self.new.stop ≡ self.old.stop }
        ensures stands { (F.taken feed.new ≡ F.taken feed.old) × (F.mark feed.new ≡ F.mark feed.old) }
        ensures reads { HasEnough (reader_of self.old) → feed.new ≡ feed.old }
        ensures enough { HasEnough (reader_of self.old) → IfSome result (λ t. IfAgain t (HasEnough (reader_of self.new))) }
    {
        match self.turn_held() {
            Some(turn) => Some(turn),
            None => self.fill_fed(feed),
        }
    }

    // The next answer of a reader that has not stopped, by as many turns as it takes. None where
    // nothing is there as yet.
    #[inline(never)]
    fn advance_fed<F: Feed>(&mut self, feed: &mut F) -> Option<Result<Option<Row>, RowEnd>>
        requires { self.old.stop ≡ None }
        ensures call { FedAnswered result (reader_of self.old) (reader_of self.new) (F.waiting feed.old) (F.waiting feed.new) (F.mark feed.old) }
        ensures ends { FedEnds result (reader_of self.new) (F.waiting feed.new) (F.mark feed.old) }
        ensures faults { FedFaults result (F.faults feed.old) (F.faults feed.new) }
        ensures stands { (F.taken feed.new ≡ F.taken feed.old) × (F.mark feed.new ≡ F.mark feed.old) }
        ensures reads { HasEnough (reader_of self.old) → feed.new ≡ feed.old }
    {
        loop {
            let Some(turn) = self.turn_fed(feed) else {
                return None;
            };
            match turn {
                Turn::Row(row) => return Some(Ok(Some(row))),
                Turn::Again => {}
                Turn::Stop(why) => {
                    self.stop = Some(why);
                    return Some(why.answer());
                }
            }
        }
    }

    // The same, where a row at the first look is given without a turn.
    #[inline]
    fn look_fed<F: Feed>(&mut self, feed: &mut F) -> Option<Result<Option<Row>, RowEnd>>
        requires { self.old.stop ≡ None }
        ensures call { FedAnswered result (reader_of self.old) (reader_of self.new) (F.waiting feed.old) (F.waiting feed.new) (F.mark feed.old) }
        ensures ends { FedEnds result (reader_of self.new) (F.waiting feed.new) (F.mark feed.old) }
        ensures faults { FedFaults result (F.faults feed.old) (F.faults feed.new) }
        ensures stands { (F.taken feed.new ≡ F.taken feed.old) × (F.mark feed.new ≡ F.mark feed.old) }
        ensures reads { HasEnough (reader_of self.old) → feed.new ≡ feed.old }
    {
        match self.quick_row() {
            Some(row) => Some(Ok(Some(row))),
            None => self.advance_fed(feed),
        }
    }

    // The next answer. One that ended the reader is given again.
    #[inline]
    fn answer_fed<F: Feed>(&mut self, feed: &mut F) -> Option<Result<Option<Row>, RowEnd>>
        ensures again { IfSome (reader_of self.old).answer (λ answer. (result ≡ Some answer) × (self.new ≡ self.old) × (feed.new ≡ feed.old)) }
        ensures call { FedAnswered result (reader_of self.old) (reader_of self.new) (F.waiting feed.old) (F.waiting feed.new) (F.mark feed.old) }
        ensures ends { (reader_of self.old).answer ≡ None → FedEnds result (reader_of self.new) (F.waiting feed.new) (F.mark feed.old) }
        ensures cause { (reader_of self.old).answer ≡ None → result ≡ Some (Err RowEnd.ReadFault) → Rose (F.faults feed.old) (F.faults feed.new) }
        ensures good { result ≢ Some (Err RowEnd.ReadFault) → F.faults feed.new ≡ F.faults feed.old }
        ensures count { F.faults feed.old ≤ F.faults feed.new }
        ensures stands { (F.taken feed.new ≡ F.taken feed.old) × (F.mark feed.new ≡ F.mark feed.old) }
        ensures reads { HasEnough (reader_of self.old) → feed.new ≡ feed.old }
    {
        match self.stop {
            Some(stop) => Some(stop.answer()),
            None => self.look_fed(feed),
        }
    }

    /// The next row of a feed, as `next` gives it. Where no row can be given and nothing is there
    /// as yet it says so, and a later call goes on. It is called with the same feed each time; once
    /// it saw its end it asks it no more.
    pub fn next_fed<F: Feed>(&mut self, feed: &mut F) -> Result<FedRow, RowEnd>
        // An answer that ends the reader is kept, and given again.
        ensures again { IfSome (reader_of self.old).answer (λ answer. (answer_in result ≡ Some answer) × (self.new ≡ self.old) × (feed.new ≡ feed.old)) }
        ensures answer { (reader_of self.old).answer ≡ None → (reader_of self.new).answer ≡ kept_in (answer_in result) }

        // What the call takes of what waits, and of the rows that are left, whatever bytes follow;
        // and if none do.
        ensures moves { Moves (given_in (answer_in result)) (reader_of self.old) (reader_of self.new) (Some (F.waiting feed.old)) (Some (F.waiting feed.new)) }
        ensures rest { rest_over (reader_of self.old) (Some (F.waiting feed.old))
            ≡ option_map (given_in (answer_in result)) (rest_over (reader_of self.new) (Some (F.waiting feed.new))) }
        ensures rules { (reader_of self.new).rules ≡ (reader_of self.old).rules }
        ensures stands { (F.taken feed.new ≡ F.taken feed.old) × (F.mark feed.new ≡ F.mark feed.old) }

        // Nothing is there as yet exactly where what waits decides no answer, but for want of
        // memory.
        ensures dry { answer_in result ≡ None → IsDry (reader_of self.new) (F.waiting feed.new) (F.mark feed.old) }
        ensures waits { (reader_of self.old).answer ≡ None → HasNothing (reader_of self.old) (F.waiting feed.old) (F.mark feed.old) → Waits (answer_in result) }

        // Which other answer comes: the first of the rest, but for a feed that was cut and want of
        // memory.
        ensures next { (reader_of self.old).answer ≡ None
            → IfSome (answer_in result) (λ a. IfSome (rest_over (reader_of self.old) (Some (F.waiting feed.old))) (IsNext a)) }
        ensures none { (reader_of self.old).answer ≡ None → answer_in result ≡ Some (Ok None) → HasEnd all_read (reader_of self.new) }
        ensures ended { (reader_of self.old).answer ≡ None → answer_in result ≡ Some (Ok None) → (reader_of self.new).ended ≡ true }
        ensures marked { (reader_of self.old).ended ≡ false → (reader_of self.new).ended ≡ true → F.mark feed.old ≡ Some EndMark.End }
        ensures refused { (reader_of self.old).answer ≡ None → EndsRefused result (reader_of self.old).rules.side (reader_of self.new) }
        ensures known { (reader_of self.old).answer ≡ None → IfSome (answer_in result) (λ a. IsKnown a (reader_of self.new)) }
        ensures cut { (reader_of self.old).answer ≡ None → result ≡ Err RowEnd.ReadFault
            → IsCutOff (reader_of self.new) (F.waiting feed.new) (F.mark feed.old) }
        ensures cause { (reader_of self.old).answer ≡ None → result ≡ Err RowEnd.ReadFault → Rose (F.faults feed.old) (F.faults feed.new) }
        ensures memory { (reader_of self.old).answer ≡ None → result ≡ Err RowEnd.NoMemory → WantsMemory (reader_of self.old).rules }
        ensures count { F.faults feed.old ≤ F.faults feed.new }

        // No fault is passed over.
        ensures good { result ≢ Err RowEnd.ReadFault → F.faults feed.new ≡ F.faults feed.old }

        // A row is as `next` gives it.
        ensures given { IfSome (answer_in result) (λ a. IfOk a (λ o. IfSome o (λ row. IsGiven row (reader_of self.old) (reader_of self.new)))) }
        ensures last { (reader_of self.new).last ≡ last_in (reader_of self.old).last (answer_in result) }
        ensures stays { gone_count (reader_of self.old) ≤ gone_count (reader_of self.new) }
        ensures counted { gone_count (reader_of self.new) ≤ (reader_of self.new).rules.most }

        // It asks only where it can give no row, and holds no line that decides the answer.
        ensures reads { ¬ NeedsMore (reader_of self.old) → feed.new ≡ feed.old }
    {
        let answer = self.answer_fed(feed);
        fed_row(answer)
    }
}
