// Rows from a source.
ghost use Rattle.std.specs.Prelude.{◌≤◌, ◌^◌, length};
ghost use Rattle.std.proofs.Props.{props};
ghost use Rattle.saber_plan.specs.Rows.{most_held};
ghost use Rattle.saber_rows.specs.Buffer.{bytes_of};
ghost use Rattle.saber_rows.specs.Waiting.{rows_in, AllBefore};
ghost use Rattle.saber_rows.specs.Sound.{side_rules, Sound, WasSeen, held_props};

use crate::buffer::Buffer;
use crate::ends::{Behind, RowEnd, Stop};
use crate::judge::{Judged, LONGEST, content_of, is_late, is_ready, judge_line, raise, stamp_of};
use crate::line_feeds::{line_end, line_feed_in};
use crate::waiting::Waiting;
use saber_io::Source;
use saber_plan::{NoMemory, Row, RowCause, Side, Values};
use std::alloc::Global;

// The most rows that may wait for others: this project's limit.
const MOST_HELD: usize = 1048576;

/// The rows of one side in order of time, from the bytes of a source. Contracts see a reader as a
/// `Reader`, by `reader_of`. It is called with the same source each time: once it saw the end of a
/// source it asks none again.
#[derive(Drop)]
pub struct Lines {
    pub(crate) alloc: Global,
    pub(crate) side: Side,
    pub(crate) columns: u32,
    pub(crate) max_lines: u64,
    pub(crate) slack: u64,
    // how many lines are behind
    pub(crate) lines: u64,
    // the greatest timestamp of the rows behind
    pub(crate) high: Option<u64>,
    // the rows behind that were not given
    waiting: Waiting,
    // the timestamp of the last row that was given
    pub(crate) last: Option<u64>,
    pub(crate) held: Buffer,
    // whether the source said that it ended
    pub(crate) ended: bool,
    // the end behind the rows that wait, once it is known
    pub(crate) over: Option<Behind>,
    pub(crate) stop: Option<Stop>,
    ghost some: { 1 ≤ columns },
    ghost few: { columns ≤ 32 },
    ghost bounded: { max_lines ≤ 2 ^ 40 },
    ghost counted: { lines ≤ max_lines },
    ghost seen: { WasSeen over ended },
    ghost roomy: { length (bytes_of held) ≤ 8193 },
    ghost numbered: { AllBefore lines waiting } by { Prim.hlevel props },
    ghost sound: { Sound (record { side = side; columns = columns; most = max_lines; slack = slack; room = most_held })
        (record { lines = lines; high = high; accepted = rows_in waiting }) last over } by { Prim.hlevel held_props },
}

// What one turn of the reader came to.
#[derive(Drop)]
pub(crate) enum Turn {
    Row(Row),
    Again,
    Stop(Stop),
}

// Rows that were taken at the first look: how many, the bytes of their lines, and the greatest
// timestamp and the last one behind them.
#[derive(Drop)]
pub(crate) struct Run {
    pub(crate) taken: usize,
    pub(crate) at: usize,
    pub(crate) high: Option<u64>,
    pub(crate) last: Option<u64>,
}

impl Lines {
    ghost use Rattle.std.specs.Prelude.{◌≡◌, ◌≢◌, ◌≤◌, ◌^◌, ◌<◌, ◌+◌, [], ℕ, ℤ, List, Option, IfOk, IfSome, OnErr, None, Ok, Err, option_map, length, true, false};
    ghost use Rattle.saber_plan.specs.Outputs.{Rose};
    ghost use Rattle.saber_plan.specs.Rows.{rows, whole, all_read, before, falls, RowFits, stamp as stamp_in, skipped, taken, refused, judge, crowds, timed_line, due};
    ghost use Rattle.saber_rows.specs.Judged.{judged_of, IfCounted};
    ghost use Rattle.saber_rows.specs.LineFeeds.{end_of, HasNoFeed};
    ghost use Rattle.saber_rows.specs.Reader.{reader_of, new_reader, rest_of, rest_over, gone_count, HasEnd, EndsRefused, NeedsMore};
    ghost use Rattle.saber_rows.specs.Calls.{Moves, given_by, kept_by, last_after, IsGiven, EndsBy, IsNext, WantsMemory, LastRead, ReadsNoMore, AnswerFaults, Reached};
    ghost use Rattle.saber_rows.specs.Turns.{Steps, Fronts, IsLastIf, first_judged, LineGives, PlaceMoves, work_left, IfAgain, HasEnough, NoneReady, IsReady, IsDrained, HeldTurn, Turned, Asked, TurnFaults};

    /// A reader with nothing read yet. A stream has 1 to 32 columns, and a file 1 to 2^40 lines,
    /// empty ones counted: this project's limits. The memory of its buffer is taken here; a call
    /// of `next` takes none but for the numbers of a row with more than eight columns, and for rows
    /// that wait, where timestamps may fall by up to the slack.
    pub fn new(
        alloc: Global,
        side: Side,
        columns: u32,
        max_lines: u64,
        slack: u64,
    ) -> Result<Lines, NoMemory>
        requires some_columns { 1 ≤ columns }
        requires most_columns { columns ≤ 32 }
        requires some_lines { 1 ≤ max_lines }
        requires most_lines { max_lines ≤ 2 ^ 40 }
        ensures fresh { IfOk result (λ lines. reader_of lines ≡ new_reader (side_rules side columns max_lines slack)) }
        ensures rest { IfOk result (λ lines. (left : Option (List ℕ)) → rest_over (reader_of lines) left ≡ option_map (rows (side_rules side columns max_lines slack)) left) }
        ensures rows { IfOk result (λ lines. (bytes : List ℕ) → rest_of false (reader_of lines) bytes ≡ rows (side_rules side columns max_lines slack) bytes) }
        ensures whole { IfOk result (λ lines. (bytes : List ℕ) → rest_of true (reader_of lines) bytes ≡ whole (side_rules side columns max_lines slack) bytes) }
    {
        let held = Buffer::new(alloc)?;
        Ok(Lines {
            alloc,
            side,
            columns,
            max_lines,
            slack,
            lines: 0,
            high: None,
            waiting: Waiting::new(alloc),
            last: None,
            held,
            ended: false,
            over: None,
            stop: None,
        })
    }

    // Whether more rows would wait with one with this timestamp.
    fn is_crowded(&self, stamp: u64) -> bool
        requires none { due (reader_of self.now).rules (reader_of self.now).place ≡ [] }
        ensures { (values : List ℤ) → stamp ≡ stamp_in values → result ≡ crowds (reader_of self.now).rules (reader_of self.now).place values }
    {
        if self.waiting.len() < MOST_HELD {
            return false;
        }
        let least = self.waiting.least(stamp);
        !is_ready(self.slack, Some(raise(self.high, stamp)), least)
    }

    // What the first line is, where it has n bytes.
    fn judge_first(&self, n: usize) -> Result<Judged, NoMemory>
        requires none { due (reader_of self.now).rules (reader_of self.now).place ≡ [] }
        requires within { n ≤ length (bytes_of self.now.held) }
        ensures judged { IfOk result (λ j. judged_of j ≡ first_judged (reader_of self.now) n) }
        ensures counted { IfOk result (λ j. IfCounted j (self.now.lines + 1 ≤ self.now.max_lines)) }
        ensures memory { OnErr result (8 < self.now.columns) }
    {
        let content = content_of(&self.held.bytes()[..n]);
        let judged = judge_line(
            self.alloc,
            self.columns,
            self.max_lines,
            self.lines + 1,
            content,
        )?;
        match judged {
            Judged::Taken(values) => Ok(self.time(values)),
            judged => Ok(judged),
        }
    }

    // What a row is at its place.
    fn time(&self, values: Values) -> Judged
        requires none { due (reader_of self.now).rules (reader_of self.now).place ≡ [] }
        ensures judged { judged_of result ≡ timed_line (reader_of self.now).rules (reader_of self.now).place (taken values) }
    {
        if is_late(self.slack, self.high, values.as_slice()) {
            return Judged::Refused(RowCause::TimeOrder);
        }
        if self.is_crowded(stamp_of(values.as_slice())) {
            return Judged::Refused(RowCause::TooManyHeld);
        }
        Judged::Taken(values)
    }

    // Takes a line of n bytes, with the line feed that ends it if it is whole.
    pub(crate) fn take_line(&mut self, n: usize, whole: bool) -> Turn
        requires within { end_of n whole ≤ length (bytes_of self.old.held) }
        requires line { Fronts whole (bytes_of self.old.held) n (end_of n whole) }
        requires last { IsLastIf whole (reader_of self.old) }
        requires over { self.old.over ≡ None }
        requires none { due (reader_of self.old).rules (reader_of self.old).place ≡ [] }
        ensures gives { LineGives result (reader_of self.old) (reader_of self.new) }
        ensures falls { IfAgain result (work_left (reader_of self.new) < work_left (reader_of self.old)) }
        ensures place { PlaceMoves result (reader_of self.old) (reader_of self.new) }
        ensures rules { (reader_of self.new).rules ≡ (reader_of self.old).rules }
        ensures stop { self.new.stop ≡ self.old.stop }
    {
        match self.judge_first(n) {
            Err(_) => Turn::Stop(Stop::Failed(RowEnd::NoMemory)),
            Ok(Judged::Refused(cause)) => {
                let line = self.lines + 1;
                self.over = Some(Behind::Refused { line, cause });
                Turn::Again
            }
            Ok(Judged::Skipped) => self.skip_line(n, whole),
            Ok(Judged::Taken(values)) if self.slack == 0 => self.take_at_once(n, whole, values),
            Ok(Judged::Taken(values)) => self.take_held(n, whole, values),
        }
    }

    // Takes a line without content.
    fn skip_line(&mut self, n: usize, whole: bool) -> Turn
        requires within { end_of n whole ≤ length (bytes_of self.old.held) }
        requires line { Fronts whole (bytes_of self.old.held) n (end_of n whole) }
        requires last { IsLastIf whole (reader_of self.old) }
        requires over { self.old.over ≡ None }
        requires counted { self.old.lines + 1 ≤ self.old.max_lines }
        requires judged { skipped ≡ first_judged (reader_of self.old) n }
        ensures gives { LineGives result (reader_of self.old) (reader_of self.new) }
        ensures falls { IfAgain result (work_left (reader_of self.new) < work_left (reader_of self.old)) }
        ensures place { PlaceMoves result (reader_of self.old) (reader_of self.new) }
        ensures rules { (reader_of self.new).rules ≡ (reader_of self.old).rules }
        ensures stop { self.new.stop ≡ self.old.stop }
    {
        self.held.consume(line_end(n, whole));
        self.lines += 1;
        Turn::Again
    }

    // Takes a row that can be given at once.
    fn take_at_once(&mut self, n: usize, whole: bool, values: Values) -> Turn
        requires within { end_of n whole ≤ length (bytes_of self.old.held) }
        requires line { Fronts whole (bytes_of self.old.held) n (end_of n whole) }
        requires last { IsLastIf whole (reader_of self.old) }
        requires over { self.old.over ≡ None }
        requires counted { self.old.lines + 1 ≤ self.old.max_lines }
        requires judged { taken values ≡ first_judged (reader_of self.old) n }
        requires slack { self.old.slack ≡ 0 }
        ensures gives { LineGives result (reader_of self.old) (reader_of self.new) }
        ensures row { ¬ (result ≡ Turn.Again) }
        ensures place { PlaceMoves result (reader_of self.old) (reader_of self.new) }
        ensures rules { (reader_of self.new).rules ≡ (reader_of self.old).rules }
        ensures stop { self.new.stop ≡ self.old.stop }
    {
        let stamp = stamp_of(values.as_slice());
        self.held.consume(line_end(n, whole));
        self.lines += 1;
        self.high = Some(raise(self.high, stamp));
        self.last = Some(stamp);
        Turn::Row(Row {
            side: self.side,
            values,
        })
    }

    // Takes a row that may have to wait.
    fn take_held(&mut self, n: usize, whole: bool, values: Values) -> Turn
        requires within { end_of n whole ≤ length (bytes_of self.old.held) }
        requires line { Fronts whole (bytes_of self.old.held) n (end_of n whole) }
        requires last { IsLastIf whole (reader_of self.old) }
        requires over { self.old.over ≡ None }
        requires counted { self.old.lines + 1 ≤ self.old.max_lines }
        requires judged { taken values ≡ first_judged (reader_of self.old) n }
        requires slack { 0 < self.old.slack }
        ensures gives { LineGives result (reader_of self.old) (reader_of self.new) }
        ensures falls { IfAgain result (work_left (reader_of self.new) < work_left (reader_of self.old)) }
        ensures place { PlaceMoves result (reader_of self.old) (reader_of self.new) }
        ensures rules { (reader_of self.new).rules ≡ (reader_of self.old).rules }
        ensures stop { self.new.stop ≡ self.old.stop }
    {
        let stamp = stamp_of(values.as_slice());
        let row = Row {
            side: self.side,
            values,
        };
        if self.waiting.insert(self.lines, row).is_err() {
            return Turn::Stop(Stop::Failed(RowEnd::NoMemory));
        }
        self.held.consume(line_end(n, whole));
        self.lines += 1;
        self.high = Some(raise(self.high, stamp));
        Turn::Again
    }

    // Reads some more.
    fn fill<S: Source>(&mut self, source: &mut S) -> Turn
        requires drained { IsDrained (reader_of self.old) }
        ensures turns { Turned result (reader_of self.old) (reader_of self.new) (S.left source.old) (S.left source.new) }
        ensures stop { self.new.stop ≡ self.old.stop }
        ensures faults { TurnFaults result (S.faults source.old) (S.faults source.new) }
        ensures last { LastRead (reader_of self.old) (S.left source.old) (S.left source.new) }
    {
        match self.held.fill(source) {
            Err(_) => Turn::Stop(Stop::Failed(RowEnd::ReadFault)),
            Ok(0) => {
                self.ended = true;
                Turn::Again
            }
            Ok(_) => Turn::Again,
        }
    }

    // The cause of a line that is too long to be held.
    fn long_cause(&self) -> RowCause
        ensures { (content : List ℕ) → 4096 < length content → judge self.now.columns self.now.max_lines (self.now.lines + 1) content ≡ refused result }
    {
        if self.lines >= self.max_lines {
            return RowCause::TooManyLines;
        }
        RowCause::TooLong
    }

    // Refuses a line that is too long to be held.
    pub(crate) fn refuse_long(&mut self) -> Turn
        requires over { self.old.over ≡ None }
        requires long { 4097 < length (bytes_of self.old.held) }
        requires feed { HasNoFeed (bytes_of self.old.held) }
        ensures gives { LineGives result (reader_of self.old) (reader_of self.new) }
        ensures falls { IfAgain result (work_left (reader_of self.new) < work_left (reader_of self.old)) }
        ensures place { PlaceMoves result (reader_of self.old) (reader_of self.new) }
        ensures rules { (reader_of self.new).rules ≡ (reader_of self.old).rules }
        ensures stop { self.new.stop ≡ self.old.stop }
    {
        let line = self.lines + 1;
        let cause = self.long_cause();
        self.over = Some(Behind::Refused { line, cause });
        Turn::Again
    }

    // Takes what stands behind the last line feed.
    pub(crate) fn take_last(&mut self) -> Turn
        requires over { self.old.over ≡ None }
        requires none { due (reader_of self.old).rules (reader_of self.old).place ≡ [] }
        requires ended { self.old.ended ≡ true }
        requires feed { HasNoFeed (bytes_of self.old.held) }
        ensures gives { LineGives result (reader_of self.old) (reader_of self.new) }
        ensures falls { IfAgain result (work_left (reader_of self.new) < work_left (reader_of self.old)) }
        ensures place { PlaceMoves result (reader_of self.old) (reader_of self.new) }
        ensures rules { (reader_of self.new).rules ≡ (reader_of self.old).rules }
        ensures stop { self.new.stop ≡ self.old.stop }
    {
        let n = self.held.bytes().len();
        if n == 0 {
            self.over = Some(Behind::AllRead);
            return Turn::Again;
        }
        self.take_line(n, false)
    }

    // Whether the first row that waits can be given.
    fn has_ready(&self) -> bool
        ensures yes { result ≡ true → IsReady (reader_of self.now) }
        ensures no { result ≡ false → NoneReady (reader_of self.now) }
    {
        match self.waiting.first() {
            None => false,
            Some(stamp) => self.over.is_some() || is_ready(self.slack, self.high, stamp),
        }
    }

    // The first row that waits, if it can be given.
    pub(crate) fn give(&mut self) -> Option<Row>
        ensures none { result ≡ None → (self.new ≡ self.old) × NoneReady (reader_of self.old) }
        ensures some { IfSome result (λ row. Steps (before row) (reader_of self.old) (reader_of self.new)) }
        ensures given { IfSome result (λ row. IsGiven row (reader_of self.old) (reader_of self.new)) }
        ensures rules { (reader_of self.new).rules ≡ (reader_of self.old).rules }
        ensures stop { self.new.stop ≡ self.old.stop }
    {
        if !self.has_ready() {
            return None;
        }
        let row = self.waiting.pop()?;
        self.last = Some(stamp_of(row.values.as_slice()));
        Some(row)
    }

    // One step by what is held: a row that waits, a line, or the end. None where that decides none.
    #[inline]
    pub(crate) fn turn_held(&mut self) -> Option<Turn>
        ensures turns { IfSome result (λ t. HeldTurn t (reader_of self.old) (reader_of self.new)) }
        ensures none { result ≡ None → (self.new ≡ self.old) × IsDrained (reader_of self.old) }
        ensures stop { self.new.stop ≡ self.old.stop }
    {
        match self.give() {
            Some(row) => Some(Turn::Row(row)),
            None => self.line_held(),
        }
    }

    // The same where no row can be given.
    fn line_held(&mut self) -> Option<Turn>
        requires none_ready { NoneReady (reader_of self.old) }
        ensures turns { IfSome result (λ t. HeldTurn t (reader_of self.old) (reader_of self.new)) }
        ensures none { result ≡ None → (self.new ≡ self.old) × IsDrained (reader_of self.old) }
        ensures stop { self.new.stop ≡ self.old.stop }
    {
        if let Some(over) = self.over {
            return Some(Turn::Stop(over.stop()));
        }
        match line_feed_in(self.held.bytes()) {
            Some(n) => Some(self.take_line(n, true)),
            None if self.ended => Some(self.take_last()),
            None if self.held.bytes().len() > LONGEST + 1 => Some(self.refuse_long()),
            None => None,
        }
    }

    // One step: a line, or a read.
    fn turn<S: Source>(&mut self, source: &mut S) -> Turn
        ensures turns { Turned result (reader_of self.old) (reader_of self.new) (S.left source.old) (S.left source.new) }
        ensures asks { Asked S.left result source.old source.new (reader_of self.old) (reader_of self.new) }
        ensures faults { TurnFaults result (S.faults source.old) (S.faults source.new) }
        ensures stop { self.new.stop ≡ self.old.stop }
    {
        match self.turn_held() {
            Some(turn) => turn,
            None => self.fill(source),
        }
    }

    // The next row of a reader that has not stopped, by as many turns as it takes.
    #[inline(never)]
    fn advance<S: Source>(&mut self, source: &mut S) -> Result<Option<Row>, RowEnd>
        requires { self.old.stop ≡ None }
        ensures moves { Moves (given_by result) (reader_of self.old) (reader_of self.new) (S.left source.old) (S.left source.new) }
        ensures given { IfOk result (λ o. IfSome o (λ row. IsGiven row (reader_of self.old) (reader_of self.new))) }
        ensures ends { EndsBy result (reader_of self.new) }
        ensures place { Reached result (reader_of self.old) (reader_of self.new) }
        ensures faults { AnswerFaults result (S.faults source.old) (S.faults source.new) }
        ensures once { ReadsNoMore S.left source.old source.new (reader_of self.old) }
        ensures reads { HasEnough (reader_of self.old) → source.new ≡ source.old }
    {
        loop {
            match self.turn(source) {
                Turn::Row(row) => return Ok(Some(row)),
                Turn::Again => {}
                Turn::Stop(stop) => {
                    self.stop = Some(stop);
                    return stop.answer();
                }
            }
        }
    }

    /// The next row, or `None` at the end of the source. After an error or `None` each later call
    /// gives the same answer and reads nothing.
    pub fn next<S: Source>(&mut self, source: &mut S) -> Result<Option<Row>, RowEnd>
        // An answer that ends the reader is kept, and given again.
        ensures again { IfSome (reader_of self.old).answer (λ answer. (result ≡ answer) × (self.new ≡ self.old) × (source.new ≡ source.old)) }
        ensures answer { (reader_of self.old).answer ≡ None → (reader_of self.new).answer ≡ kept_by result }

        // What the call takes of the source and of the rows that are left, whatever bytes follow;
        // and over a source that tells them.
        ensures moves { Moves (given_by result) (reader_of self.old) (reader_of self.new) (S.left source.old) (S.left source.new) }
        ensures rest { rest_over (reader_of self.old) (S.left source.old) ≡ option_map (given_by result) (rest_over (reader_of self.new) (S.left source.new)) }
        ensures rules { (reader_of self.new).rules ≡ (reader_of self.old).rules }

        // Which answer comes: the first of the rest, but for read faults and want of memory.
        ensures next { (reader_of self.old).answer ≡ None → IfSome (rest_over (reader_of self.old) (S.left source.old)) (IsNext result) }
        ensures none { (reader_of self.old).answer ≡ None → result ≡ Ok None → HasEnd all_read (reader_of self.new) }
        ensures ended { (reader_of self.old).answer ≡ None → result ≡ Ok None → (reader_of self.new).ended ≡ true }
        ensures refused { (reader_of self.old).answer ≡ None → EndsRefused result (reader_of self.old).rules.side (reader_of self.new) }
        ensures cause { (reader_of self.old).answer ≡ None → result ≡ Err RowEnd.ReadFault → Rose (S.faults source.old) (S.faults source.new) }
        ensures cut { (reader_of self.old).answer ≡ None → result ≡ Err RowEnd.ReadFault → NeedsMore (reader_of self.new) }
        ensures memory { (reader_of self.old).answer ≡ None → result ≡ Err RowEnd.NoMemory → WantsMemory (reader_of self.old).rules }
        ensures count { S.faults source.old ≤ S.faults source.new }

        // No fault is passed over.
        ensures good { result ≢ Err RowEnd.ReadFault → S.faults source.new ≡ S.faults source.old }

        // A row has the side's columns, each number in its range, and is not before the last one.
        ensures fits { IfOk result (λ o. IfSome o (RowFits (reader_of self.old).rules.side (reader_of self.old).rules.columns)) }
        ensures ordered { IfOk result (λ o. IfSome o (λ row. falls (reader_of self.old).last row.values ≡ false)) }
        ensures last { (reader_of self.new).last ≡ last_after (reader_of self.old).last result }

        // So a side has at most as many rows as its limit of lines.
        ensures rises { IfOk result (λ o. IfSome o (λ row. gone_count (reader_of self.old) < gone_count (reader_of self.new))) }
        ensures stays { gone_count (reader_of self.old) ≤ gone_count (reader_of self.new) }
        ensures counted { gone_count (reader_of self.new) ≤ (reader_of self.new).rules.most }

        // It reads only where it can give no row, and holds no line that decides the answer; and
        // no more once it holds one.
        ensures reads { ¬ NeedsMore (reader_of self.old) → source.new ≡ source.old }
        ensures once { ReadsNoMore S.left source.old source.new (reader_of self.old) }
    {
        if let Some(stop) = self.stop {
            return stop.answer();
        }
        match self.quick_row() {
            Some(row) => Ok(Some(row)),
            None => self.advance(source),
        }
    }
}
