//! Seats, and the calls that step with them.
ghost use Rattle.std.specs.Prelude.{◌^◌, ◌≡◌, ◌≢◌, ◌||◌, ℕ, true, false, ◌+◌, ◌-◌, ◌*◌, ◌<◌, ◌≤◌, None, Some, IfSome, IsSome};
ghost use Rattle.saber_ring.specs.Seats.{is_lent, cells_of, is_filling, out_of, parting, newcomer, joined};
ghost use Rattle.saber_ring.specs.declared.view.TurnState.TheVariants.{Open, TookPiece};
ghost use Rattle.saber_ring.specs.Shows.{live};

use crate::answers::{Claim, Fill, Place, Read, Take, Win};
use crate::blocks::put_block;
use crate::frees::Frees;
use crate::job::Job;
use crate::plays::{
    Claiming, Filling, Giving, Meet, Part, PutBack, PutMark, PutPiece, Reading, Returning,
    SeeBlock, SeeCell, SeePiece, SeeRoom, SeeTurn, TakeMark, TakePiece, Winning,
};
use crate::release::{STOP, set_down, state_at};
use crate::ring::Ring;
use crate::turn::Turn;
use crate::view::{SlotValue, TurnState, View};
use atomic_table::Seat as TableSeat;
use saber_core::Work;
use std::marker::PhantomData;

// The phases that a call writes or waits for. The word of a cell is eight times the task, plus the
// phase; idle is 0.

pub(crate) const READY: u64 = 2;

const HELD: u64 = 3;

const DONE: u64 = 4;

const TAKEN: u64 = 5;

const MARKED: u64 = 6;

const GONE: u64 = 7;

// The same of the word of a block, which is four times the block, plus the phase.

pub(crate) const COMING: u64 = 1;

pub(crate) const HOME: u64 = 2;

const READING: u64 = 3;

/// A thread's place at a ring: what it steps with, and what it knows and has done. No call waits or
/// makes a second try; a refusal changes nothing but what the seat saw, and gives back what was
/// handed in. A seat that is let go is missed at the end, where the first one has to take in all
/// others, and harms nothing else.
#[derive(Drop)]
pub struct Seat<W: Work> {
    pub(crate) place: TableSeat<SlotValue<W::Rows, W::Piece, W::Stage>, View<W::Data>>,
    // The block that it reads.
    pub(crate) block: Option<u64>,
    pub ghost alive: { live place.me.0.base ≡ 1 },
    pub ghost calm: { is_filling place.me.0.lead ≡ false },
    pub ghost reads: { place.me.0.block ≡ block },
    pub ghost lent: { is_lent place.me.0.block place.me.0.job ≡ true },
    pub ghost carried: { place.me.1 ≡ out_of (cells_of place.table_id.slots) place.me.0 },
}

impl<W: Work> Seat<W> {
    ghost use Rattle.saber_ring.specs.Plays.{is_stopped};
    ghost use Rattle.saber_ring.specs.Calls.{Claims, FillsNext, Covers, Fills, NeedsBlock, Reads, HasJobOf, HasRowsOut, PutsBack, MayDeposit, Deposits, Wins, HoldsTurn, IsGot, Takes, StageAfter, Gives, StageAt, Releases};

    /// The first seat puts the rows of the next task into its block, without the turn, and makes
    /// the task ready. Full exactly where the task's cell isn't idle for it, or, by the loaded word
    /// of the turn, a task that isn't assembled may need the rows that lie there: then the rows
    /// come back.
    pub fn fill(&mut self, ring: &Ring<W>, t: u64, block: W::Rows, frees: &Frees) -> Fill<W>
    where
        W::Rows: Drop,
        requires own { self.old.place.table_id ≡ ring.now.table.shared.table_id }
        requires idle { self.old.place.me.0.turn ≡ None }
        requires next { FillsNext W.is_told W.filled W.is_rows t block self.old.place.me.0.lead }
        requires below { t < 2 ^ 42 }
        requires frees { Covers W.upto W.first t frees.now self.old.place.me.0.seen self.old.place.me.0.lead }
        ensures same { self.new.place.table_id ≡ self.old.place.table_id }
        ensures told { Fills W.upto W.first W.filled ring.now.size t block self.old.place.me.0 self.new.place.me.0 result }
    {
        let words = &ring.table.shared;
        let i = (t % ring.size) as usize + 1;
        let idle = 8 * t;
        let found = words.load::<SeeCell>(&mut self.place, i);
        if found != idle {
            let place = Place::Cell;
            return Fill::Full {
                place,
                word: found,
                rows: block,
            };
        }
        let turn = words.load::<SeeRoom<W>>(&mut self.place, 0);
        if frees.first(turn % STOP / 2) + ring.size <= t {
            let place = Place::Turn;
            return Fill::Full {
                place,
                word: turn,
                rows: block,
            };
        }
        put_block(ring, &mut self.place, t, block);
        let found = words.compare_exchange::<Filling>(&mut self.place, i, idle, 8 * t + READY);
        if found != idle {
            unreachable!();
        }
        Fill::Put
    }

    /// A seat without job and turn takes a task to work on. Not exactly where it isn't ready. For
    /// the first seat, while no other is out, that is exactly where it isn't filled or was claimed
    /// before. A word past the ready one says that the task was filled.
    pub fn claim(&mut self, ring: &Ring<W>, t: u64) -> Claim<W>
        requires own { self.old.place.table_id ≡ ring.now.table.shared.table_id }
        requires idle { (self.old.place.me.0.job ≡ None) × (self.old.place.me.0.turn ≡ None) }
        requires below { t ≤ 2 ^ 42 }
        ensures same { self.new.place.table_id ≡ self.old.place.table_id }
        ensures told { Claims W.upto W.first ring.now.size t self.old.place.me.0 self.new.place.me.0 result }
    {
        let words = &ring.table.shared;
        let i = (t % ring.size) as usize + 1;
        let ready = 8 * t + READY;
        let found = words.compare_exchange::<Claiming<W>>(&mut self.place, i, ready, 8 * t + HELD);
        if found != ready {
            return Claim::Not { word: found };
        }
        let work = PhantomData;
        Claim::Got(Job { task: t, work })
    }

    /// A seat without the turn, and with no block out, takes a block that its job's task needs, for
    /// reading. Held exactly where another seat reads it; never for the first seat while no other
    /// is out.
    pub fn read(&mut self, ring: &Ring<W>, job: &Job<W>, u: u64) -> Read<W>
        requires own { self.old.place.table_id ≡ ring.now.table.shared.table_id }
        requires idle { (self.old.place.me.0.block ≡ None) × (self.old.place.me.0.turn ≡ None) }
        requires needs { NeedsBlock W.upto W.first job.now.task u self.old.place.me.0.job }
        ensures same { self.new.place.table_id ≡ self.old.place.table_id }
        ensures told { Reads W.upto W.is_rows ring.now.size u self.old.place.me.0 self.new.place.me.0 result }
    {
        let words = &ring.table.shared;
        let i = (u % ring.size + 1 + ring.size) as usize;
        let home = 4 * u + HOME;
        let seen = words.load::<SeeBlock<W>>(&mut self.place, i);
        if seen != home {
            return Read::Held { word: seen };
        }
        let found = words.compare_exchange::<Reading<W>>(&mut self.place, i, home, 4 * u + READING);
        if found != home {
            return Read::Held { word: found };
        }
        self.block = Some(u);
        let value = words.exchange(&mut self.place, i, SlotValue::Empty);
        let SlotValue::Rows(rows) = value else {
            unreachable!()
        };
        Read::Got(rows)
    }

    /// A seat without the turn puts the block that it reads back, with the same rows.
    pub fn put_back(&mut self, ring: &Ring<W>, job: &Job<W>, block: W::Rows)
        requires own { self.old.place.table_id ≡ ring.now.table.shared.table_id }
        requires idle { self.old.place.me.0.turn ≡ None }
        requires has { HasJobOf job.now.task self.old.place.me.0.job }
        requires rows { HasRowsOut W.upto W.is_rows block self.old.place.me.0.job self.old.place.me.0.block }
        ensures same { self.new.place.table_id ≡ self.old.place.table_id }
        ensures told { PutsBack ring.now.size self.old.place.me.0 self.new.place.me.0 self.old.place.me.0.block }
    {
        let Some(u) = self.block else { unreachable!() };
        let words = &ring.table.shared;
        let i = (u % ring.size + 1 + ring.size) as usize;
        let left = words.exchange(&mut self.place, i, SlotValue::Rows(block));
        let SlotValue::Empty = left else {
            unreachable!()
        };
        words.store::<Returning>(&mut self.place, i, 4 * u + HOME);
        self.block = None;
    }

    /// A seat without the turn, and with no block out, hands in the piece of its job's task, or
    /// none: the mark of want of memory.
    pub fn deposit(&mut self, ring: &Ring<W>, job: Job<W>, piece: Option<W::Piece>)
        requires own { self.old.place.table_id ≡ ring.now.table.shared.table_id }
        requires idle { (self.old.place.me.0.block ≡ None) × (self.old.place.me.0.turn ≡ None) }
        requires has { MayDeposit W.is_piece job.task piece self.old.place.me.0.job }
        ensures same { self.new.place.table_id ≡ self.old.place.table_id }
        ensures told { Deposits ring.now.size job.task self.old.place.me.0 self.new.place.me.0 piece }
    {
        let Job { task: t, work: _ } = job;
        let words = &ring.table.shared;
        let i = (t % ring.size) as usize + 1;
        match piece {
            Some(piece) => {
                let left = words.exchange(&mut self.place, i, SlotValue::Piece(piece));
                let SlotValue::Empty = left else {
                    unreachable!()
                };
                words.store::<PutPiece>(&mut self.place, i, 8 * t + DONE);
            }
            None => words.store::<PutMark>(&mut self.place, i, 8 * t + MARKED),
        }
    }

    /// A seat without the turn takes it, with the stage. Held exactly where it isn't free; the
    /// first seat, while no other is out, always wins.
    pub fn win(&mut self, ring: &Ring<W>) -> Win<W>
        requires own { self.old.place.table_id ≡ ring.now.table.shared.table_id }
        requires idle { self.old.place.me.0.turn ≡ None }
        ensures same { self.new.place.table_id ≡ self.old.place.table_id }
        ensures told { Wins W.upto W.is_stage self.old.place.me.0 self.new.place.me.0 result }
    {
        let words = &ring.table.shared;
        let seen = words.load::<SeeTurn>(&mut self.place, 0);
        if seen % 2 != 0 {
            return Win::Held { word: seen };
        }
        let found = words.compare_exchange::<Winning<W>>(&mut self.place, 0, seen, seen + 1);
        if found != seen {
            return Win::Held { word: found };
        }
        let state = state_at(seen);
        let home = words.exchange(&mut self.place, 0, SlotValue::Empty);
        let SlotValue::Stage(stage) = home else {
            unreachable!()
        };
        Win::Got(Turn {
            behind: seen % STOP / 2,
            stage,
            state,
        })
    }

    /// The holder of the turn takes what was handed in for the task after those behind the stage.
    /// NotYet exactly where that task isn't done; also where it was taken by this turn, or the
    /// stage is stopped. What its load found done, no other seat can take.
    pub fn take(&mut self, ring: &Ring<W>, turn: &mut Turn<W>) -> Take<W>
        requires own { self.old.place.table_id ≡ ring.now.table.shared.table_id }
        requires turn { HoldsTurn turn.old.behind turn.old.state self.old.place.me.0.turn }
        ensures same { self.new.place.table_id ≡ self.old.place.table_id }
        ensures turn { (turn.new.behind ≡ turn.old.behind) × (turn.new.stage ≡ turn.old.stage)
            × HoldsTurn turn.new.behind turn.new.state self.new.place.me.0.turn }
        ensures open { IsGot result → turn.old.state ≡ Open }
        ensures told { Takes W.upto W.is_piece ring.now.size turn.old.behind turn.old.state self.old.place.me.0 self.new.place.me.0 result }
    {
        let words = &ring.table.shared;
        let k = turn.behind;
        let i = (k % ring.size) as usize + 1;
        let seen = words.load::<SeePiece>(&mut self.place, i);
        if seen == 8 * k + DONE {
            let taken = 8 * k + TAKEN;
            let found = words.compare_exchange::<TakePiece<W>>(&mut self.place, i, seen, taken);
            if found != seen {
                unreachable!();
            }
            turn.state = TurnState::TookPiece;
            let home = words.exchange(&mut self.place, i, SlotValue::Empty);
            let SlotValue::Piece(piece) = home else {
                unreachable!()
            };
            Take::Got(Some(piece))
        } else if seen == 8 * k + MARKED {
            let gone = 8 * k + GONE;
            let found = words.compare_exchange::<TakeMark<W>>(&mut self.place, i, seen, gone);
            if found != seen {
                unreachable!();
            }
            turn.state = TurnState::TookMark;
            Take::Got(None)
        } else {
            Take::NotYet { word: seen }
        }
    }

    /// The holder of the turn, which took a piece and whose stage has assembled it, gives the cell
    /// back, idle for the task that has it next. That one may be filled before the turn is
    /// released.
    pub fn give(&mut self, ring: &Ring<W>, turn: &mut Turn<W>)
        requires own { self.old.place.table_id ≡ ring.now.table.shared.table_id }
        requires turn { HoldsTurn turn.old.behind turn.old.state self.old.place.me.0.turn × (turn.old.state ≡ TookPiece) }
        requires stage { StageAfter W.is_stage (turn.old.behind + 1) turn.old.stage self.old.place.me.0.turn }
        ensures same { self.new.place.table_id ≡ self.old.place.table_id }
        ensures turn { (turn.new.behind ≡ turn.old.behind + 1) × (turn.new.stage ≡ turn.old.stage) × (turn.new.state ≡ Open) }
        ensures told { Gives ring.now.size turn.old.behind self.old.place.me.0 self.new.place.me.0 self.old.place.me.0.turn }
    {
        let words = &ring.table.shared;
        let k = turn.behind;
        let i = (k % ring.size) as usize + 1;
        words.store::<Giving>(&mut self.place, i, 8 * (k + ring.size));
        turn.behind = k + 1;
        turn.state = TurnState::Open;
    }

    /// The holder gives the turn up, and the stage goes home. It runs where nothing is taken and
    /// not given, and the turn wasn't won stopped; else it is stopped, and stays so. A stopped
    /// task's cell stays taken.
    pub fn release(&mut self, ring: &Ring<W>, turn: Turn<W>)
        requires own { self.old.place.table_id ≡ ring.now.table.shared.table_id }
        requires turn { HoldsTurn turn.behind turn.state self.old.place.me.0.turn }
        requires stage { StageAt W.is_stage turn.behind turn.state turn.stage self.old.place.me.0.turn }
        ensures same { self.new.place.table_id ≡ self.old.place.table_id }
        ensures told { Releases ring.now.size turn.behind self.old.place.me.0 self.new.place.me.0 turn.state }
        ensures seen { (self.old.place.me.0.seen ≤ turn.behind) × (self.new.place.me.0.seen ≡ turn.behind) }
        ensures stopped { self.new.place.me.0.stopped ≡ self.old.place.me.0.stopped || is_stopped turn.state }
    {
        let Turn {
            behind: k,
            stage,
            state,
        } = turn;
        match state {
            TurnState::TookPiece => {
                // The slot of the taken cell was taken last, so it goes back first.
                let i = (k % ring.size) as usize + 1;
                ring.table.shared.load::<PutBack>(&mut self.place, i);
                set_down(ring, &mut self.place, stage, k, TurnState::Leaving);
            }
            _ => set_down(ring, &mut self.place, stage, k, state),
        }
    }

    /// The first seat gives out a new one, for another thread. It has done nothing.
    pub fn split(&mut self, ring: &Ring<W>) -> Seat<W>
        requires own { self.old.place.table_id ≡ ring.now.table.shared.table_id }
        requires lead { IsSome self.old.place.me.0.lead }
        ensures same { (self.new.place.table_id ≡ self.old.place.table_id) × (result.place.table_id ≡ self.old.place.table_id) }
        ensures told { (self.new.place.me.0 ≡ parting self.old.place.me.0) × (result.place.me.0 ≡ newcomer self.old.place.me.0.base) }
    {
        Seat {
            place: ring.table.shared.split_seat::<Part>(&mut self.place),
            block: None,
        }
    }

    /// The first seat takes in another one without job and turn, with all that it did and saw.
    pub fn join(&mut self, ring: &Ring<W>, other: Seat<W>)
        requires own { (self.old.place.table_id ≡ ring.now.table.shared.table_id) × (other.place.table_id ≡ ring.now.table.shared.table_id) }
        requires lead { IsSome self.old.place.me.0.lead }
        requires idle { (other.place.me.0.job ≡ None) × (other.place.me.0.turn ≡ None) }
        ensures same { self.new.place.table_id ≡ self.old.place.table_id }
        ensures told { self.new.place.me.0 ≡ joined self.old.place.me.0 other.place.me.0 }
    {
        let Seat { place, block: _ } = other;
        ring.table.shared.join_seat::<Meet>(&mut self.place, place);
    }
}
