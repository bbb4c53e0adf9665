//! How a task's piece is made, block by block.
ghost use Rattle.std.specs.Prelude.{◌≡◌, ◌<◌, ◌+◌, true, None};
ghost use Rattle.saber_ring.specs.Calls.{MayDeposit};
ghost use Rattle.saber_ring.specs.Words.{view, cells};
ghost use Rattle.saber_workers.specs.Seats.{IsReady, WorksOn, SameTasks};
ghost use Rattle.saber_workers.specs.Hands.{HoldsJob, HasSoFar, IsInHand, is_empty};
ghost use Rattle.saber_workers.specs.Makings.{LooksTo, ReadsOn};

use crate::bench::Bench;
use crate::hand::{Hand, InHand};
use crate::labor::Labor;
use saber_core::Work;
use saber_io::Gate;
use saber_ring::{Job, Read, Seat};
use std::mem;
use std::sync::Wait;

// What became of a block that was to be taken in.
#[derive(Clone, Copy)]
pub(crate) enum LookBack {
    // The draft has it.
    In,
    // Another seat reads it.
    Held,
    // Memory lacked.
    NoMemory,
}

/// What is in hand after some blocks were read, and the block that another seat reads, if that
/// ended it.
pub(crate) struct Gone<W: Work, D> {
    pub(crate) held: InHand<W, D>,
    pub(crate) waits: Option<u64>,
}

impl<W: Work, L: Labor<W>, G: Gate, R: Wait> Bench<'_, W, L, G, R> {
    // The next of the blocks before the task's own.
    fn look_back_on(
        &self,
        seat: &mut Seat<W>,
        job: &Job<W>,
        next: u64,
        draft: &mut L::Draft,
    ) -> LookBack
        requires ready { IsReady self.now.ring.now seat.old }
        requires job { HoldsJob W.upto W.first (L.suits self.now.op.now) job.now.task (view seat.old).job }
        requires so_far { HasSoFar W.upto W.first (L.has_blocks self.now.op.now) job.now.task next draft.old (view seat.old).job }
        requires below { next < job.now.task }
        ensures ready { IsReady self.now.ring.now seat.new }
        ensures goes { WorksOn (view seat.old) (view seat.new) }
        ensures kept { SameTasks (view seat.old) (view seat.new) }
        ensures looks { LooksTo W.upto W.first (L.has_blocks self.now.op.now) (cells self.now.ring.now) job.now.task (next + 1) (view seat.old) (view seat.new) draft.new next result }
    {
        match seat.read(self.ring, job, next) {
            Read::Held { word: _ } => LookBack::Held,
            Read::Got(rows) => {
                let looked_back = self.op.look_back(self.alloc, draft, &rows);
                seat.put_back(self.ring, job, rows);
                if looked_back {
                    LookBack::In
                } else {
                    LookBack::NoMemory
                }
            }
        }
    }

    // All blocks before the task's own, until one is read by another seat.
    fn look_back_all(
        &self,
        seat: &mut Seat<W>,
        job: &Job<W>,
        next: &mut u64,
        draft: &mut L::Draft,
    ) -> LookBack
        requires ready { IsReady self.now.ring.now seat.old }
        requires job { HoldsJob W.upto W.first (L.suits self.now.op.now) job.now.task (view seat.old).job }
        requires so_far { HasSoFar W.upto W.first (L.has_blocks self.now.op.now) job.now.task next.old draft.old (view seat.old).job }
        ensures ready { IsReady self.now.ring.now seat.new }
        ensures goes { WorksOn (view seat.old) (view seat.new) }
        ensures kept { SameTasks (view seat.old) (view seat.new) }
        ensures looks { LooksTo W.upto W.first (L.has_blocks self.now.op.now) (cells self.now.ring.now) job.now.task job.now.task (view seat.old) (view seat.new) draft.new next.new result }
    {
        while *next < job.task() {
            match self.look_back_on(seat, job, *next, draft) {
                LookBack::In => *next += 1,
                LookBack::Held => return LookBack::Held,
                LookBack::NoMemory => return LookBack::NoMemory,
            }
        }
        LookBack::In
    }

    // Hands in the piece of a job, or the mark of want of memory.
    fn hand_in(&self, seat: &mut Seat<W>, job: Job<W>, piece: Option<W::Piece>) -> Gone<W, L::Draft>
        requires ready { IsReady self.now.ring.now seat.old }
        requires has { MayDeposit W.is_piece job.task piece (view seat.old).job }
        ensures ready { IsReady self.now.ring.now seat.new }
        ensures hand { IsInHand W.upto W.first (L.suits self.now.op.now) (L.has_blocks self.now.op.now) result.held (view seat.new).job }
        ensures reads { ReadsOn (cells self.now.ring.now) (view seat.old) (view seat.new) result.waits }
        ensures none { ((view seat.new).job ≡ None) × (is_empty result.held ≡ true) }
    {
        let task = job.task();
        seat.deposit(self.ring, job, piece);
        self.gate.done(task);
        Gone {
            held: InHand::Empty,
            waits: None,
        }
    }

    // Goes on with a draft; once it has all blocks, its piece is handed in.
    fn go_on(
        &self,
        seat: &mut Seat<W>,
        job: Job<W>,
        next: u64,
        draft: L::Draft,
    ) -> Gone<W, L::Draft>
        requires ready { IsReady self.now.ring.now seat.old }
        requires job { HoldsJob W.upto W.first (L.suits self.now.op.now) job.task (view seat.old).job }
        requires so_far { HasSoFar W.upto W.first (L.has_blocks self.now.op.now) job.task next draft (view seat.old).job }
        ensures ready { IsReady self.now.ring.now seat.new }
        ensures hand { IsInHand W.upto W.first (L.suits self.now.op.now) (L.has_blocks self.now.op.now) result.held (view seat.new).job }
        ensures reads { ReadsOn (cells self.now.ring.now) (view seat.old) (view seat.new) result.waits }
        ensures done { result.waits ≡ None → ((view seat.new).job ≡ None) × (is_empty result.held ≡ true) }
    {
        let mut next = next;
        let mut draft = draft;
        match self.look_back_all(seat, &job, &mut next, &mut draft) {
            LookBack::Held => Gone {
                held: InHand::Begun { job, next, draft },
                waits: Some(next),
            },
            LookBack::NoMemory => self.hand_in(seat, job, None),
            LookBack::In => {
                let piece = self.op.finish(self.alloc, draft);
                self.hand_in(seat, job, piece)
            }
        }
    }

    // Reads the task's own block, begins the piece with it, and goes on.
    fn begin(&self, seat: &mut Seat<W>, job: Job<W>) -> Gone<W, L::Draft>
        requires ready { IsReady self.now.ring.now seat.old }
        requires job { HoldsJob W.upto W.first (L.suits self.now.op.now) job.task (view seat.old).job }
        ensures ready { IsReady self.now.ring.now seat.new }
        ensures hand { IsInHand W.upto W.first (L.suits self.now.op.now) (L.has_blocks self.now.op.now) result.held (view seat.new).job }
        ensures reads { ReadsOn (cells self.now.ring.now) (view seat.old) (view seat.new) result.waits }
        ensures done { result.waits ≡ None → ((view seat.new).job ≡ None) × (is_empty result.held ≡ true) }
    {
        let task = job.task();
        let own = match seat.read(self.ring, &job, task) {
            Read::Held { word: _ } => {
                return Gone {
                    held: InHand::Claimed(job),
                    waits: Some(task),
                };
            }
            Read::Got(own) => own,
        };
        let first = self.op.first(&own);
        let draft = self.op.start(self.alloc, &own);
        seat.put_back(self.ring, &job, own);
        match draft {
            Some(draft) => self.go_on(seat, job, first, draft),
            None => self.hand_in(seat, job, None),
        }
    }

    // Reads what the job in hand needs, until another seat reads it or the piece is handed in.
    pub(crate) fn read_on(&self, seat: &mut Seat<W>, held: InHand<W, L::Draft>) -> Gone<W, L::Draft>
        requires ready { IsReady self.now.ring.now seat.old }
        requires hand { IsInHand W.upto W.first (L.suits self.now.op.now) (L.has_blocks self.now.op.now) held (view seat.old).job }
        ensures ready { IsReady self.now.ring.now seat.new }
        ensures hand { IsInHand W.upto W.first (L.suits self.now.op.now) (L.has_blocks self.now.op.now) result.held (view seat.new).job }
        ensures reads { ReadsOn (cells self.now.ring.now) (view seat.old) (view seat.new) result.waits }
        ensures none { is_empty held ≡ true → result.waits ≡ None }
        ensures done { result.waits ≡ None → ((view seat.new).job ≡ None) × (is_empty result.held ≡ true) }
    {
        match held {
            InHand::Empty => Gone {
                held: InHand::Empty,
                waits: None,
            },
            InHand::Claimed(job) => self.begin(seat, job),
            InHand::Begun { job, next, draft } => self.go_on(seat, job, next, draft),
        }
    }

    /// The same with the job of a hand. The cursor stays.
    pub(crate) fn read_in(&self, seat: &mut Seat<W>, hand: &mut Hand<W, L::Draft>) -> Option<u64>
        requires ready { IsReady self.now.ring.now seat.old }
        requires hand { IsInHand W.upto W.first (L.suits self.now.op.now) (L.has_blocks self.now.op.now) hand.old.held (view seat.old).job }
        ensures ready { IsReady self.now.ring.now seat.new }
        ensures hand { IsInHand W.upto W.first (L.suits self.now.op.now) (L.has_blocks self.now.op.now) hand.new.held (view seat.new).job }
        ensures cursor { hand.new.cursor ≡ hand.old.cursor }
        ensures reads { ReadsOn (cells self.now.ring.now) (view seat.old) (view seat.new) result }
        ensures done { result ≡ None → ((view seat.new).job ≡ None) × (is_empty hand.new.held ≡ true) }
    {
        let held = mem::replace(&mut hand.held, InHand::Empty);
        let Gone { held, waits } = self.read_on(seat, held);
        let left = mem::replace(&mut hand.held, held);
        let InHand::Empty = left else { unreachable!() };
        waits
    }
}
