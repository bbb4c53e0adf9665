//! The first seat fills the ring.
ghost use Rattle.std.specs.Prelude.{◌≡◌, ◌<◌, ℕ, ◌+◌, true, false, Err};
ghost use Rattle.saber_crew.specs.Supplies.{GivesAtLast};
ghost use Rattle.saber_crew.specs.Dispatches.{Puts, BeginsDispatch, EndsDispatch};
ghost use Rattle.saber_crew.specs.Leaders.{SameRing, GoesOn, FillsOn, CanFill};

use crate::leader::Leader;
use crate::supply::{Supplied, Supply};
use saber_core::Work;
use saber_io::Gate;
use saber_pause::Pause;
use saber_ring::Frees;
use saber_workers::Labor;
use std::collections::VecDeque;
use std::sync::Wait;
use std::sync::atomic::Ordering;

/// Why no more tasks were filled.
#[derive(Clone, Copy, Debug, PartialEq, Eq)]
pub enum Over {
    /// None was left, or none could be given.
    AllGiven,
    /// The stage is stopped.
    Stopped,
    /// Memory lacked.
    NoMemory,
}

/// How many tasks were filled, and why no more; and how many threads were asked for beside the
/// caller's.
#[derive(Clone, Copy)]
pub struct Dispatched {
    pub tasks: u64,
    pub over: Over,
    pub helpers: u32,
}

impl<'a, W: Work, L: Labor<W>, G: Gate, R: Wait> Leader<'a, W, L, G, R> {
    // A turn of work, and a pause where it found nothing to do. False where the stage is stopped.
    fn turn_or_wait(&mut self, idle: &mut Pause) -> bool
        ensures goes { GoesOn self.old self.new }
        ensures stops { result ≡ false → self.new.seat.stopped ≡ true }
    {
        let turned = self.turn();
        if turned.stopped {
            return false;
        }
        if turned.claimed {
            idle.reset();
        } else {
            idle.wait(self.bench().rt);
        }
        true
    }

    // Turns of work where the supply has nothing yet: one, and more where another thread saw the
    // stage stopped, until this one sees it too. False where the stage is stopped.
    fn work_while_dry(&mut self, idle: &mut Pause) -> bool
        ensures goes { GoesOn self.old self.new }
        ensures stops { result ≡ false → self.new.seat.stopped ≡ true }
    {
        let bench = self.bench();
        for _ in bench.rt.forever() {
            if !self.turn_or_wait(idle) {
                return false;
            }
            if !bench.stop.load(Ordering::SeqCst) {
                return true;
            }
        }
        unreachable!()
    }

    // The rows of the next task, with turns of work while the supply has none yet. An error says
    // why none come any more: the supply is over, or the stage is stopped.
    fn next_rows<P: Supply<W>>(
        &mut self,
        supply: &mut P,
        from: &mut P::From,
    ) -> Result<W::Rows, Over>
        requires given { (told : W.Data) × (d : ℕ) × P.has_given supply.old from.old told d }
        ensures goes { GoesOn self.old self.new }
        ensures gives { (told : W.Data) (d : ℕ) → P.has_given supply.old from.old told d
            → GivesAtLast W.is_told W.filled W.is_rows (P.has_given supply.new from.new) told d result }
        ensures over { result ≡ Err Over.AllGiven → P.is_over supply.new }
        ensures stops { result ≡ Err Over.Stopped → self.new.seat.stopped ≡ true }
    {
        let mut idle = Pause::new();
        let rt = self.bench().rt;
        for _ in rt.forever() {
            match supply.next(from) {
                Supplied::Rows(own) => return Ok(own),
                Supplied::Over => return Err(Over::AllGiven),
                Supplied::Dry => {
                    if !self.work_while_dry(&mut idle) {
                        return Err(Over::Stopped);
                    }
                }
            }
        }
        unreachable!()
    }

    // Fills task t, with turns of work while the ring is full. False where the stage is stopped.
    fn put(&mut self, t: u64, rows: W::Rows, frees: &Frees) -> bool
    where
        W::Rows: Drop,
        requires { CanFill W.is_told W.filled W.upto W.first W.is_rows t rows frees.now self.old.seat }
        ensures fills { FillsOn self.old self.new }
        ensures put { Puts W.filled rows result self.old.seat.lead self.new.seat.lead }
        ensures room { result ≡ true → t < self.new.seat.seen + self.new.size }
        ensures stops { result ≡ false → self.new.seat.stopped ≡ true }
    {
        let mut rows = rows;
        let mut idle = Pause::new();
        let rt = self.bench().rt;
        for _ in rt.forever() {
            match self.offer(t, rows, frees) {
                None => return true,
                Some(back) => {
                    rows = back;
                    if !self.turn_or_wait(&mut idle) {
                        return false;
                    }
                }
            }
        }
        unreachable!()
    }

    // A turn of work at once where no other thread works, so that rows are worked on while they are
    // at hand.
    fn work_along(&mut self, is_alone: bool)
        ensures goes { GoesOn self.old self.new }
    {
        if is_alone {
            self.turn();
        }
    }

    // Fills task t, and works along. False where the stage is stopped.
    fn fill_next(&mut self, t: u64, rows: W::Rows, frees: &Frees, is_alone: bool) -> bool
    where
        W::Rows: Drop,
        requires { CanFill W.is_told W.filled W.upto W.first W.is_rows t rows frees.now self.old.seat }
        ensures fills { FillsOn self.old self.new }
        ensures put { Puts W.filled rows result self.old.seat.lead self.new.seat.lead }
        ensures room { result ≡ true → t < self.new.seat.seen + self.new.size }
        ensures stops { result ≡ false → self.new.seat.stopped ≡ true }
    {
        if !self.put(t, rows, frees) {
            return false;
        }
        self.work_along(is_alone);
        true
    }

    /// Fills all tasks of the supply, until the stage is stopped or memory is wanting. Where no
    /// other thread works, each is worked on as soon as it is filled. So many helpers were asked
    /// for.
    pub(crate) fn dispatch<P: Supply<W>>(
        &mut self,
        supply: &mut P,
        from: &mut P::From,
        is_alone: bool,
        helpers: u32,
    ) -> Dispatched
    where
        W::Rows: Drop,
        requires begins { BeginsDispatch W.is_told W.upto (P.has_given supply.old from.old) self.old.seat.lead }
        ensures same { SameRing self.old self.new }
        ensures ends { EndsDispatch W.is_told W.upto (P.has_given supply.new from.new) (P.is_over supply.new) self.old.seat self.new.seat helpers result }
    {
        let bench = self.bench();
        let mut tasks: u64 = 0;
        let mut frees = Frees {
            base: 0,
            list: VecDeque::new(bench.alloc),
        };
        loop {
            let own = match self.next_rows(supply, from) {
                Ok(own) => own,
                Err(over) => return Dispatched {
                    tasks,
                    over,
                    helpers,
                },
            };
            let first = bench.op.first(&own);
            // The task before was filled, so what is assembled is less than a ring behind it.
            let from = tasks.saturating_sub(bench.ring.cells());
            let Ok(()) = frees.push(first, from) else {
                let over = Over::NoMemory;
                return Dispatched {
                    tasks,
                    over,
                    helpers,
                };
            };
            if !self.fill_next(tasks, own, &frees, is_alone) {
                let over = Over::Stopped;
                return Dispatched {
                    tasks,
                    over,
                    helpers,
                };
            }
            tasks += 1;
        }
    }
}
