//! The machine of events.
ghost use Rattle.std.specs.Prelude.{◌≡◌, ◌≤◌, ◌<◌, ◌↔◌, IfOk, IsSome, option_map};
ghost use Rattle.saber_core.specs.Machine.{fresh, given_count, has_taken, is_holder, next, phase_at};
ghost use Rattle.saber_core.specs.Sound.{IsSound};

use crate::events::{Event, TaskPhase};
use std::alloc::{AllocError as NoMemory, Global};
use std::collections::VecDeque;
use std::marker::Model;

// Tasks have numbers below this.
const TASK_LIMIT: u64 = 1 << 42;

/// Who holds the turn, how many tasks were given by then, and whether the next is in its hand.
#[derive(Clone, Copy)]
pub struct Holder {
    pub seat: u32,
    pub given: u64,
    pub taken: bool,
}

/// The slots of a ring and its turn, as a machine that one thread steps.
#[derive(Drop)]
pub struct Core {
    size: u32,
    seats: u32,
    assembled: u64,
    filled: u64,
    turn: Option<Holder>,
    // Of the tasks from the first that isn't given on. There is room for as many as the size.
    phases: VecDeque<TaskPhase>,
}

impl Model for Core {
    ghost use Rattle.saber_core.specs.Machine.{State};

    ghost Value = { State };

    ghost use Rattle.saber_core.specs.Fields.{state_of, FieldsFit};

    ghost view = { state_of };

    ghost invariant = { FieldsFit };
}

impl Core {
    /// A core with no task, whose turn is free. The size is the number of slots.
    pub fn new(alloc: Global, size: u32, seats: u32) -> Result<Core, NoMemory>
        requires { (0 < size) × (size ≤ 1024) }
        ensures { IfOk result (λ core. core ≡ fresh size seats) }
    {
        let phases = VecDeque::with_capacity(alloc, size as usize)?;
        Ok(Core {
            size,
            seats,
            assembled: 0,
            filled: 0,
            turn: None,
            phases,
        })
    }

    /// The number of tasks that were assembled when the turn was last free.
    pub fn k(&self) -> u64
        ensures { result ≡ self.now.assembled }
    {
        self.assembled
    }

    /// The number of tasks filled so far, which is the number of the next one.
    pub fn d(&self) -> u64
        ensures { result ≡ self.now.filled }
    {
        self.filled
    }

    /// The phase of a task, where it is filled and not given back.
    pub fn phase(&self, task: u64) -> Option<TaskPhase>
        ensures phase { result ≡ phase_at self.now task }
        ensures filled { IsSome result ↔ ((given_count self.now ≤ task) × (task < self.now.filled)) }
    {
        let given = self.given_count();
        if task < given {
            return None;
        }
        self.phases.get((task - given) as usize).copied()
    }

    /// The seat that holds the turn, if it isn't free.
    pub fn turn(&self) -> Option<u32>
        ensures { result ≡ option_map (λ holder. holder.seat) self.now.turn }
    {
        self.turn.map(|holder| holder.seat)
    }

    /// Lets an event happen. One that doesn't apply changes nothing.
    pub fn step(&mut self, e: &Event)
        ensures next { self.new ≡ next self.old e.now }
        ensures sound { IsSound self.new }
    {
        if let Some(seat) = e.seat()
            && seat >= self.seats
        {
            return;
        }
        match *e {
            Event::Fill => self.fill(),
            Event::Claim { seat, task } => self.claim(seat, task),
            Event::Deposit { seat, task, mark } => self.deposit(seat, task, mark),
            Event::Win { seat } => self.win(seat),
            Event::Take { seat } => self.take(seat),
            Event::Give { seat } => self.give(seat),
            Event::Release { seat } => self.release(seat),
        }
    }

    // How many tasks were given back: the number of the first that wasn't.
    fn given_count(&self) -> u64
        ensures { result ≡ given_count self.now }
    {
        match self.turn {
            Some(holder) => holder.given,
            None => self.assembled,
        }
    }

    fn is_holder(&self, seat: u32) -> bool
        ensures { result ≡ is_holder seat self.now.turn }
    {
        self.turn.is_some_and(|holder| holder.seat == seat)
    }

    fn has_taken(&self) -> bool
        ensures { result ≡ has_taken self.now.turn }
    {
        self.turn.is_some_and(|holder| holder.taken)
    }

    fn fill(&mut self)
        ensures { self.new ≡ next self.old Event.Fill }
    {
        if self.filled < self.given_count() + self.size as u64 && self.filled < TASK_LIMIT {
            self.phases.push_back_reserved(TaskPhase::Ready);
            self.filled += 1;
        }
    }

    fn claim(&mut self, seat: u32, task: u64)
        requires { seat < self.old.seats }
        ensures { self.new ≡ next self.old (Event.Claim seat task) }
    {
        if let Some(TaskPhase::Ready) = self.phase(task) {
            let place = (task - self.given_count()) as usize;
            self.phases[place] = TaskPhase::Held { seat };
        }
    }

    fn deposit(&mut self, seat: u32, task: u64, mark: bool)
        requires { seat < self.old.seats }
        ensures { self.new ≡ next self.old (Event.Deposit seat task mark) }
    {
        if let Some(TaskPhase::Held { seat: holder }) = self.phase(task)
            && holder == seat
        {
            let place = (task - self.given_count()) as usize;
            self.phases[place] = TaskPhase::Done { mark };
        }
    }

    fn win(&mut self, seat: u32)
        requires { seat < self.old.seats }
        ensures { self.new ≡ next self.old (Event.Win seat) }
    {
        if self.turn.is_none() {
            self.turn = Some(Holder {
                seat,
                given: self.assembled,
                taken: false,
            });
        }
    }

    fn take(&mut self, seat: u32)
        requires { seat < self.old.seats }
        ensures { self.new ≡ next self.old (Event.Take seat) }
    {
        let given = self.given_count();
        if self.is_holder(seat)
            && let Some(TaskPhase::Done { mark }) = self.phase(given)
        {
            self.turn = Some(Holder {
                seat,
                given,
                taken: true,
            });
            self.phases[0] = TaskPhase::Taken { mark };
        }
    }

    fn give(&mut self, seat: u32)
        requires { seat < self.old.seats }
        ensures { self.new ≡ next self.old (Event.Give seat) }
    {
        let given = self.given_count();
        if self.is_holder(seat)
            && self.has_taken()
            && let Some(TaskPhase::Taken { mark: false }) = self.phase(given)
        {
            self.turn = Some(Holder {
                seat,
                given: given + 1,
                taken: false,
            });
            self.phases.pop_front();
        }
    }

    fn release(&mut self, seat: u32)
        requires { seat < self.old.seats }
        ensures { self.new ≡ next self.old (Event.Release seat) }
    {
        if self.is_holder(seat) {
            self.assembled = self.given_count();
            self.turn = None;
        }
    }
}
