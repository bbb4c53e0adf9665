//! Seats of small rings, stepped by hand.
ghost use Rattle.std.specs.Prelude.{◌≡◌, ℕ, true, false, ◌+◌, ◌-◌, ◌≤◌, None, Some, IfOk, IfSome, List, [], ◌∷◌, ◌++◌, take};
ghost use Rattle.saber_core.specs.Works.{IsPieceOrMark};
ghost use Rattle.saber_ring.specs.Calls.{HasJobOf, HoldsTurn, StageAt};
ghost use Rattle.saber_ring.specs.Closing.{IsLast};
ghost use Rattle.saber_ring.specs.Sums.{AreNumbers, IsNumber, IsSum, IsTotal, GoesOnBy, AreFirsts, IsNextTask, FillsSo, HasPut};
ghost use Rattle.saber_ring.specs.Sums.{KeepsTask, Keeps, HandsIn, HasWorked, Needs, WasRead, EndsInSum};
ghost use Rattle.saber_ring.specs.Numbers.{again, keeps, whole, early, rises};

use saber_core::Work;
use saber_ring::{Claim, Fill, FixedData, Frees, Job, Place, Read, Ring, Seat, Take, Turn, Win};
use std::alloc::{AllocError as NoMemory, Global};
use std::collections::{LinkedList, VecDeque};
use std::process::Abort;

// What a call answers, or a panic.
macro_rules! put {
    ($rt:ident, $answer:expr) => {
        match $answer {
            Fill::Put => {}
            Fill::Full {
                place: _,
                word: _,
                rows: _,
            } => panic!($rt; "full"),
        }
    };
}

macro_rules! full {
    ($rt:ident, $answer:expr, $place:expr, $word:expr, $rows:expr) => {
        match $answer {
            Fill::Full { place, word, rows } => {
                assert_eq!($rt; (place, word, rows), ($place, $word, $rows))
            }
            Fill::Put => panic!($rt; "put"),
        }
    };
}

macro_rules! rows {
    ($rt:ident, $answer:expr) => {
        match $answer {
            Read::Got(rows) => rows,
            Read::Held { word: _ } => panic!($rt; "read by another"),
        }
    };
}

macro_rules! read_by_another {
    ($rt:ident, $answer:expr, $word:expr) => {
        match $answer {
            Read::Held { word } => assert_eq!($rt; word, $word),
            Read::Got(_rows) => panic!($rt; "at home"),
        }
    };
}

macro_rules! job {
    ($rt:ident, $answer:expr) => {
        match $answer {
            Claim::Got(job) => job,
            Claim::Not { word: _ } => panic!($rt; "not ready"),
        }
    };
}

macro_rules! not {
    ($rt:ident, $answer:expr, $word:expr) => {
        match $answer {
            Claim::Not { word } => assert_eq!($rt; word, $word),
            Claim::Got(_job) => panic!($rt; "ready"),
        }
    };
}

macro_rules! turn {
    ($rt:ident, $answer:expr) => {
        match $answer {
            Win::Got(turn) => turn,
            Win::Held { word: _ } => panic!($rt; "held"),
        }
    };
}

macro_rules! held {
    ($rt:ident, $answer:expr, $word:expr) => {
        match $answer {
            Win::Held { word } => assert_eq!($rt; word, $word),
            Win::Got(_turn) => panic!($rt; "free"),
        }
    };
}

macro_rules! not_yet {
    ($rt:ident, $answer:expr, $word:expr) => {
        match $answer {
            Take::NotYet { word } => assert_eq!($rt; word, $word),
            Take::Got(_piece) => panic!($rt; "done"),
        }
    };
}

mod rounds;

// The rows of a task are a number. A task adds up its own and those of the two tasks before it, and
// the stage what the tasks add. What is too great stops the stage.
struct Adding;

impl Work for Adding {
    type Rows = u64;

    type Piece = u64;

    type Stage = u64;

    type Data = LinkedList<u64>;

    ghost is_told = { AreNumbers };

    ghost filled = { λ told rows. told ++ rows ∷ [] };

    ghost upto = { λ told k. take k told };

    ghost is_rows = { IsNumber };

    ghost is_piece = { IsSum };

    ghost first = { λ told t. t - 2 };

    ghost is_stage = { IsTotal };

    ghost keeps = { λ told d k rows was now is le. keeps told d k rows was now tt le };

    ghost again = { again };

    ghost whole = { whole };

    ghost early = { early };

    ghost rises = { rises };
}

struct Nothing;

impl FixedData<LinkedList<u64>> for Nothing {
    ghost told = { Some [] };
}

// The first tasks that tasks 0 to 3 need.
fn firsts(rt: &HostRuntime) -> Result<Frees, NoMemory>
    ensures { IfOk result AreFirsts }
{
    let mut list = VecDeque::with_capacity(rt.alloc(), 4)?;
    list.push_back(0)?;
    list.push_back(0)?;
    list.push_back(0)?;
    list.push_back(1)?;
    Ok(Frees { base: 0, list })
}

// Fills one of the first four tasks.
fn fill(
    seat: &mut Seat<Adding>,
    ring: &Ring<Adding>,
    t: u64,
    rows: u64,
    frees: &Frees,
) -> Fill<Adding>
    requires own { seat.old.place.table_id ≡ ring.now.table.shared.table_id }
    requires idle { seat.old.place.me.0.turn ≡ None }
    requires next { IsNextTask t seat.old.place.me.0.lead }
    requires few { t ≤ 3 }
    requires frees { AreFirsts frees.now }
    ensures same { seat.new.place.table_id ≡ seat.old.place.table_id }
    ensures told { FillsSo ring.now.size t rows seat.old.place.me.0 seat.new.place.me.0 result }
{
    seat.fill(ring, t, rows, frees)
}

// Three numbers added up, if the sum fits.
fn sum_of(own: u64, back: u64, older: u64) -> Option<u64>
    ensures { IfSome result (λ sum. sum ≡ own + back + older) }
{
    let sum = own.checked_add(back)?;
    sum.checked_add(older)
}

// Hands in what a task adds, by the three numbers that were read for it, or the mark where that is
// too great.
fn hand_in(
    seat: &mut Seat<Adding>,
    ring: &Ring<Adding>,
    job: Job<Adding>,
    own: u64,
    back: u64,
    older: u64,
)
    requires own { seat.old.place.table_id ≡ ring.now.table.shared.table_id }
    requires idle { (seat.old.place.me.0.block ≡ None) × (seat.old.place.me.0.turn ≡ None) }
    requires has { HasJobOf job.task seat.old.place.me.0.job }
    requires mine { WasRead own job.task seat.old.place.me.0.job }
    requires before { WasRead back (job.task - 1) seat.old.place.me.0.job }
    requires earlier { WasRead older (job.task - 2) seat.old.place.me.0.job }
    ensures same { seat.new.place.table_id ≡ seat.old.place.table_id }
    ensures told { HandsIn ring.now.size job.task seat.old.place.me.0 seat.new.place.me.0 }
{
    seat.deposit(ring, job, sum_of(own, back, older));
}

// Takes a piece up into the stage, if there is one and the sum fits.
fn absorb(stage: &mut u64, piece: Option<u64>) -> bool
    ensures none { piece ≡ None → result ≡ false }
    ensures stage { (told : List ℕ) (k : ℕ) → IsTotal (take k told) k false stage.old → IsPieceOrMark IsSum told k piece → GoesOnBy told k stage.new result }
{
    match piece {
        None => false,
        Some(piece) => add(stage, piece),
    }
}

// Adds a number, if it fits.
fn add(stage: &mut u64, piece: u64) -> bool
    ensures added { result ≡ true → stage.new ≡ stage.old + piece }
    ensures same { result ≡ false → stage.new ≡ stage.old }
{
    let Some(sum) = stage.checked_add(piece) else {
        return false;
    };
    *stage = sum;
    true
}

// Takes the next piece and absorbs it. True where the stage went on.
fn take_next(seat: &mut Seat<Adding>, ring: &Ring<Adding>, turn: &mut Turn<Adding>) -> bool
    requires own { seat.old.place.table_id ≡ ring.now.table.shared.table_id }
    requires turn { HoldsTurn turn.old.behind turn.old.state seat.old.place.me.0.turn }
    requires stage { StageAt IsTotal turn.old.behind turn.old.state turn.old.stage seat.old.place.me.0.turn }
    ensures same { seat.new.place.table_id ≡ seat.old.place.table_id }
    ensures kept { KeepsTask seat.old.place.me.0 seat.new.place.me.0 }
    ensures turn { HoldsTurn turn.new.behind turn.new.state seat.new.place.me.0.turn }
    ensures stage { StageAt IsTotal turn.new.behind turn.new.state turn.new.stage seat.new.place.me.0.turn }
{
    match seat.take(ring, turn) {
        Take::NotYet { word: _ } => false,
        Take::Got(piece) => {
            let done = absorb(turn.stage(), piece);
            if done {
                seat.give(ring, turn);
            }
            done
        }
    }
}

// Ends the ring: the stage has the sum of what the first tasks add.
fn end(ring: Ring<Adding>, seat: Seat<Adding>) -> u64
    requires own { seat.place.table_id ≡ ring.table.shared.table_id }
    requires last { IsLast seat.place.me.0.lead }
    requires idle { (seat.place.me.0.job ≡ None) × (seat.place.me.0.turn ≡ None) }
    ensures { EndsInSum result seat.place.me.0.seen seat.place.me.0.lead }
{
    ring.finish(seat)
}

// Fills a task for which there has to be room.
fn put(
    rt: &impl Abort,
    seat: &mut Seat<Adding>,
    ring: &Ring<Adding>,
    t: u64,
    rows: u64,
    frees: &Frees,
)
    requires own { seat.old.place.table_id ≡ ring.now.table.shared.table_id }
    requires idle { seat.old.place.me.0.turn ≡ None }
    requires next { IsNextTask t seat.old.place.me.0.lead }
    requires few { t ≤ 3 }
    requires frees { AreFirsts frees.now }
    ensures same { seat.new.place.table_id ≡ seat.old.place.table_id }
    ensures told { HasPut rows seat.old.place.me.0 seat.new.place.me.0 }
{
    put!(rt, fill(seat, ring, t, rows, frees));
}

// A fill that this word has to hinder.
fn is_full(
    rt: &impl Abort,
    seat: &mut Seat<Adding>,
    ring: &Ring<Adding>,
    t: u64,
    frees: &Frees,
    at: Place,
    found: u64,
)
    requires own { seat.old.place.table_id ≡ ring.now.table.shared.table_id }
    requires idle { seat.old.place.me.0.turn ≡ None }
    requires next { IsNextTask t seat.old.place.me.0.lead }
    requires few { t ≤ 3 }
    requires frees { AreFirsts frees.now }
    ensures same { seat.new.place.table_id ≡ seat.old.place.table_id }
    ensures kept { Keeps seat.old.place.me.0 seat.new.place.me.0 }
{
    full!(rt, fill(seat, ring, t, 50, frees), at, found, 50);
}

// A claim that this word has to refuse.
fn is_not_ready(rt: &impl Abort, seat: &mut Seat<Adding>, ring: &Ring<Adding>, t: u64, found: u64)
    requires own { seat.old.place.table_id ≡ ring.now.table.shared.table_id }
    requires idle { (seat.old.place.me.0.job ≡ None) × (seat.old.place.me.0.turn ≡ None) }
    requires few { t ≤ 3 }
    ensures same { seat.new.place.table_id ≡ seat.old.place.table_id }
    ensures kept { Keeps seat.old.place.me.0 seat.new.place.me.0 }
{
    not!(rt, seat.claim(ring, t), found);
}

// A turn that another seat has to have.
fn is_held(rt: &impl Abort, seat: &mut Seat<Adding>, ring: &Ring<Adding>, found: u64)
    requires own { seat.old.place.table_id ≡ ring.now.table.shared.table_id }
    requires idle { seat.old.place.me.0.turn ≡ None }
    ensures same { seat.new.place.table_id ≡ seat.old.place.table_id }
    ensures kept { Keeps seat.old.place.me.0 seat.new.place.me.0 }
{
    held!(rt, seat.win(ring), found);
}

// Reads a block that the job needs, and puts it back.
fn look(
    rt: &impl Abort,
    seat: &mut Seat<Adding>,
    ring: &Ring<Adding>,
    job: &Job<Adding>,
    u: u64,
) -> u64
    requires own { seat.old.place.table_id ≡ ring.now.table.shared.table_id }
    requires idle { (seat.old.place.me.0.block ≡ None) × (seat.old.place.me.0.turn ≡ None) }
    requires needs { Needs job.now.task u seat.old.place.me.0.job }
    ensures same { seat.new.place.table_id ≡ seat.old.place.table_id }
    ensures kept { Keeps seat.old.place.me.0 seat.new.place.me.0 }
    ensures rows { WasRead result u seat.old.place.me.0.job }
{
    let rows = rows!(rt, seat.read(ring, job, u));
    seat.put_back(ring, job, rows);
    rows
}

// Reads what a task needs, and hands in what it adds.
fn work(rt: &impl Abort, seat: &mut Seat<Adding>, ring: &Ring<Adding>, job: Job<Adding>)
    requires own { seat.old.place.table_id ≡ ring.now.table.shared.table_id }
    requires idle { (seat.old.place.me.0.block ≡ None) × (seat.old.place.me.0.turn ≡ None) }
    requires has { HasJobOf job.task seat.old.place.me.0.job }
    ensures same { seat.new.place.table_id ≡ seat.old.place.table_id }
    ensures kept { HasWorked seat.old.place.me.0 seat.new.place.me.0 }
{
    let t = job.task();
    let own = look(rt, seat, ring, &job, t);
    let back = look(rt, seat, ring, &job, t.saturating_sub(1));
    let older = look(rt, seat, ring, &job, t.saturating_sub(2));
    hand_in(seat, ring, job, own, back, older);
}

// Wins the turn, takes the next piece, and releases the turn. True where the stage went on.
fn advance(rt: &impl Abort, seat: &mut Seat<Adding>, ring: &Ring<Adding>) -> bool
    requires own { seat.old.place.table_id ≡ ring.now.table.shared.table_id }
    requires idle { seat.old.place.me.0.turn ≡ None }
    ensures same { seat.new.place.table_id ≡ seat.old.place.table_id }
    ensures kept { Keeps seat.old.place.me.0 seat.new.place.me.0 }
{
    let mut turn = turn!(rt, seat.win(ring));
    let done = take_next(seat, ring, &mut turn);
    seat.release(ring, turn);
    done
}

// A turn that finds the stage stopped.
fn is_stopped(rt: &impl Abort, seat: &mut Seat<Adding>, ring: &Ring<Adding>)
    requires own { seat.old.place.table_id ≡ ring.now.table.shared.table_id }
    requires idle { seat.old.place.me.0.turn ≡ None }
    ensures same { seat.new.place.table_id ≡ seat.old.place.table_id }
    ensures kept { Keeps seat.old.place.me.0 seat.new.place.me.0 }
{
    let turn = turn!(rt, seat.win(ring));
    assert!(rt; turn.is_stopped());
    seat.release(ring, turn);
}
