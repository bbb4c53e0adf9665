//! What the rule of the ring is stated over: what a slot holds, and what a seat knows. No value of
//! a view is ever made; a view is what contracts and the rule speak of.
use atomic_table::{Seat, TableRule};
use saber_core::Work;
use std::collections::LinkedList;
use std::marker::PhantomData;
use std::snapshot::Snapshot;

/// What a slot holds while it is at home. The first slot is for the stage. A cell has a slot for
/// the piece of its task, and a block one for its rows.
pub enum SlotValue<R, P, S> {
    Empty,
    Rows(R),
    Piece(P),
    Stage(S),
}

/// How far the holder of the turn is with the task after those behind the stage.
#[derive(Clone, Copy)]
pub enum TurnState {
    /// It took nothing yet, and the stage runs.
    Open,
    /// It took the piece.
    TookPiece,
    /// It took the mark of want of memory.
    TookMark,
    /// It won the turn with a stopped stage.
    WonStopped,
    /// It took the piece, and has given the slot back: only within a release.
    Leaving,
}

/// The turn, as its holder's view has it.
pub struct HeldTurn<T> {
    /// The number of tasks behind the stage.
    pub behind: u64,
    pub state: TurnState,
    /// The data of these tasks, and of the next one where it was taken.
    pub told: T,
}

/// A job, as its seat's view has it.
pub struct HeldTask<T> {
    pub task: u64,
    /// The data of the tasks up to this one.
    pub told: T,
}

/// How far the first seat is with the block of the next task.
pub enum FillState<T> {
    /// It has none: so at the start and the end of each call.
    Waiting,
    /// It has the block, and puts the rows in.
    Begun,
    /// The block is at home with the rows: the data of all tasks with this one.
    Stored(T),
}

/// What the first seat knows beside. Only the first seat fills, splits and joins.
pub struct Lead<T> {
    /// The data of all tasks that are filled.
    pub told: T,
    /// The number of tasks that are filled, which is the number of the next one.
    pub filled: u64,
    /// The number of other seats that are out.
    pub out: u64,
    /// The block that is being filled: only within a fill.
    pub fill: FillState<T>,
}

/// One of a seat's own steps: on which word, what it found there (a store: what it stored), and its
/// number among the seat's steps, from 1 on.
pub struct OwnStep {
    pub place: u64,
    pub word: u64,
    pub number: u64,
}

/// What a seat has done with a task, by its number. A deposit says whether it was the mark.
pub enum Entry {
    Claim(u64),
    Deposit(u64, bool),
    Take(u64),
    Give(u64),
}

/// What a seat knows.
pub struct View<T> {
    /// The fixed data of the work. A seat that another one took in has none.
    pub base: Option<T>,
    /// Only the first seat has it, the one from `Ring::new`.
    pub lead: Option<Lead<T>>,
    /// The greatest number of assembled tasks that this seat, or one that it took in, found or
    /// stored in the word of the turn.
    pub seen: u64,
    /// One of them found or stored there that the stage is stopped.
    pub stopped: bool,
    /// The last own step.
    pub saw: OwnStep,
    /// The own step before that.
    pub before: OwnStep,
    /// The last own step of a claim or a read that was refused.
    pub missed: OwnStep,
    pub job: Option<HeldTask<T>>,
    /// The block that it has out for reading, by its number.
    pub block: Option<u64>,
    pub turn: Option<HeldTurn<T>>,
    /// All that this seat, and the seats that it took in, did.
    pub own: LinkedList<Entry>,
}

/// What the table is told when it is made: its size, and a token whose view is the fixed data.
#[derive(Drop)]
pub struct RingKey<T> {
    pub size: u64,
    pub told: Snapshot<Seat<u8, Option<T>>>,
}

/// The rule of a ring with this work.
pub struct RingRule<W> {
    work: PhantomData<W>,
}

impl<W: Work> TableRule<SlotValue<W::Rows, W::Piece, W::Stage>, View<W::Data>, RingKey<W::Data>>
    for RingRule<W> {
    ghost use Rattle.saber_ring.specs.Shows.{Shows, first_view};

    ghost holds = { λ key. Shows W.is_told W.upto W.first W.is_rows W.is_piece W.is_stage key.size };

    ghost first = { λ key. first_view key.told.value.me.0 };
}
