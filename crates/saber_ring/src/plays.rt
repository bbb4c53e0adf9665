//! The kinds of steps on the table, and what each tells its seat. A step is one atomic operation on
//! one word; `specs/Plays.antt` has what it says.
ghost use Rattle.std.specs.Prelude.{true, false, None};
ghost use Rattle.saber_ring.specs.Seats.{parting, newcomer, joined};
ghost use Rattle.saber_ring.specs.Plays.{sees_turn, sees_piece, sees_cell, sees_room, begins, stores, fills, sees_block, reads, returns_block, claims, deposits, wins, takes_piece, goes_on, releases, puts_back};

use crate::view::{SlotValue, View};
use atomic_table::{Join, Play, Split};
use saber_core::Work;
use std::marker::PhantomData;

// A load of the word of the turn.
pub(crate) struct SeeTurn;

impl<R, P, S, T> Play<SlotValue<R, P, S>, View<T>> for SeeTurn {
    ghost then = { sees_turn };
}

// The holder of the turn loads the cell of the task after those behind the stage.
pub(crate) struct SeePiece;

impl<R, P, S, T> Play<SlotValue<R, P, S>, View<T>> for SeePiece {
    ghost then = { sees_piece };
}

// The first seat loads the cell of the next task.
pub(crate) struct SeeCell;

impl<R, P, S, T> Play<SlotValue<R, P, S>, View<T>> for SeeCell {
    ghost then = { sees_cell };
}

// The first seat loads the word of the turn, for room.
pub(crate) struct SeeRoom<W> {
    work: PhantomData<W>,
}

impl<W: Work> Play<SlotValue<W::Rows, W::Piece, W::Stage>, View<W::Data>> for SeeRoom<W> {
    ghost then = { sees_room W.upto W.first };
}

// A block from home, or never filled, to being filled with the rows of a later task.
pub(crate) struct Begin;

impl<R, P, S, T> Play<SlotValue<R, P, S>, View<T>> for Begin {
    ghost then = { begins };
}

// A block from being filled to home, with the rows.
pub(crate) struct Storing<W> {
    work: PhantomData<W>,
}

impl<W: Work> Play<SlotValue<W::Rows, W::Piece, W::Stage>, View<W::Data>> for Storing<W> {
    ghost then = { stores W.filled };
}

// From idle to ready, once the block is at home.
pub(crate) struct Filling;

impl<R, P, S, T> Play<SlotValue<R, P, S>, View<T>> for Filling {
    ghost then = { fills };
}

// A load of the word of a block.
pub(crate) struct SeeBlock<W> {
    work: PhantomData<W>,
}

impl<W: Work> Play<SlotValue<W::Rows, W::Piece, W::Stage>, View<W::Data>> for SeeBlock<W> {
    ghost then = { sees_block W.upto W.first };
}

// A block from home to reading, with the rows.
pub(crate) struct Reading<W> {
    work: PhantomData<W>,
}

impl<W: Work> Play<SlotValue<W::Rows, W::Piece, W::Stage>, View<W::Data>> for Reading<W> {
    ghost then = { reads W.upto W.is_rows };
}

// A block from reading to home, with the rows.
pub(crate) struct Returning;

impl<R, P, S, T> Play<SlotValue<R, P, S>, View<T>> for Returning {
    ghost then = { returns_block };
}

// From ready to held.
pub(crate) struct Claiming<W> {
    work: PhantomData<W>,
}

impl<W: Work> Play<SlotValue<W::Rows, W::Piece, W::Stage>, View<W::Data>> for Claiming<W> {
    ghost then = { claims W.upto W.first };
}

// From held to done, with the piece.
pub(crate) struct PutPiece;

impl<R, P, S, T> Play<SlotValue<R, P, S>, View<T>> for PutPiece {
    ghost then = { deposits false };
}

// From held to marked.
pub(crate) struct PutMark;

impl<R, P, S, T> Play<SlotValue<R, P, S>, View<T>> for PutMark {
    ghost then = { deposits true };
}

// From a free turn to a held one, with the stage.
pub(crate) struct Winning<W> {
    work: PhantomData<W>,
}

impl<W: Work> Play<SlotValue<W::Rows, W::Piece, W::Stage>, View<W::Data>> for Winning<W> {
    ghost then = { wins W.upto W.is_stage };
}

// From done to taken, with the piece.
pub(crate) struct TakePiece<W> {
    work: PhantomData<W>,
}

impl<W: Work> Play<SlotValue<W::Rows, W::Piece, W::Stage>, View<W::Data>> for TakePiece<W> {
    ghost then = { takes_piece W.upto W.is_piece false };
}

// From marked to gone.
pub(crate) struct TakeMark<W> {
    work: PhantomData<W>,
}

impl<W: Work> Play<SlotValue<W::Rows, W::Piece, W::Stage>, View<W::Data>> for TakeMark<W> {
    ghost then = { takes_piece W.upto W.is_piece true };
}

// From taken to idle for the task that has the cell next.
pub(crate) struct Giving;

impl<R, P, S, T> Play<SlotValue<R, P, S>, View<T>> for Giving {
    ghost then = { goes_on };
}

// From a held turn to a free one, with the stage.
pub(crate) struct Releasing;

impl<R, P, S, T> Play<SlotValue<R, P, S>, View<T>> for Releasing {
    ghost then = { releases };
}

// A load that gives the slot of a taken cell back, before the turn of a stopped stage is released.
pub(crate) struct PutBack;

impl<R, P, S, T> Play<SlotValue<R, P, S>, View<T>> for PutBack {
    ghost then = { puts_back };
}

// The first seat gives a new one out.
pub(crate) struct Part;

impl<T> Split<View<T>> for Part {
    ghost left = { parting };

    ghost right = { λ v. newcomer v.base };
}

// The first seat takes another one in.
pub(crate) struct Meet;

impl<T> Join<View<T>> for Meet {
    ghost both = { joined };

    ghost spent = { newcomer None };
}
