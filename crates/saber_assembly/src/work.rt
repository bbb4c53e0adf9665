//! The work that threads do for a query.
ghost use Rattle.saber_assembly.specs.Stages.{stage_view};
ghost use Rattle.saber_assembly.specs.Works.{IsTold, with_block, first_tasks, IsBlockOf, IsPieceOf, first_needed, IsStageOf};
ghost use Rattle.saber_assembly.specs.WorkLaws.{block_keeps, tasks_again, tasks_whole, needed_early, needed_rises};

use crate::stage::Stage;
use saber_core::Work;
use saber_flat::Rows;
use saber_fragment::{Block, Operator};
use saber_io::Sink;
use std::collections::LinkedList;
use std::marker::PhantomData;
use std::sync::Mutex;

/// The fixed data of a run, and the input filled so far. No value of it is made.
pub struct RunData<O> {
    /// What makes the pieces, and has the plan.
    pub operator: O,
    /// How many rows a task has; the last one may have fewer.
    pub size: u64,
    /// What the sink had written when the stage was made, where it tells.
    pub written: Option<LinkedList<u64>>,
    /// Its count of faults then.
    pub faults: u64,
    /// Its count of writes then.
    pub writes: u64,
    /// The rows that the inputs give in all, where they are known when the run begins: those of
    /// files that tell what they have. What a chain's second query reads isn't written then.
    pub all: Option<Rows>,
    pub rows: Rows,
    /// Whether the input's end stands behind them.
    pub ended: bool,
}

/// The work of a run with this operator and this sink. Rows are blocks, a piece is the operator's,
/// and the stage is the ordered assembly.
pub struct SaberWork<O, K> {
    operator: PhantomData<Mutex<O>>,
    sink: PhantomData<Mutex<K>>,
}

impl<O: Operator, K: Sink> Work for SaberWork<O, K> {
    type Rows = Block;

    type Piece = O::Piece;

    type Stage = Stage<O::Store, K>;

    type Data = RunData<O>;

    ghost is_told = { IsTold O.plan };

    ghost filled = { with_block };

    ghost upto = { first_tasks };

    ghost is_rows = { IsBlockOf O.plan };

    ghost is_piece = { IsPieceOf O.plan O.is_of };

    ghost first = { first_needed O.plan };

    ghost is_stage = { IsStageOf O.plan (stage_view O.contents K.written K.faults K.writes) O.has_taken };

    ghost keeps = { λ told d k rows. block_keeps O.plan told d k rows };

    ghost again = { λ told d j k. tasks_again O.plan told d j k };

    ghost whole = { λ told d. tasks_whole O.plan told d };

    ghost early = { λ told d t. needed_early O.plan told d t };

    ghost rises = { λ told d j k. needed_rises O.plan told d j k };
}
