// How a run ends.
ghost use Rattle.std.specs.Prelude.{◌≡◌};
ghost use Rattle.saber_engine.specs.Endings.{given_end, end_of, is_stopped, MayStop};

use saber_assembly::Stage;
use saber_crew::Over;
use saber_dispatch::End;
use saber_io::Sink;
use saber_plan::{RunEnd, StageState};
use std::marker::Model;

/// A run that ended, with its sink and the number of tasks that are assembled.
#[derive(Drop)]
pub struct Ran<K> {
    pub end: RunEnd,
    pub sink: K,
    pub tasks: u64,
    /// Whether the stage stopped: then this end came before that of the blocks.
    pub stopped: Stopped,
}

/// Whether the stage of a run stopped, by a write that failed or for want of memory. It is made
/// where a run ends, by the stage that it had, and nowhere else: who has one has a run's, and can't
/// tell otherwise.
#[derive(Clone, Copy)]
pub struct Stopped {
    told: bool,
}

impl Model for Stopped {
    ghost use Rattle.std.specs.Prelude.{Bool};

    ghost Value = { Bool };

    ghost view = { λ s. s.told };

    ghost inverse = { λ told. record { told = told } };
}

impl Stopped {
    /// Whether it did.
    pub fn told(&self) -> bool
        ensures { result ≡ self.now }
    {
        self.told
    }
}

// How a run ends whose blocks ended so.
fn given_end(end: Option<End>) -> RunEnd
    ensures { result ≡ given_end end }
{
    match end {
        None => RunEnd::NoMemory,
        Some(end) => match end {
            End::AllRead => RunEnd::AllRead,
            End::Bad { side, line, cause } => RunEnd::Bad { side, line, cause },
            End::ReadFault { side } => RunEnd::ReadFault { side },
            End::TooWide { task, need } => RunEnd::TooWide { task, need },
            End::NoMemory => RunEnd::NoMemory,
        },
    }
}

// How a run ends: as its stage stopped, else as its blocks ended.
fn end_of(state: StageState, over: Over, end: Option<End>) -> RunEnd
    ensures { result ≡ end_of state over end }
{
    match state {
        StageState::SinkFailed => RunEnd::WriteFault,
        StageState::NoMemory => RunEnd::NoMemory,
        StageState::Running => match over {
            Over::AllGiven => given_end(end),
            Over::Stopped => RunEnd::NoMemory,
            Over::NoMemory => RunEnd::NoMemory,
        },
    }
}

// Whether a stage in this state was stopped.
fn is_stopped(state: StageState) -> Stopped
    ensures { result ≡ is_stopped state }
{
    Stopped {
        told: match state {
            StageState::Running => false,
            StageState::SinkFailed => true,
            StageState::NoMemory => true,
        },
    }
}

/// A run that is over, by its stage, by why no more tasks were filled, and by how the blocks ended.
pub(crate) fn ended<S: Drop, K: Sink>(stage: Stage<S, K>, over: Over, end: Option<End>) -> Ran<K>
    ensures end { result.end ≡ end_of stage.state over end }
    ensures tasks { result.tasks ≡ stage.k }
    ensures sink { result.sink ≡ stage.sink }
    ensures stopped { result.stopped ≡ is_stopped stage.state }
    ensures may { MayStop result.end result.stopped }
{
    let state = stage.state();
    let end = end_of(state, over, end);
    let stopped = is_stopped(state);
    let tasks = stage.k();
    let sink = stage.into_sink();
    Ran {
        end,
        sink,
        tasks,
        stopped,
    }
}
