//! The turn, which its holder has with the stage.
ghost use Rattle.std.specs.Prelude.{◌^◌, ◌≡◌, ◌≤◌};

use crate::view::TurnState;
use saber_core::Work;

/// The turn that a seat has won, and the stage. It ends by `Seat::release` alone, so that no stage
/// is lost silently.
pub struct Turn<W: Work> {
    pub(crate) behind: u64,
    pub(crate) stage: W::Stage,
    pub(crate) state: TurnState,
    pub ghost small: { behind ≤ 2 ^ 42 },
}

impl<W: Work> Turn<W> {
    ghost use Rattle.std.specs.Borrow.{sem};
    ghost use Rattle.saber_ring.specs.Lending.{LendsStage};
    ghost use Rattle.saber_ring.specs.Plays.{is_stopped};

    /// The number of tasks that are behind the stage: given, in their order.
    pub fn behind(&self) -> u64
        ensures { result ≡ self.now.behind }
    {
        self.behind
    }

    /// Whether a release now would be that of a stopped stage: the turn was won so, or a task is
    /// taken and not given.
    pub fn is_stopped(&self) -> bool
        ensures { result ≡ is_stopped self.now.state }
    {
        match self.state {
            TurnState::Open => false,
            _ => true,
        }
    }

    /// Lends the stage for writing.
    pub fn stage(&mut self) -> &mut W::Stage
        ensures* writes_back { sem 𝓛 (LendsStage W.row W.Rows.row W.Piece.row W.Stage.row W.Data.row W.Work self.entry result) }
        ensures value { result.now ≡ self.old.stage }
    {
        &mut self.stage
    }
}
