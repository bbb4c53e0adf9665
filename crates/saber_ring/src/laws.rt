//! What the rule says of the core: each kind of step that is an event takes any table that keeps
//! the rule to one whose core is the next one. The clauses range over all sizes, tables, seats and
//! states of the ring; a seat's number in the core is its place among the views. Each other step
//! leaves the core.
ghost use Rattle.saber_ring.specs.Laws.{ClaimIsItsEvent, DepositIsItsEvent, WinIsItsEvent, ReleaseIsItsEvent, TakeIsItsEvent, GiveIsItsEvent, FillIsItsEvent, LookIsNoEvent, BeginIsNoEvent, StoreIsNoEvent, ReadIsNoEvent, ReturnIsNoEvent, PutBackIsNoEvent, NeedsAreWhole, BlockWordsAre};

use saber_core::Work;

/// The step from idle to ready, with the block at home, is the event `Fill`, and can't lose.
pub fn fill_is_its_event<W: Work>()
    ensures { FillIsItsEvent W.is_told W.upto W.first W.is_rows W.is_piece W.is_stage }
{}

/// The step from ready to held is the event `Claim`.
pub fn claim_is_its_event<W: Work>()
    ensures { ClaimIsItsEvent W.is_told W.upto W.first W.is_rows W.is_piece W.is_stage }
{}

/// The step from held to done or marked is the event `Deposit`.
pub fn deposit_is_its_event<W: Work>()
    ensures { DepositIsItsEvent W.is_told W.upto W.first W.is_rows W.is_piece W.is_stage }
{}

/// The step from a free turn to a held one is the event `Win`.
pub fn win_is_its_event<W: Work>()
    ensures { WinIsItsEvent W.is_told W.upto W.first W.is_rows W.is_piece W.is_stage }
{}

/// The step from done to taken, or from marked to gone, is the event `Take`.
pub fn take_is_its_event<W: Work>()
    ensures { TakeIsItsEvent W.is_told W.upto W.first W.is_rows W.is_piece W.is_stage }
{}

/// The step from taken to idle is the event `Give`.
pub fn give_is_its_event<W: Work>()
    ensures { GiveIsItsEvent W.is_told W.upto W.first W.is_rows W.is_piece W.is_stage }
{}

/// The step from a held turn to a free one is the event `Release`.
pub fn release_is_its_event<W: Work>()
    ensures { ReleaseIsItsEvent W.is_told W.upto W.first W.is_rows W.is_piece W.is_stage }
{}

/// A load is no event, nor is an exchange that found another word.
pub fn a_look_is_no_event<W: Work>()
    ensures { LookIsNoEvent W.is_told W.upto W.first W.is_rows W.is_piece W.is_stage }
{}

/// The step that takes a block for filling is no event, and can't lose.
pub fn a_begin_is_no_event<W: Work>()
    ensures { BeginIsNoEvent W.is_told W.upto W.first W.is_rows W.is_piece W.is_stage }
{}

/// The step that gives a block back with the rows of the next task is no event.
pub fn a_store_is_no_event<W: Work>()
    ensures { StoreIsNoEvent W.is_told W.upto W.first W.is_rows W.is_piece W.is_stage W.filled }
{}

/// The step that takes a block for reading is no event.
pub fn a_read_is_no_event<W: Work>()
    ensures { ReadIsNoEvent W.is_told W.upto W.first W.is_rows W.is_piece W.is_stage }
{}

/// The step that gives a block back from reading is no event.
pub fn a_return_is_no_event<W: Work>()
    ensures { ReturnIsNoEvent W.is_told W.upto W.first W.is_rows W.is_piece W.is_stage }
{}

/// The load that gives the slot of a taken cell back is no event.
pub fn a_put_back_is_no_event<W: Work>()
    ensures { PutBackIsNoEvent W.is_told W.upto W.first W.is_rows W.is_piece W.is_stage }
{}

/// Whenever the rule holds, each block from the first that the tasks not yet assembled need to the
/// last one filled is at home with its own rows, or with one reader, whose job needs it. So the
/// rows that a task needs are in the ring from its fill on until it is assembled.
pub fn needs_are_whole<W: Work>()
    ensures { NeedsAreWhole W.is_told W.upto W.first W.is_rows W.is_piece W.is_stage }
{}

/// Which words of blocks stand, whenever the rule holds.
pub fn block_words_are<W: Work>()
    ensures { BlockWordsAre W.is_told W.upto W.first W.is_rows W.is_piece W.is_stage }
{}
