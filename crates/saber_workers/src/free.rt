// What stands whenever nobody has the turn, in the words of the whole engine's theorem.
ghost use Rattle.saber_workers.specs.Free.{FreeTurnsAreAtRest};

use saber_fragment::Operator;
use saber_io::Sink;

/// Whenever the turn is free, with k tasks assembled: where the stage hasn't stopped, the sink has
/// exactly the text of the windows that the first k tasks' rows close, and what is kept is exactly
/// what those rows leave open. Where all rows of the input are known as the run begins, these are
/// its first ones: k times as many as a task has, or all. The rows of each task that isn't
/// assembled are whole, and of each that was handed in the piece, or the mark of want of memory, is
/// at home. So it is for every size of tasks and of the ring, and whatever seats did up to then, in
/// any order.
pub fn free_turns_are_at_rest<O: Operator, K: Sink>()
    ensures { FreeTurnsAreAtRest O.plan O.is_of O.contents O.has_taken K.written K.faults K.writes }
{}
