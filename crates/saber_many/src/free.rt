// What stands whenever nobody has the turn, of each of several queries.
ghost use Rattle.saber_many.specs.Free.{FreeSharedTurnsAreAtRest};

use saber_fragment::Operator;
use saber_io::Sink;

/// What `free_turns_are_at_rest` of `saber_workers` says of one query holds of each of several that
/// share a ring (`Many<SaberWork>`): whenever the turn is free, with k tasks assembled, its sink
/// has exactly the text of its first k tasks, what is kept is exactly what those leave open, and
/// its rows of each task that isn't assembled are whole, and so is its piece of each that was
/// handed in. The rows of its first k tasks are the input's first ones, where these are known. A
/// query whose stage stopped has the text of the tasks before that, whatever the others do.
pub fn free_shared_turns_are_at_rest<O: Operator, K: Sink>()
    ensures { FreeSharedTurnsAreAtRest O.plan O.is_of O.contents O.has_taken K.written K.faults K.writes }
{}
