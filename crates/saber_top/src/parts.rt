// What came of each of several queries.
ghost use Rattle.std.specs.Prelude.{◌≡◌, ◌≤◌, [], length};
ghost use Rattle.std.specs.List.{AllZip};
ghost use Rattle.std.specs.VecDeque.{deque_len, deque_capacity};
ghost use Rattle.saber_notes.specs.ManyNotes.{first_status};
ghost use Rattle.saber_top.specs.Shared.{parts_in, outcomes_of, IsPartOf};

use saber_cli::outcome_of;
use saber_engine::Ran;
use saber_io::Plain;
use saber_notes::Outcome;
use std::alloc::Global;
use std::collections::VecDeque;

/// What came of a query: as of a run of it alone.
#[derive(Drop)]
pub struct Part<T> {
    /// The status that a run of it alone would end with.
    pub status: u8,
    /// The sink that its answer went to.
    pub out: T,
    /// How many tasks are assembled.
    pub tasks: u64,
    /// How the run ended, of which the status tells.
    pub outcome: Outcome,
}

/// What came of each query, in their order; nothing where none was run.
#[derive(Drop)]
pub struct PartList<T> {
    pub(crate) list: Vec<Part<T>>,
}

impl<T> PartList<T> {
    ghost use Rattle.std.specs.Prelude.{◌≡◌, []};
    ghost use Rattle.saber_top.specs.Shared.{parts_in};

    /// Of no query.
    pub(crate) fn none(alloc: Global) -> PartList<T>
        ensures { parts_in result ≡ [] }
    {
        PartList {
            list: Vec::new(alloc),
        }
    }

    /// The parts, in the order of the queries.
    pub fn as_slice(&self) -> &[Part<T>]
        ensures { result.now ≡ parts_in self.now }
    {
        &self.list
    }
}

// The part of a run that ended so, on a ring of so many cells.
fn part_of<T>(ran: Ran<Plain<T>>, ring: u32) -> Part<T>
    ensures { IsPartOf ring ran result }
{
    let Ran {
        end,
        sink,
        tasks,
        ..
    } = ran;
    let Plain { sink: out } = sink;
    let outcome = outcome_of(end, ring);
    Part {
        status: outcome.status(),
        out,
        tasks,
        outcome,
    }
}

// The parts of these runs, in their order. There is room for all.
fn part_each<T>(rans: &mut VecDeque<Ran<Plain<T>>>, ring: u32, parts: &mut VecDeque<Part<T>>)
    requires none { (parts.old.items ≡ []) × (deque_len parts.old ≡ 0) }
    requires room { length rans.old.items ≤ deque_capacity parts.old }
    ensures parts { AllZip (IsPartOf ring) rans.old.items parts.new.items }
    ensures taken { deque_len rans.new ≡ 0 }
    ensures len { deque_len parts.new ≡ length rans.old.items }
    ensures room { deque_capacity parts.new ≡ deque_capacity parts.old }
{
    let Some(ran) = rans.pop_front() else {
        return;
    };
    part_each(rans, ring, parts);
    parts.push_front_reserved(part_of(ran, ring));
}

/// The parts of these runs, in an empty queue that has room.
pub(crate) fn part_all<T>(
    rans: VecDeque<Ran<Plain<T>>>,
    ring: u32,
    parts: VecDeque<Part<T>>,
) -> PartList<T>
    requires none { (parts.items ≡ []) × (deque_len parts ≡ 0) }
    requires room { length rans.items ≤ deque_capacity parts }
    ensures parts { AllZip (IsPartOf ring) rans.items (parts_in result) }
{
    let mut rans = rans;
    let mut parts = parts;
    part_each(&mut rans, ring, &mut parts);
    rans.destroy_empty();
    PartList {
        list: Vec::from(parts),
    }
}

/// The status of all: the first one that isn't 0.
pub(crate) fn first_status<T>(parts: &[Part<T>]) -> u8
    ensures { result ≡ first_status (outcomes_of parts.now) }
{
    let Some((part, others)) = parts.split_first() else {
        return 0;
    };
    if part.outcome == Outcome::Done {
        return first_status(others);
    }
    part.outcome.status()
}
