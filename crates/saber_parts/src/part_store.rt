// The parts of open windows.
ghost use Rattle.std.specs.Prelude.{◌≡◌, [], filter, nat_le, OnOk};
ghost use Rattle.saber_plan.specs.Texts.{Behind};
ghost use Rattle.saber_fragment.specs.Shown.{shares_of};
ghost use Rattle.saber_fragment.specs.Stores.{AddsText, CanTakeIn, LeavesKept, TakesIn};
ghost use Rattle.saber_changes.specs.Outputs.{change_in, last_in, IsBefore};
ghost use Rattle.saber_parts.specs.Stored.{parts_by, parts_from};
ghost use Rattle.saber_parts.specs.Taking.{kept_by, HasTaken, IsGiven};

use crate::Assembles;
use crate::changes::settle_changes;
use crate::store::settle;
use saber_changes::{Change, Output};
use saber_fragment::Piece;
use saber_plan::NoMemory;
use std::alloc::Global;
use std::collections::BTreeMap;

/// The parts of windows, each under its window's number, how many windows are closed, and what is
/// printed of those. The parts of closed windows stay until they are dropped.
#[derive(Drop)]
pub struct PartStore<P> {
    /// The parts.
    pub parts: BTreeMap<u64, P>,
    /// The windows from this one on aren't closed.
    pub closed_below: u64,
    /// What closed windows print.
    pub output: Output,
}

impl<P: Drop> PartStore<P> {
    /// No part, of windows that print their lines, or this change. Takes no memory.
    pub fn new(alloc: Global, change: Option<Change>) -> PartStore<P>
        ensures parts { result.parts.entries ≡ [] }
        ensures closed { result.closed_below ≡ 0 }
        ensures change { change_in result.output ≡ change }
        ensures before { IsBefore result.output 0 }
        ensures last { last_in result.output ≡ [] }
    {
        PartStore {
            parts: BTreeMap::new(alloc),
            closed_below: 0,
            output: Output::new(alloc, change),
        }
    }

    /// Takes in the piece of the next task, and appends what it adds to the text. After want of
    /// memory some of the text may be there, and the store is only safe to let go.
    pub fn take_in<A: Assembles<Part = P>>(
        &mut self,
        alloc: Global,
        by: &A,
        piece: Piece<P>,
        out: &mut Vec<u8>,
    ) -> Result<(), NoMemory>
        requires { CanTakeIn (A.plan by.now) (kept_by (parts_by A.shown self.old.parts.entries) self.old.output) (HasTaken (A.plan by.now) self.old.output) (IsGiven (A.plan by.now) (shares_of A.shown piece)) }
        ensures text { OnOk result (AddsText (A.plan by.now) (kept_by (parts_by A.shown self.old.parts.entries) self.old.output) (HasTaken (A.plan by.now) self.old.output) (IsGiven (A.plan by.now) (shares_of A.shown piece))
            out.old.items out.new.items) }
        ensures stays { OnOk result (LeavesKept (A.plan by.now) (kept_by (parts_by A.shown self.old.parts.entries) self.old.output) (HasTaken (A.plan by.now) self.old.output) (IsGiven (A.plan by.now) (shares_of A.shown piece))
            (kept_by (parts_from A.shown self.new.closed_below self.new.parts.entries) self.new.output)) }
        ensures taken { OnOk result (TakesIn (A.plan by.now) (kept_by (parts_by A.shown self.old.parts.entries) self.old.output) (HasTaken (A.plan by.now) self.old.output) (IsGiven (A.plan by.now) (shares_of A.shown piece))
            (HasTaken (A.plan by.now) self.new.output)) }
        ensures behind { Behind out.old.items out.new.items }
    {
        self.closed_below = piece.closed_below;
        match &mut self.output {
            Output::Each => {
                settle(by, &mut self.parts, piece, out)?;
                Ok(())
            }
            Output::Delta(change, walk) => {
                settle_changes(alloc, by, *change, &mut self.parts, walk, piece, out)?;
                Ok(())
            }
        }
    }

    /// Drops the parts of closed windows. Takes no memory.
    pub fn drop_closed(&mut self)
        ensures parts { self.new.parts.entries ≡ filter (λ e. nat_le self.old.closed_below e.0) self.old.parts.entries }
        ensures closed { self.new.closed_below ≡ self.old.closed_below }
        ensures output { self.new.output ≡ self.old.output }
    {
        let closed_below = self.closed_below;
        self.parts.retain(
            |window, _part|
                ensures test { result ≡ nat_le closed_below window.now }
                ensures part { _part.exit.now ≡ _part.entry.now }
            { *window >= closed_below },
        );
    }
}
