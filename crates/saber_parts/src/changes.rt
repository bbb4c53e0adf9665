// What closed windows gain or lose, from their parts.
ghost use Rattle.std.specs.Prelude.{◌≡◌, ℕ, OnOk};
ghost use Rattle.saber_plan.specs.Answers as a;
ghost use Rattle.saber_plan.specs.Inputs.{Input};
ghost use Rattle.saber_plan.specs.Texts.{Behind};
ghost use Rattle.saber_fragment.specs.Shown.{windows_by, shares_of};
ghost use Rattle.saber_changes.specs.Walks.{Stands, Walks};
ghost use Rattle.saber_parts.specs.Stored.{parts_by, parts_from, closed_of};
ghost use Rattle.saber_parts.specs.Changing.{Rises, Tells, CanHand, Hands, Handed};

use crate::Assembles;
use crate::store::{joined, take_in};
use saber_changes::{Change, Walk};
use saber_fragment::Piece;
use saber_plan::NoMemory;
use std::alloc::Global;
use std::collections::BTreeMap;

/// Walks over the windows that are closed, of which these are the whole parts, and appends what
/// they change.
pub(crate) fn walk_closed<A: Assembles>(
    alloc: Global,
    by: &A,
    change: Change,
    parts: &BTreeMap<u64, A::Part>,
    closed_below: u64,
    walk: &mut Walk,
    out: &mut Vec<u8>,
) -> Result<(), NoMemory>
    requires { Rises walk.old.next closed_below (windows_by A.shown (closed_of closed_below parts.now.entries)) }
    ensures ok { OnOk result ((at : ℕ → a.Answers) → Stands at walk.old → Tells (A.plan by.now) at walk.old.next closed_below (windows_by A.shown (closed_of closed_below parts.now.entries))
        → Walks change at walk.old walk.new closed_below out.old.items out.new.items) }
    ensures next { OnOk result (walk.new.next ≡ closed_below) }
    ensures behind { Behind out.old.items out.new.items }
{
    for (window, part) in parts.range(..closed_below) {
        let answers = by.answers(alloc, part)?;
        walk.pass(alloc, change, *window, answers, out)?;
    }
    walk.reach(alloc, change, closed_below, out)?;
    Ok(())
}

/// Takes what is handed on into the open parts, and appends what the windows that are closed now
/// gain or lose. Their parts are still there. After want of memory some of the text may be there.
pub(crate) fn settle_changes<A: Assembles>(
    alloc: Global,
    by: &A,
    change: Change,
    store: &mut BTreeMap<u64, A::Part>,
    walk: &mut Walk,
    piece: Piece<A::Part>,
    out: &mut Vec<u8>,
) -> Result<(), NoMemory>
    requires { CanHand (A.plan by.now) (parts_by A.shown store.old.entries) walk.old (shares_of A.shown piece) }
    ensures ok { OnOk result ((r : Input) (x y : ℕ) → Hands (A.plan by.now) (parts_by A.shown store.old.entries) walk.old (shares_of A.shown piece) r x y
        → Handed change (A.plan by.now) (parts_from A.shown walk.new.next store.new.entries) walk.new out.old.items out.new.items r x y) }
    ensures behind { Behind out.old.items out.new.items }
{
    let closed_below = piece.closed_below;
    let parts = joined(piece.closing, piece.pending, piece.opening)?;
    take_in(by, store, parts)?;
    // That its windows rise, which the proof needs, is told by the length.
    let _count = store.len();
    walk_closed(alloc, by, change, store, closed_below, walk, out)?;
    Ok(())
}
