// The open parts, by window.
ghost use Rattle.std.specs.Prelude.{◌≡◌, ◌++◌, T, OnOk, IfOk};
ghost use Rattle.std.specs.Ordering.{nat_cmp};
ghost use Rattle.std.specs.FinMap.{is_sorted};
ghost use Rattle.saber_plan.specs.Merges.{both};
ghost use Rattle.saber_plan.specs.Parts.{merge};
ghost use Rattle.saber_plan.specs.Texts.{Behind};
ghost use Rattle.saber_fragment.specs.Shown.{windows_by, shares_of};
ghost use Rattle.saber_parts.specs.Stored.{parts_by, parts_from, written_of, left_of, closed_of, CanTakeIn, lines_of};
ghost use Rattle.saber_fragment.specs.Stores.{Continues};

use crate::Assembles;
use saber_fragment::{Parts, Piece};
use saber_plan::NoMemory;
use std::alloc::Global;
use std::collections::BTreeMap;

/// Takes parts of windows, whose numbers rise, into a store, as those of later rows.
pub(crate) fn take_in<A: Assembles>(
    by: &A,
    store: &mut BTreeMap<u64, A::Part>,
    parts: Vec<(u64, A::Part)>,
) -> Result<(), NoMemory>
    requires rising { T (is_sorted nat_cmp (windows_by A.shown parts.items)) }
    requires fits { CanTakeIn (A.plan by.now) (parts_by A.shown store.old.entries) (parts_by A.shown parts.items) }
    ensures { OnOk result (parts_by A.shown store.new.entries ≡ both merge (parts_by A.shown store.old.entries) (parts_by A.shown parts.items)) }
{
    for (window, part) in parts {
        match store.get_mut(&window) {
            Some(mine) => by.merge(mine, part)?,
            None => {
                store.insert(window, part)?;
            }
        }
    }
    Ok(())
}

/// Appends the lines of the windows that are closed, in order, of which these are the whole parts.
pub(crate) fn write_closed<A: Assembles>(
    by: &A,
    parts: &BTreeMap<u64, A::Part>,
    closed_below: u64,
    out: &mut Vec<u8>,
) -> Result<(), NoMemory>
    ensures ok { OnOk result (out.new.items ≡ out.old.items ++ lines_of (A.plan by.now) (windows_by A.shown (closed_of closed_below parts.now.entries))) }
    ensures behind { Behind out.old.items out.new.items }
{
    for (window, part) in parts.range(..closed_below) {
        by.lines(*window, part, out)?;
    }
    Ok(())
}

/// All parts of a piece, whose windows rise.
pub(crate) fn joined<P: Drop>(
    closing: Parts<P>,
    pending: Parts<P>,
    opening: Parts<P>,
) -> Result<Vec<(u64, P)>, NoMemory>
    ensures { IfOk result (λ parts. parts.items ≡ closing ++ (pending ++ opening)) }
{
    let mut parts = closing.into_vec();
    parts.append(&mut pending.into_vec())?;
    parts.append(&mut opening.into_vec())?;
    Ok(parts)
}

/// Takes a piece into the open parts, and appends what it adds to the text. The parts of the
/// windows that are closed now are still there. After want of memory some of the text may be there.
pub(crate) fn settle<A: Assembles>(
    by: &A,
    store: &mut BTreeMap<u64, A::Part>,
    piece: Piece<A::Part>,
    out: &mut Vec<u8>,
) -> Result<(), NoMemory>
    requires { Continues (A.plan by.now) (parts_by A.shown store.old.entries) (shares_of A.shown piece) }
    ensures taken { OnOk result (parts_from A.shown piece.closed_below store.new.entries ≡ left_of A.shown (A.plan by.now) store.old.entries piece) }
    ensures text { OnOk result (out.new.items ≡ out.old.items ++ written_of A.shown (A.plan by.now) store.old.entries piece) }
    ensures behind { Behind out.old.items out.new.items }
{
    let closed_below = piece.closed_below;
    let lines = piece.complete_text;
    let parts = joined(piece.closing, piece.pending, piece.opening)?;
    take_in(by, store, parts)?;
    // That its windows rise, which the proof needs, is told by the length.
    let _count = store.len();
    write_closed(by, store, closed_below, out)?;
    out.extend_from_slice(lines.as_slice())?;
    Ok(())
}
