// What the windows of a task give to its piece.
ghost use Rattle.std.specs.Prelude.{◌≡◌, ◌++◌, [], Some, OnOk, IfOk};
ghost use Rattle.saber_plan.specs.Tasks.{is_complete};
ghost use Rattle.saber_plan.specs.Needs.{is_closing, is_pending, is_opening};
ghost use Rattle.saber_plan.specs.Shares.{is_closed};
ghost use Rattle.saber_fragment.specs.Shown.{windows_by, shares_of};
ghost use Rattle.saber_parts.specs.Entries.{entry, entry_if, lines_if, entries_by, lines_by, given_by, handed_by};

use crate::Assembles;
use crate::gathered::Gathered;
use saber_fragment::{Parts, Piece};
use saber_plan::{Kind, NoMemory};
use saber_window::Bounds;
use std::alloc::Global;
use std::collections::BTreeMap;

// Keeps the part of a window, unless there is nothing in it.
fn keep<A: Assembles>(
    by: &A,
    parts: &mut Parts<A::Part>,
    window: u64,
    part: A::Part,
) -> Result<(), NoMemory>
    ensures { OnOk result (windows_by A.shown parts.new ≡ windows_by A.shown parts.old ++ entry window (A.shown part)) }
{
    if by.is_empty(&part) {
        return Ok(());
    }
    parts.push(window, part)?;
    Ok(())
}

// Puts in the part of the next window, by what the window is to the task.
fn place<A: Assembles>(
    by: &A,
    gathered: &mut Gathered<A::Part>,
    kind: Kind,
    window: u64,
    part: A::Part,
) -> Result<(), NoMemory>
    ensures closing { OnOk result (windows_by A.shown gathered.new.closing
        ≡ windows_by A.shown gathered.old.closing ++ entry_if (is_closing (Some kind)) window (A.shown part)) }
    ensures pending { OnOk result (windows_by A.shown gathered.new.pending
        ≡ windows_by A.shown gathered.old.pending ++ entry_if (is_pending (Some kind)) window (A.shown part)) }
    ensures opening { OnOk result (windows_by A.shown gathered.new.opening
        ≡ windows_by A.shown gathered.old.opening ++ entry_if (is_opening (Some kind)) window (A.shown part)) }
    ensures text { OnOk result (gathered.new.text.items
        ≡ gathered.old.text.items ++ lines_if (is_complete (Some kind)) (A.plan by.now) window (A.shown part)) }
{
    match kind {
        Kind::Closing => keep(by, &mut gathered.closing, window, part),
        Kind::Pending => keep(by, &mut gathered.pending, window, part),
        Kind::Opening => keep(by, &mut gathered.opening, window, part),
        Kind::Complete => by.lines(window, &part, &mut gathered.text),
    }
}

// Puts in the part of the next window, where what is printed of it stands on the window before: as
// yet no line is written.
fn hand_on<A: Assembles>(
    by: &A,
    onto: &mut Gathered<A::Part>,
    kind: Kind,
    window: u64,
    part: A::Part,
) -> Result<(), NoMemory>
    ensures closing { OnOk result (windows_by A.shown onto.new.closing
        ≡ windows_by A.shown onto.old.closing ++ entry_if (is_closed (Some kind)) window (A.shown part)) }
    ensures pending { OnOk result (windows_by A.shown onto.new.pending
        ≡ windows_by A.shown onto.old.pending ++ entry_if (is_pending (Some kind)) window (A.shown part)) }
    ensures opening { OnOk result (windows_by A.shown onto.new.opening
        ≡ windows_by A.shown onto.old.opening ++ entry_if (is_opening (Some kind)) window (A.shown part)) }
    ensures text { OnOk result (onto.new.text.items ≡ onto.old.text.items) }
{
    match kind {
        Kind::Closing | Kind::Complete => keep(by, &mut onto.closing, window, part),
        Kind::Pending => keep(by, &mut onto.pending, window, part),
        Kind::Opening => keep(by, &mut onto.opening, window, part),
    }
}

// Lets go of what some windows gave.
fn let_gathered_go<P: Drop>(_gathered: Gathered<P>) {}

// What these windows give.
fn gather<A: Assembles>(
    alloc: Global,
    by: &A,
    bounds: &Bounds,
    windows: BTreeMap<u64, A::Part>,
) -> Result<Gathered<A::Part>, NoMemory>
    ensures closing { IfOk result (λ g. windows_by A.shown g.closing ≡ entries_by is_closing bounds.now (windows_by A.shown windows.entries)) }
    ensures pending { IfOk result (λ g. windows_by A.shown g.pending ≡ entries_by is_pending bounds.now (windows_by A.shown windows.entries)) }
    ensures opening { IfOk result (λ g. windows_by A.shown g.opening ≡ entries_by is_opening bounds.now (windows_by A.shown windows.entries)) }
    ensures text { IfOk result (λ g. g.text.items ≡ lines_by (A.plan by.now) bounds.now (windows_by A.shown windows.entries)) }
{
    let mut gathered = Gathered::new(alloc);
    for (window, part) in windows {
        match place(by, &mut gathered, bounds.kind(window), window, part) {
            Ok(()) => {}
            Err(want) => {
                let_gathered_go(gathered);
                return Err(want);
            }
        }
    }
    Ok(gathered)
}

// What they hand on.
fn gather_on<A: Assembles>(
    alloc: Global,
    by: &A,
    bounds: &Bounds,
    windows: BTreeMap<u64, A::Part>,
) -> Result<Gathered<A::Part>, NoMemory>
    ensures closing { IfOk result (λ g. windows_by A.shown g.closing ≡ entries_by is_closed bounds.now (windows_by A.shown windows.entries)) }
    ensures pending { IfOk result (λ g. windows_by A.shown g.pending ≡ entries_by is_pending bounds.now (windows_by A.shown windows.entries)) }
    ensures opening { IfOk result (λ g. windows_by A.shown g.opening ≡ entries_by is_opening bounds.now (windows_by A.shown windows.entries)) }
    ensures text { IfOk result (λ g. g.text.items ≡ []) }
{
    let mut gathered = Gathered::new(alloc);
    for (window, part) in windows {
        match hand_on(by, &mut gathered, bounds.kind(window), window, part) {
            Ok(()) => {}
            Err(want) => {
                let_gathered_go(gathered);
                return Err(want);
            }
        }
    }
    Ok(gathered)
}

/// The piece of a task, from the parts of its windows.
pub fn piece_of_windows<A: Assembles>(
    alloc: Global,
    by: &A,
    bounds: &Bounds,
    windows: BTreeMap<u64, A::Part>,
) -> Result<Piece<A::Part>, NoMemory>
    ensures { IfOk result (λ p. shares_of A.shown p ≡ given_by (A.plan by.now) bounds.now (windows_by A.shown windows.entries)) }
{
    let gathered = gather(alloc, by, bounds, windows)?;
    Ok(gathered.into_piece(bounds.closed_after))
}

/// What such a task hands on, where a query prints what its windows gain or lose.
pub fn handed_of_windows<A: Assembles>(
    alloc: Global,
    by: &A,
    bounds: &Bounds,
    windows: BTreeMap<u64, A::Part>,
) -> Result<Piece<A::Part>, NoMemory>
    ensures { IfOk result (λ p. shares_of A.shown p ≡ handed_by bounds.now (windows_by A.shown windows.entries)) }
{
    let gathered = gather_on(alloc, by, bounds, windows)?;
    Ok(gathered.into_piece(bounds.closed_after))
}
