// What one window has that another hasn't.
ghost use Rattle.std.specs.Prelude.{◌≡◌, ◌++◌, OnOk};
ghost use Rattle.saber_plan.specs.Answers.{uncancelled_answers, answer_lines};
ghost use Rattle.saber_plan.specs.Texts.{Behind};
ghost use Rattle.saber_changes.specs.Counts.{change_of};

use crate::answers::Answers;
use crate::counts::{counted, take};
use crate::rising::write_apart;
use saber_digits::write_line;
use saber_plan::NoMemory;
use std::alloc::Global;

/// Which of the answers of a window and the one before it are printed.
#[derive(Clone, Copy)]
pub enum Change {
    /// Those that the window before hasn't (ISTREAM).
    Gained,
    /// Those of the window before that the window hasn't (DSTREAM).
    Lost,
}

// Writes the lines that cancel none, as those of a window, by counts of the others: lines in any
// order.
fn write_counted(
    alloc: Global,
    window: u64,
    answers: &Answers,
    others: &Answers,
    out: &mut Vec<u8>,
) -> Result<(), NoMemory>
    ensures ok { OnOk result (out.new.items ≡ out.old.items ++ answer_lines window (uncancelled_answers answers.now others.now)) }
    ensures behind { Behind out.old.items out.new.items }
{
    let mut left = counted(alloc, others)?;
    for i in 0..answers.len() {
        let line = answers.line(i);
        if take(&mut left, line) {
            continue;
        }
        write_line(out, window, line)?;
    }
    Ok(())
}

/// Writes the lines that cancel none, as those of a window. Each in turn cancels one equal line
/// that is still left of the others. Where the lines of both windows rise, it is one walk over
/// both, without memory.
pub(crate) fn write_uncancelled(
    alloc: Global,
    window: u64,
    answers: &Answers,
    others: &Answers,
    out: &mut Vec<u8>,
) -> Result<(), NoMemory>
    ensures ok { OnOk result (out.new.items ≡ out.old.items ++ answer_lines window (uncancelled_answers answers.now others.now)) }
    ensures behind { Behind out.old.items out.new.items }
{
    if answers.rise() && others.rise() {
        write_apart(window, answers, others, out)
    } else {
        write_counted(alloc, window, answers, others, out)
    }
}

/// Writes what a window has gained or lost against the one before it.
pub(crate) fn write_change(
    alloc: Global,
    change: Change,
    window: u64,
    before: &Answers,
    now: &Answers,
    out: &mut Vec<u8>,
) -> Result<(), NoMemory>
    ensures ok { OnOk result (out.new.items ≡ out.old.items ++ answer_lines window (change_of change before.now now.now)) }
    ensures behind { Behind out.old.items out.new.items }
{
    match change {
        Change::Gained => write_uncancelled(alloc, window, now, before, out),
        Change::Lost => write_uncancelled(alloc, window, before, now, out),
    }
}
