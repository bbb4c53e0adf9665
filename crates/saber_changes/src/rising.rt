// What one window has that another hasn't, where the lines of both rise.
ghost use Rattle.std.specs.Prelude.{◌≡◌, ◌≤◌, ◌∷◌, ◌++◌, drop, length, true, false, OnOk};
ghost use Rattle.saber_plan.specs.Answers as a;
ghost use Rattle.saber_plan.specs.Answers.{uncancelled_answers, answer_lines};
ghost use Rattle.saber_plan.specs.Texts.{Behind};
ghost use Rattle.saber_changes.specs.Rising.{is_below, NoneBelow, Rises};

use crate::answers::Answers;
use saber_digits::write_line;
use saber_plan::NoMemory;
use std::cmp::Ordering;

// Whether the first number of a line is greater than that of another.
#[inline]
fn begins_above(line: &[i128], other: &[i128]) -> bool
    ensures { result ≡ true → is_below line.now other.now ≡ false }
{
    match line.first() {
        Some(number) => match other.first() {
            Some(bound) => bound < number,
            None => false,
        },
        None => false,
    }
}

/// Whether a line comes before another: number by number, and the shorter one first. Mostly the
/// first numbers tell.
#[inline]
pub(crate) fn comes_before(line: &[i128], other: &[i128]) -> bool
    ensures { result ≡ is_below line.now other.now }
{
    !begins_above(line, other) && line.cmp(other).is_lt()
}

// Passes those of the others from a place on that are below the line, and the one behind them if it
// is the same. Tells where it stops, and whether the line is cancelled.
#[inline]
fn cancel(others: &Answers, from: usize, line: &[i128]) -> (usize, bool)
    requires { from ≤ length others.now }
    ensures within { result.0 ≤ length others.now }
    ensures cancelled { result.1 ≡ true → (ks : a.Answers) → NoneBelow line.now ks → uncancelled_answers (line.now ∷ ks) (drop from others.now) ≡ uncancelled_answers ks (drop result.0 others.now) }
    ensures left { result.1 ≡ false → (ks : a.Answers) → NoneBelow line.now ks → Rises (drop from others.now)
        → uncancelled_answers (line.now ∷ ks) (drop from others.now) ≡ line.now ∷ uncancelled_answers ks (drop result.0 others.now) }
    ensures rises { Rises (drop from others.now) → Rises (drop result.0 others.now) }
{
    let mut place = from;
    while place < others.len() {
        match others.line(place).cmp(line) {
            Ordering::Less => place += 1,
            Ordering::Equal => return (place + 1, true),
            Ordering::Greater => return (place, false),
        }
    }
    (place, false)
}

/// Writes the lines that cancel none, as those of a window, in one walk over both.
pub(crate) fn write_apart(
    window: u64,
    answers: &Answers,
    others: &Answers,
    out: &mut Vec<u8>,
) -> Result<(), NoMemory>
    requires answers { Rises answers.now }
    requires others { Rises others.now }
    ensures ok { OnOk result (out.new.items ≡ out.old.items ++ answer_lines window (uncancelled_answers answers.now others.now)) }
    ensures behind { Behind out.old.items out.new.items }
{
    let mut at = 0;
    for i in 0..answers.len() {
        let line = answers.line(i);
        let (place, is_cancelled) = cancel(others, at, line);
        at = place;
        if is_cancelled {
            continue;
        }
        write_line(out, window, line)?;
    }
    Ok(())
}
