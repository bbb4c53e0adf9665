// The same counts, straight from a plan.
ghost use Rattle.std.specs.Prelude.{◌≡◌, ℕ, ◌≤◌, ◌||◌, not, nat_lt, is_none};
ghost use Rattle.saber_plan.specs.Trees.{tree_of};
ghost use Rattle.saber_plan.specs.Answers.{frame};
ghost use Rattle.saber_plan.specs.Windows.{begun, begun_count, closed, closed_count, kind_of};

use crate::Windows;
use saber_plan::{Kind, Mark, Plan};

/// How many windows are closed by the rows that this mark tells of: those from 0 on. A window by
/// rows is closed when all its rows came, one by time when a row came whose time is greater than
/// all of the window's, and one of a join when it is for both streams. Where the input ended, all
/// begun windows are closed (this project's own rule).
pub fn closed_below(p: &Plan, m: &Mark) -> u64
    ensures count { result ≡ closed_count (frame (tree_of p.now)) m.now }
    ensures closed { (i : ℕ) → nat_lt i result ≡ closed (frame (tree_of p.now)) i m.now }
    ensures begun { result ≤ begun_count (frame (tree_of p.now)) m.now }
{
    Windows::of_plan(p).closed_below(m)
}

/// How many windows are begun by them: those from 0 on. A window by rows is begun by its first row,
/// one by time when a row of its first timestamp or later came, and one of a join when it is for
/// either stream (this project's own rule).
pub fn begun_below(p: &Plan, m: &Mark) -> u64
    ensures count { result ≡ begun_count (frame (tree_of p.now)) m.now }
    ensures begun { (i : ℕ) → nat_lt i result ≡ begun (frame (tree_of p.now)) i m.now }
{
    Windows::of_plan(p).begun_below(m)
}

/// What part of window i lies in a task's rows, those behind mark a and up to mark b, if any does:
/// its end, its middle, its beginning, or all of it (SABER 2016).
pub fn kind_of(p: &Plan, i: u64, a: &Mark, b: &Mark) -> Option<Kind>
    ensures kind { result ≡ kind_of (frame (tree_of p.now)) i a.now b.now }
    ensures none { is_none result ≡ (closed (frame (tree_of p.now)) i a.now || not (begun (frame (tree_of p.now)) i b.now)) }
{
    Windows::of_plan(p).kind_of(i, a, b)
}
