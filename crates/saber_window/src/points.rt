// The windows of a point.
ghost use Rattle.std.specs.Prelude.{◌≡◌, ℕ, ◌≤◌, ◌&&◌, false, nat_le, nat_lt, IfSome, IfNone};
ghost use Rattle.saber_plan.specs.Windows.{count_to, spans};
ghost use Rattle.saber_plan.specs.Checked.{WindowFits};

use crate::counts::count_to;
use saber_plan::Window;

/// The first and the last window that have a point: the position of a row, or its timestamp.
/// Windows count from 0, and window i has the points from i times the slide on, as many as the size
/// (SABER 2016). Where the slide is greater than the size, a point between two windows lies in
/// none.
#[tactic(auto, using(saber_laws::proofs::WindowLaws::points_span, crate::proofs::Counted::spans_by))]
pub fn windows_of(w: &Window, point: u64) -> Option<(u64, u64)>
    requires { WindowFits w.now }
    ensures some { IfSome result (λ r. (i : ℕ) → spans w.now.slide w.now.size i point ≡ (nat_le r.0 i && nat_le i r.1)) }
    ensures order { IfSome result (λ r. r.0 ≤ r.1) }
    ensures none { IfNone result ((i : ℕ) → spans w.now.slide w.now.size i point ≡ false) }
{
    let first = count_to(w.slide, w.size, point);
    let last = point / w.slide;
    if first <= last {
        Some((first, last))
    } else {
        None
    }
}

/// A point lies in window i of a slide and a size.
#[inline]
pub(crate) fn spans(slide: u64, size: u64, i: u64, point: u64) -> bool
    ensures { result ≡ spans slide size i point }
{
    match i.checked_mul(slide) {
        Some(start) => start <= point && point - start < size,
        None => false,
    }
}

/// Window i of a slide and a size ends at a point or before it. Its end is the point after its
/// last.
#[tactic(auto, using(saber_laws::proofs::WindowLaws::counts_are_exact))]
#[inline]
pub(crate) fn ends_by(slide: u64, size: u64, i: u64, point: u64) -> bool
    requires { 1 ≤ slide }
    ensures { result ≡ nat_lt i (count_to slide size point) }
{
    match i.checked_mul(slide) {
        Some(start) => start <= point && size <= point - start,
        None => false,
    }
}
