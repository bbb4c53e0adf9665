// Points that lie in the same windows.
ghost use Rattle.std.specs.Prelude.{◌^◌, ◌<◌, ◌≤◌};
ghost use Rattle.saber_window.specs.Together.{CountsAlike};

// The first point behind one at which more of first, first + slide, first + 2 * slide .. are
// reached.
#[inline]
fn next_step(slide: u64, first: u64, far: u64) -> u64
    requires slide { 1 ≤ slide }
    requires small { far < 2 ^ 63 }
    ensures later { far < result }
    ensures alike { CountsAlike slide first far result }
{
    if far < first {
        return first;
    }
    let from = far - (far - first) % slide;
    from.saturating_add(slide)
}

/// The first point behind one that lies in other windows of this slide and size.
#[inline]
pub(crate) fn next_other(slide: u64, size: u64, point: u64) -> u64
    requires slide { 1 ≤ slide }
    requires small { point < 2 ^ 63 }
    ensures later { point < result }
    ensures first { CountsAlike slide size point result }
    ensures past { CountsAlike slide 0 point result }
{
    next_step(slide, size, point).min(next_step(slide, 0, point))
}
