// How many windows there are up to some point.
ghost use Rattle.std.specs.Prelude.{◌≡◌, ◌+◌, ◌^◌, ◌<◌, ◌≤◌};
ghost use Rattle.saber_plan.specs.Windows.{count_to, count_reached};

/// How many of first, first + slide, first + 2 * slide .. are at most this far.
#[inline]
pub(crate) fn count_to(slide: u64, first: u64, far: u64) -> u64
    requires slide { 1 ≤ slide }
    requires room { far + 1 < first + 2 ^ 64 }
    ensures { result ≡ count_to slide first far }
{
    if first <= far {
        (far - first) / slide + 1
    } else {
        0
    }
}

/// How many of them the last timestamp has reached: none before the first row.
#[inline]
pub(crate) fn count_reached(slide: u64, first: u64, last: Option<i64>) -> u64
    requires { 1 ≤ slide }
    ensures { result ≡ count_reached slide first last }
{
    match last {
        Some(time) => count_to(slide, first, time.unsigned_abs()),
        None => 0,
    }
}
