// Lines at the front of what is held.
ghost use Rattle.std.specs.Prelude.{◌≡◌, ◌<◌, ◌^◌};
ghost use Rattle.saber_rows.specs.LineFeeds.{IsFeedAt, end_of};

// Where the first line feed stands.
#[tactic(auto, using(crate::proofs::LineFeedsLemmas::feed_steps))]
pub(crate) fn line_feed_in(held: &[u8]) -> Option<usize>
    ensures { IsFeedAt result held.now }
{
    for i in 0..held.len() {
        if held[i] == b'\n' {
            return Some(i);
        }
    }
    None
}

/// Where the rest begins, behind a line of n bytes.
pub(crate) fn line_end(n: usize, whole: bool) -> usize
    requires { n < 2 ^ 63 }
    ensures { result ≡ end_of n whole }
{
    if whole { n + 1 } else { n }
}
