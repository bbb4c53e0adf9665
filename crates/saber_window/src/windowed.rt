// How the windows of a plan are kept.
ghost use Rattle.std.specs.Prelude.{◌≡◌};
ghost use Rattle.saber_plan.specs.Windows.{frame_of};
ghost use Rattle.saber_window.specs.Frames.{frame_with};

use saber_plan::{Measure, Stream};

/// Which streams have windows: none, the only one, or both of a join.
#[derive(Clone, Copy)]
pub(crate) enum Windowed {
    Neither,
    One {
        measure: Measure,
        slide: u64,
        size: u64,
    },
    Both {
        measure: Measure,
        slide: u64,
        left: u64,
        right: u64,
    },
}

/// The windows of these streams. Those of a join have one measure and one slide.
pub(crate) fn windowed_of(streams: &[Stream]) -> Windowed
    ensures { frame_with result ≡ frame_of streams.now }
{
    match streams {
        [
            Stream {
                window: Some(window),
                ..
            },
        ] => Windowed::One {
            measure: window.measure,
            slide: window.slide,
            size: window.size,
        },
        [
            Stream {
                window: Some(left),
                ..
            },
            Stream {
                window: Some(right),
                ..
            },
            ..
        ] => Windowed::Both {
            measure: left.measure,
            slide: left.slide,
            left: left.size,
            right: right.size,
        },
        _ => Windowed::Neither,
    }
}
