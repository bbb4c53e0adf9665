// The number of a window, as each line of its groups begins with it.
ghost use Rattle.std.specs.Prelude.{◌≡◌};
ghost use Rattle.saber_partial.specs.Printing.{IsHeading};

use saber_digits::put_number;

/// The number of a window, and its text, which is made once for all lines of a call.
#[derive(Clone, Copy)]
pub(crate) struct Heading {
    pub(crate) window: u64,
    pub(crate) text: [u8; 128],
    pub(crate) count: usize,
}

impl Heading {
    /// The heading of a window.
    #[inline]
    pub(crate) fn of_window(window: u64) -> Heading
        ensures heading { IsHeading result }
        ensures window { result.window ≡ window }
    {
        let mut text = [0; 128];
        let count = put_number(&mut text, 0, i128::from(window));
        Heading {
            window,
            text,
            count,
        }
    }
}
