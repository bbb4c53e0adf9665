// What a window is to a task.
use saber_plan::Kind;

/// How many windows are begun before a task, and closed after it (`Windows::bounds`).
#[derive(Clone, Copy)]
pub struct Bounds {
    /// Those that are begun before the task.
    pub begun_before: u64,
    /// Those that are closed after it.
    pub closed_after: u64,
}

impl Bounds {
    ghost use Rattle.std.specs.Prelude.{◌≡◌};
    ghost use Rattle.saber_window.specs.Kinds.{kind_in};

    /// What part of a window lies in the task, where that isn't closed before it and is begun after
    /// it (SABER 2016: the kinds of fragments).
    pub fn kind(&self, window: u64) -> Kind
        ensures { result ≡ kind_in self.now window }
    {
        let is_begun = window < self.begun_before;
        if window < self.closed_after {
            if is_begun {
                Kind::Closing
            } else {
                Kind::Complete
            }
        } else if is_begun {
            Kind::Pending
        } else {
            Kind::Opening
        }
    }
}
