//! Where the tasks of a work come from.
ghost use Rattle.std.specs.Prelude.{◌≡◌, ◌<◌, ℕ};
ghost use Rattle.saber_crew.specs.Supplies.{GivesOn};

use saber_core::Work;

/// What a supply has for the next task.
#[derive(Drop)]
pub enum Supplied<R> {
    /// Its rows.
    Rows(R),
    /// None yet. The tasks that were given stay, and more may come.
    Dry,
    /// None is left, or none can be given any more, for whatever reason.
    Over,
}

/// Where the rows of a work's tasks come from, in the order of the tasks.
pub trait Supply<W: Work> {
    /// What they are made from, lent for each call.
    type From;

    // So many tasks were given, with these data.
    ghost has_given: { Self → Self.From → W.Data → ℕ → Type 0 };

    // None is left, or none can be given any more.
    ghost is_over: { Self → Type 0 };

    /// The rows of the next task, if they are there.
    fn next(&mut self, from: &mut Self::From) -> Supplied<W::Rows>
        requires { (told : W.Data) × (d : ℕ) × has_given self.old from.old told d }
        ensures gives { GivesOn W.is_told W.filled W.is_rows (has_given self.old from.old) (has_given self.new from.new) result }
        ensures over { result ≡ Supplied.Over → is_over self.new };
}
