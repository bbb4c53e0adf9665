// What a work is that can share its ring.
ghost use Rattle.std.specs.Prelude.{◌≡◌, ◌≤◌, ℕ};
ghost use Rattle.saber_assembly.specs.declared.work.RunData.{RunData};
ghost use Rattle.saber_assembly.specs.Works.{IsBlockOf};
ghost use Rattle.saber_many.specs.Queries.{IsAlone, own_needed, first_fronts};

use saber_assembly::SaberWork;
use saber_core::Work;
use saber_fragment::{Block, Operator};
use saber_io::Sink;

/// A work that can share a ring with others of its kind, since no task needs rows but its own.
pub trait Shareable: Work {
    // By these data no task needs rows but its own.
    ghost is_alone: { Self.Data → Type 0 };

    /// The number of the task that has these rows.
    fn number(rows: &Self::Rows) -> u64
        ensures { (told : Self.Data) (t : ℕ) → Self.is_rows told t rows.now → result ≡ t };

    // The first task that a task needs is the task itself then.
    ghost needs_own: { (told : Self.Data) (t : ℕ) → is_alone told → Self.first (Self.upto told t) t ≡ t };

    // The first tasks of the first tasks are those of all, whatever the data are.
    ghost fronts: { (told : Self.Data) (j k : ℕ) → k ≤ j → Self.upto (Self.upto told j) k ≡ Self.upto told k };
}

impl<O: Operator, K: Sink> Shareable for SaberWork<O, K> {
    ghost is_alone = { IsAlone O.plan };

    ghost needs_own = { λ told t alone. own_needed O.plan told t alone };

    ghost fronts = { λ told j k le. first_fronts told j k le };

    fn number(rows: &Block) -> u64
        ensures { (told : RunData O) (t : ℕ) → IsBlockOf O.plan told t rows.now → result ≡ t }
    {
        rows.number
    }
}
