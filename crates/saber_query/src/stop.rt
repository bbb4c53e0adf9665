// Why the parser stops.
ghost use Rattle.std.specs.Prelude.{◌≡◌};
ghost use Rattle.saber_query.specs.declared.stop.Stop.TheVariants.{NoMemory};

use std::alloc::{AllocError, AllocFailed};

/// Why a tree can't be read: want of memory, or the token that is left first.
#[derive(Clone, Copy)]
pub(crate) enum Stop {
    NoMemory,
    Syntax,
    Depth,
}

impl From<AllocError> for Stop {
    ghost from_gives = { λ _ e. e ≡ NoMemory };

    fn from(_: AllocError) -> Stop {
        Stop::NoMemory
    }
}

impl<T: Drop> From<AllocFailed<T>> for Stop {
    ghost from_gives = { λ _ e. e ≡ NoMemory };

    fn from(_: AllocFailed<T>) -> Stop {
        Stop::NoMemory
    }
}
