//! The fixed data of a ring, which a type parameter names.
ghost use Rattle.std.specs.Prelude.{◌≡◌, Option, None, IfOk};

use atomic_table::{Play, Seat, Table, TableRule};
use std::alloc::{AllocError as NoMemory, Global};
use std::marker::{Brand, PhantomData};
use std::snapshot::Snapshot;

/// The fixed data of a ring: what its work says of no task at all. The caller of `Ring::new` picks
/// them, for the contracts alone.
pub trait FixedData<T> {
    ghost told: { Option T };
}

/// A caller passes `Brand`, and its proof file says what it names.
impl<T> FixedData<T> for Brand {
    ghost told = { None };
}

pub(crate) struct NoRule;

impl<T> TableRule<u8, Option<T>, ()> for NoRule {
    ghost holds = { λ _ _. Unit {0} };

    ghost first = { λ _. None };
}

pub(crate) struct Say<J> {
    named: PhantomData<J>,
}

impl<T, J: FixedData<T>> Play<u8, Option<T>> for Say<J> {
    ghost then = { λ s m n m'. m'.0 ≡ J.told };
}

// What J names, as the view of a token. A table is told its data when it is made, and this is how a
// name becomes something that it can be told.
pub(crate) fn told_by<T, J: FixedData<T>>(
    alloc: Global,
) -> Result<Snapshot<Seat<u8, Option<T>>>, NoMemory>
    ensures { IfOk result (λ s. s.value.me.0 ≡ J.told) }
{
    let (table, mut seat) = Table::<u8, Option<T>, (), NoRule, Global>::of_words(alloc, &[0], &())?;
    table.shared.load::<Say<J>>(&mut seat, 0);
    drop(table);
    Ok(Snapshot::of(&seat))
}
