// What a writer says that it has sent, or will have.
ghost use Rattle.std.specs.Prelude.{◌≡◌, Some, IsSome, []};
ghost use Rattle.crossbeam_queue.specs.Passes.{view};

use crate::PipeName;
use crate::rule::End;
use std::marker::PhantomData;

/// Tells all that was written to a sink, and how the bytes end. It is kept by who wants to know at
/// the end that what was taken of the pipe is a front of that, or all of it.
#[derive(Drop)]
pub struct Receipt<P: PipeName> {
    pub(crate) end: End,
    named: PhantomData<P>,
    pub ghost of_pipe: { P.id ≡ Some end.table_id },
    pub ghost idle: { end.me.1 ≡ [] },
    pub ghost told: { IsSome (view end).whole },
}

impl<P: PipeName> Receipt<P> {
    ghost use Rattle.std.specs.Prelude.{◌≡◌, Some, IsSome, []};
    ghost use Rattle.crossbeam_queue.specs.Passes.{view};

    pub(crate) fn new(end: End) -> Receipt<P>
        requires of_pipe { P.id ≡ Some end.table_id }
        requires idle { end.me.1 ≡ [] }
        requires told { IsSome (view end).whole }
        ensures { result.end ≡ end }
    {
        Receipt {
            end,
            named: PhantomData,
        }
    }
}
