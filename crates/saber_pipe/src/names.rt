// Which pipe something is of, as its type says it.
ghost use Rattle.std.specs.Prelude.{Option, None};
ghost use Rattle.atomic_table.specs.Seated.{TableId};

use std::marker::Brand;

/// Names a pipe in the types of its ends. So they are known to be of one pipe even behind a call
/// that knows them as some sink and some feed alone. The caller of a function over a name passes
/// `Brand`, and picks the pipe, for the contracts alone.
pub trait PipeName {
    ghost id: { Option TableId };
}

impl PipeName for Brand {
    ghost id = { None };
}
