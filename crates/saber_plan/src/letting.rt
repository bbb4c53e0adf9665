// Plans and their parts are let go by calls. Where a function held one at an exit of its own, the
// steps that let each part go would stand in that function, once for each exit, and its proof would
// take them all in; and each crate that lets one go would prove anew how its parts are let go. The
// bodies call `drop`, and so the drop of the type, where a value that goes out of scope is taken
// apart in place.
use crate::{Aggregate, Expr, Plan, Pred, Unit};

impl Expr {
    /// Lets the expression go.
    pub fn let_go(self) {
        drop(self);
    }
}

impl Unit {
    /// Lets the unit go.
    pub fn let_go(self) {
        drop(self);
    }
}

impl Pred {
    /// Lets the predicate go.
    pub fn let_go(self) {
        drop(self);
    }
}

impl Aggregate {
    /// Lets the aggregate go.
    pub fn let_go(self) {
        drop(self);
    }
}

impl Plan {
    /// Lets the plan go.
    pub fn let_go(self) {
        drop(self);
    }
}
