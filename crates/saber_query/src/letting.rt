// Trees are let go by calls. Where a function held one at an exit of its own, the steps that let
// each of its parts go would stand in that function, once for each exit, and its proof would take
// them all in. The bodies call `drop`, and so the drop of the type, where a value that goes out of
// scope is taken apart in place.
use crate::cursor::Tokens;
use crate::token::{Name, Placed};
use crate::tree::{
    Column, Conj, Decl, Decls, Expr, Factor, Item, Items, Keys, Pred, Prod, Select, Source, Unit,
};

impl Name {
    /// Lets the name go.
    pub(crate) fn let_go(self) {
        drop(self);
    }
}

impl Column {
    /// Lets the column go.
    pub(crate) fn let_go(self) {
        drop(self);
    }
}

impl Factor {
    /// Lets the factor go.
    pub(crate) fn let_go(self) {
        drop(self);
    }
}

impl Prod {
    /// Lets the product go.
    pub(crate) fn let_go(self) {
        drop(self);
    }
}

impl Decl {
    /// Lets the declaration go.
    pub(crate) fn let_go(self) {
        drop(self);
    }
}

impl Unit {
    /// Lets the unit go.
    pub(crate) fn let_go(self) {
        drop(self);
    }
}

impl Conj {
    /// Lets the units go.
    pub(crate) fn let_go(self) {
        drop(self);
    }
}

impl Pred {
    /// Lets the predicate go.
    pub(crate) fn let_go(self) {
        drop(self);
    }
}

impl Expr {
    /// Lets the expression go.
    pub(crate) fn let_go(self) {
        drop(self);
    }
}

impl Keys {
    /// Lets the columns go.
    pub(crate) fn let_go(self) {
        drop(self);
    }
}

impl Item {
    /// Lets the item go.
    pub(crate) fn let_go(self) {
        match self {
            Item::Count => {}
            Item::Sum(inner) => inner.let_go(),
            Item::Min(inner) => inner.let_go(),
            Item::Max(inner) => inner.let_go(),
            Item::Value(inner) => inner.let_go(),
        }
    }
}

// Lets the declarations go.
pub(crate) fn let_declared_go(decl: Decl, more: Decls) {
    decl.let_go();
    drop(more);
}

// Lets the tokens that are left go.
pub(crate) fn let_tokens_go(tokens: Tokens) {
    drop(tokens);
}

// Lets tokens with their places go.
pub(crate) fn let_placed_go(placed: Vec<Placed>) {
    drop(placed);
}

// Lets what SELECT asks for go.
pub(crate) fn let_outputs_go(item: Item, more: Items) {
    item.let_go();
    drop(more);
}

// Lets the streams of FROM go.
pub(crate) fn let_streams_go(from: Source, second: Option<Source>) {
    drop(from);
    drop(second);
}

// Lets the condition of WHERE go.
pub(crate) fn let_predicate_go(predicate: Option<Pred>) {
    drop(predicate);
}

// Lets the columns of GROUP BY go.
fn let_keys_go(keys: Option<Keys>) {
    drop(keys);
}

impl Select {
    /// Lets the query go.
    pub(crate) fn let_go(self) {
        let_declared_go(self.decl, self.decls);
        let_outputs_go(self.item, self.items);
        let_streams_go(self.from, self.second);
        let_predicate_go(self.predicate);
        let_keys_go(self.group);
    }
}
