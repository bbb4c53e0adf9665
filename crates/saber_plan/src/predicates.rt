// Predicates: OR of AND of units, which nest by NOT and parentheses alone.
use crate::{Expr, NoMemory};
use std::alloc::Global;

/// How two values are compared.
#[derive(Clone, Copy, Debug, PartialEq, Eq)]
pub enum Cmp {
    Equal,
    Unequal,
    Less,
    AtMost,
    Greater,
    AtLeast,
}

/// A predicate's smallest part: a negation, a predicate in parentheses, or a comparison.
#[cycle(pred)]
#[derive(Drop)]
pub enum Unit {
    Not(Box<Unit>),
    Any(Pred),
    Compare(Expr, Cmp, Expr),
}

/// Units joined by AND.
#[cycle(pred)]
#[derive(Drop)]
pub struct Conj {
    units: Vec<Unit>,
}

/// A predicate: lists of units, joined by OR.
#[cycle(pred)]
#[derive(Drop)]
pub struct Pred {
    conjs: Vec<Conj>,
}

impl Unit {
    ghost use Rattle.std.specs.Prelude.{◌≡◌, IfOk};
    ghost use Rattle.saber_plan.specs.Trees.{test_of, tests_of, negated, one_of, compare};

    /// NOT before a unit.
    pub fn negated(alloc: Global, inner: Unit) -> Result<Unit, NoMemory>
        ensures { IfOk result (λ u. test_of u ≡ negated (test_of inner)) }
    {
        Ok(Unit::Not(Box::new(alloc, inner)?))
    }

    /// A predicate in parentheses.
    pub fn any(inner: Pred) -> Unit
        ensures { test_of result ≡ one_of (tests_of inner) }
    {
        Unit::Any(inner)
    }

    /// A comparison of two expressions.
    pub fn compare(left: Expr, cmp: Cmp, right: Expr) -> Unit
        ensures { test_of result ≡ compare left cmp right }
    {
        Unit::Compare(left, cmp, right)
    }
}

impl Conj {
    ghost use Rattle.std.specs.Prelude.{◌≡◌, map};
    ghost use Rattle.saber_plan.specs.Trees.{test_of, both_of, joined_tests};

    /// These units, joined by AND.
    pub fn from_vec(units: Vec<Unit>) -> Conj
        ensures { both_of result ≡ joined_tests (map test_of units.items) }
    {
        Conj { units }
    }

    /// The units in order.
    pub fn as_slice(&self) -> &[Unit]
        ensures { joined_tests (map test_of result.now) ≡ both_of self.now }
    {
        &self.units
    }
}

impl Pred {
    ghost use Rattle.std.specs.Prelude.{◌≡◌, map};
    ghost use Rattle.saber_plan.specs.Trees.{both_of, tests_of, chosen_tests};

    /// These, joined by OR.
    pub fn from_vec(conjs: Vec<Conj>) -> Pred
        ensures { tests_of result ≡ chosen_tests (map both_of conjs.items) }
    {
        Pred { conjs }
    }

    /// What OR joins, in order.
    pub fn as_slice(&self) -> &[Conj]
        ensures { chosen_tests (map both_of result.now) ≡ tests_of self.now }
    {
        &self.conjs
    }
}
