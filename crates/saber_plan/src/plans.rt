// Checked queries.
use crate::{Expr, Pred, Stream};
use std::marker::Model;

/// What kind of query it is: a selection of rows, groups over windows, or a join of two streams.
#[derive(Clone, Copy, Debug, PartialEq, Eq)]
pub enum Shape {
    Select,
    Group,
    Join,
}

/// How the values of rows become one number, and two such numbers one: their sum, the least, the
/// greatest, the one that came first.
#[derive(Clone, Copy, Debug, PartialEq, Eq)]
pub enum Fold {
    Sum,
    Min,
    Max,
    First,
}

/// What a group gathers of its rows beside their count: the values of an expression over each,
/// folded.
#[derive(Drop)]
pub struct Aggregate {
    pub fold: Fold,
    pub expr: Expr,
}

/// Which of the answers of its windows a query prints (CQL 2006: relation to stream): each
/// window's, those that the window before it didn't have, or those of the window before it that it
/// hasn't.
#[derive(Clone, Copy, Debug, PartialEq, Eq)]
pub enum Word {
    Rstream,
    Istream,
    Dstream,
}

/// What is to be computed: the shape, the streams of FROM with their windows, what groups gather,
/// the items of SELECT, the columns of GROUP BY (counted from 0), the predicate of WHERE, and,
/// where the query has them, the columns of PARTITION BY and its stream word. An item is an
/// expression over a row, over a pair of rows, or over a group, whose numbers are the columns of
/// its key, how many rows it has, and its aggregates. Contracts see it as a tree, and every plan
/// keeps what the checks of a query promise.
#[derive(Drop)]
pub struct Plan {
    shape: Shape,
    streams: Vec<Stream>,
    aggregates: Vec<Aggregate>,
    items: Vec<Expr>,
    keys: Vec<u32>,
    predicate: Option<Pred>,
    partition: Vec<u32>,
    word: Option<Word>,
}

impl Model for Plan {
    ghost use Rattle.std.specs.Coded.{codes};
    ghost use Rattle.saber_plan.specs.Trees.{Tree};
    ghost use Rattle.saber_plan.specs.TestCodes.{coded_tests};
    ghost use Rattle.saber_plan.specs.Checked.{IsChecked};

    ghost Value = { Tree };

    ghost coded = { Prim.hlevel (codes, coded_tests (Prim.hlevel codes)) };

    ghost use Rattle.saber_plan.specs.Views.{fields_tree};

    ghost view = { fields_tree };

    ghost invariant = { λ p. IsChecked (fields_tree p) };
}

impl Plan {
    ghost use Rattle.std.specs.Prelude.{◌≡◌, option_map};
    ghost use Rattle.saber_plan.specs.Trees.{tree, tree_of, tests_of};
    ghost use Rattle.saber_plan.specs.Checked.{IsChecked};

    /// The plan of these parts; without a clause PARTITION BY its columns are none. The check of a
    /// query makes it.
    pub fn new(
        shape: Shape,
        streams: Vec<Stream>,
        aggregates: Vec<Aggregate>,
        items: Vec<Expr>,
        keys: Vec<u32>,
        predicate: Option<Pred>,
        partition: Vec<u32>,
        word: Option<Word>,
    ) -> Plan
        requires checked { IsChecked (tree shape streams.items aggregates.items items.items keys.items (option_map tests_of predicate) partition.items word) }
        ensures { tree_of result ≡ tree shape streams.items aggregates.items items.items keys.items (option_map tests_of predicate) partition.items word }
    {
        Plan {
            shape,
            streams,
            aggregates,
            items,
            keys,
            predicate,
            partition,
            word,
        }
    }

    /// Its shape.
    pub fn shape(&self) -> Shape
        ensures is { result ≡ (tree_of self.now).shape }
        ensures checked { IsChecked (tree_of self.now) }
    {
        self.shape
    }

    /// The streams of FROM, one or two.
    pub fn streams(&self) -> &[Stream]
        ensures is { result.now ≡ (tree_of self.now).streams }
        ensures checked { IsChecked (tree_of self.now) }
    {
        &self.streams
    }

    /// What a group gathers of its rows, beside their count.
    pub fn aggregates(&self) -> &[Aggregate]
        ensures is { result.now ≡ (tree_of self.now).aggregates }
        ensures checked { IsChecked (tree_of self.now) }
    {
        &self.aggregates
    }

    /// The items of SELECT.
    pub fn items(&self) -> &[Expr]
        ensures is { result.now ≡ (tree_of self.now).items }
        ensures checked { IsChecked (tree_of self.now) }
    {
        &self.items
    }

    /// The columns of GROUP BY.
    pub fn keys(&self) -> &[u32]
        ensures is { result.now ≡ (tree_of self.now).keys }
        ensures checked { IsChecked (tree_of self.now) }
    {
        &self.keys
    }

    /// The predicate of WHERE.
    pub fn predicate(&self) -> Option<&Pred>
        ensures is { option_map (λ p. tests_of p.now) result ≡ (tree_of self.now).predicate }
        ensures checked { IsChecked (tree_of self.now) }
    {
        self.predicate.as_ref()
    }

    /// The columns of PARTITION BY, counted from 0; none where the query has no such clause.
    pub fn partition(&self) -> &[u32]
        ensures is { result.now ≡ (tree_of self.now).partition }
        ensures checked { IsChecked (tree_of self.now) }
    {
        &self.partition
    }

    /// The stream word, if the query has one.
    pub fn word(&self) -> Option<Word>
        ensures is { result ≡ (tree_of self.now).word }
        ensures checked { IsChecked (tree_of self.now) }
    {
        self.word
    }
}
