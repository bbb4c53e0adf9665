// Queries as trees, with all that their words show: parentheses, qualified names and the last
// semicolon too. Lists that hold at least one part are a first part and more, so that no empty one
// can be built.
use crate::token::Name;
use std::marker::Model;

/// A column: `column`, or `stream.column`.
#[derive(Drop)]
pub struct Column {
    /// The column, or the stream where a second name follows.
    pub first: Name,
    pub second: Option<Name>,
}

/// A column, a number, or a number with a minus sign of its own. Numbers are at most 2^63.
#[derive(Drop)]
pub enum Factor {
    Column(Column),
    Number(u64),
    Negative(u64),
}

/// Factors of a product behind its first.
#[derive(Drop)]
pub struct Factors {
    items: Vec<Factor>,
}

impl Model for Factors {
    ghost use Rattle.std.specs.Prelude.{List};
    ghost use Rattle.saber_query.specs.declared.tree.Factor.{Factor};

    ghost Value = { List Factor };

    ghost view = { λ v. v.items.items };
}

impl Factors {
    ghost use Rattle.std.specs.Prelude.{◌≡◌};

    pub(crate) fn from_vec(items: Vec<Factor>) -> Factors
        ensures { result ≡ items.items }
    {
        Factors { items }
    }

    /// In the order of the text.
    pub fn as_slice(&self) -> &[Factor]
        ensures { result.now ≡ self.now }
    {
        &self.items
    }
}

/// Factors with `*` between.
#[derive(Drop)]
pub struct Prod {
    pub first: Factor,
    pub more: Factors,
}

/// How a product is joined to those before it.
#[derive(Clone, Copy)]
pub enum Adding {
    Plus,
    Minus,
}

/// A product behind the first, with the sign before it.
#[derive(Drop)]
pub struct Term {
    pub adding: Adding,
    pub prod: Prod,
}

/// Terms of an expression behind its first.
#[derive(Drop)]
pub struct Terms {
    items: Vec<Term>,
}

impl Model for Terms {
    ghost use Rattle.std.specs.Prelude.{List};
    ghost use Rattle.saber_query.specs.declared.tree.Term.{Term};

    ghost Value = { List Term };

    ghost view = { λ v. v.items.items };
}

impl Terms {
    ghost use Rattle.std.specs.Prelude.{◌≡◌};

    pub(crate) fn from_vec(items: Vec<Term>) -> Terms
        ensures { result ≡ items.items }
    {
        Terms { items }
    }

    /// In the order of the text.
    pub fn as_slice(&self) -> &[Term]
        ensures { result.now ≡ self.now }
    {
        &self.items
    }
}

/// Products with `+` and `-` between, from left to right.
#[derive(Drop)]
pub struct Expr {
    pub first: Prod,
    pub more: Terms,
}

/// What SELECT asks for: the count of rows, an aggregate of an expression, or an expression.
#[derive(Drop)]
pub enum Item {
    Count,
    Sum(Expr),
    Min(Expr),
    Max(Expr),
    Value(Expr),
}

/// What a window is measured in: rows, ticks of the timestamp, or rows that are alike in some
/// columns.
#[derive(Drop)]
pub enum Measure {
    Rows,
    Range,
    Partition(Keys),
}

/// `[ROWS size SLIDE slide]`, `[RANGE size SLIDE slide]` or `[PARTITION BY columns ROWS size SLIDE
/// slide]`, in any range that a number has.
#[derive(Drop)]
pub struct Window {
    pub measure: Measure,
    pub size: u64,
    pub slide: u64,
}

/// A stream that FROM names.
#[derive(Drop)]
pub struct Source {
    pub name: Name,
    pub window: Option<Window>,
}

/// A comparison of two expressions.
#[derive(Clone, Copy)]
pub enum Cmp {
    Equal,
    Unequal,
    Less,
    AtMost,
    Greater,
    AtLeast,
}

/// A part of a predicate that no AND or OR divides. NOT binds before AND, AND before OR.
#[cycle(pred)]
#[derive(Drop)]
pub enum Unit {
    Not(Box<Unit>),
    Enclosed(Box<Pred>),
    Compare(Expr, Cmp, Expr),
}

/// Units joined by AND.
#[cycle(pred)]
#[derive(Drop)]
pub struct Conj {
    pub first: Unit,
    pub more: Vec<Unit>,
}

/// A predicate: these joined by OR.
#[cycle(pred)]
#[derive(Drop)]
pub struct Pred {
    pub first: Conj,
    pub more: Vec<Conj>,
}

/// Columns behind the first.
#[derive(Drop)]
pub struct Columns {
    items: Vec<Column>,
}

impl Model for Columns {
    ghost use Rattle.std.specs.Prelude.{List};
    ghost use Rattle.saber_query.specs.declared.tree.Column.{Column};

    ghost Value = { List Column };

    ghost view = { λ v. v.items.items };
}

impl Columns {
    ghost use Rattle.std.specs.Prelude.{◌≡◌};

    pub(crate) fn from_vec(items: Vec<Column>) -> Columns
        ensures { result ≡ items.items }
    {
        Columns { items }
    }

    /// In the order of the text.
    pub fn as_slice(&self) -> &[Column]
        ensures { result.now ≡ self.now }
    {
        &self.items
    }
}

/// The columns of GROUP BY or PARTITION BY.
#[derive(Drop)]
pub struct Keys {
    pub first: Column,
    pub more: Columns,
}

/// Names of columns behind the first.
#[derive(Drop)]
pub struct Names {
    items: Vec<Name>,
}

impl Model for Names {
    ghost use Rattle.std.specs.Prelude.{List, ℕ};

    ghost Value = { List (List ℕ) };

    ghost view = { λ v. v.items.items };
}

impl Names {
    ghost use Rattle.std.specs.Prelude.{◌≡◌};

    pub(crate) fn from_vec(items: Vec<Name>) -> Names
        ensures { result ≡ items.items }
    {
        Names { items }
    }

    /// In the order of the text.
    pub fn as_slice(&self) -> &[Name]
        ensures { result.now ≡ self.now }
    {
        &self.items
    }
}

/// A stream with its columns.
#[derive(Drop)]
pub struct Decl {
    pub name: Name,
    pub first: Name,
    pub more: Names,
}

/// Items behind the first.
#[derive(Drop)]
pub struct Items {
    items: Vec<Item>,
}

impl Model for Items {
    ghost use Rattle.std.specs.Prelude.{List};
    ghost use Rattle.saber_query.specs.declared.tree.Item.{Item};

    ghost Value = { List Item };

    ghost view = { λ v. v.items.items };
}

impl Items {
    ghost use Rattle.std.specs.Prelude.{◌≡◌};

    pub(crate) fn from_vec(items: Vec<Item>) -> Items
        ensures { result ≡ items.items }
    {
        Items { items }
    }

    /// In the order of the text.
    pub fn as_slice(&self) -> &[Item]
        ensures { result.now ≡ self.now }
    {
        &self.items
    }
}

/// Declarations behind the first.
#[derive(Drop)]
pub struct Decls {
    items: Vec<Decl>,
}

impl Model for Decls {
    ghost use Rattle.std.specs.Prelude.{List};
    ghost use Rattle.saber_query.specs.declared.tree.Decl.{Decl};

    ghost Value = { List Decl };

    ghost view = { λ v. v.items.items };
}

impl Decls {
    ghost use Rattle.std.specs.Prelude.{◌≡◌};

    pub(crate) fn from_vec(items: Vec<Decl>) -> Decls
        ensures { result ≡ items.items }
    {
        Decls { items }
    }

    /// In the order of the text.
    pub fn as_slice(&self) -> &[Decl]
        ensures { result.now ≡ self.now }
    {
        &self.items
    }
}

/// The word before a SELECT in parentheses, which makes a stream of the answers of its windows: all
/// of each window, those that the window before it lacks, or those of the window before it that it
/// lacks.
#[derive(Clone, Copy)]
pub enum StreamWord {
    Rstream,
    Istream,
    Dstream,
}

/// A whole query, its declarations included. `closed` says whether a semicolon ends it.
#[derive(Drop)]
pub struct Select {
    pub decl: Decl,
    pub decls: Decls,
    pub word: Option<StreamWord>,
    pub item: Item,
    pub items: Items,
    pub from: Source,
    pub second: Option<Source>,
    pub predicate: Option<Pred>,
    pub group: Option<Keys>,
    pub closed: bool,
}
