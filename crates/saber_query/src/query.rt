// A query with the bytes of its words.
use crate::tree::Select;
use std::marker::Model;

/// A query as its text has it: the tree, and the byte where each of its words begins.
#[derive(Drop)]
pub struct Query {
    select: Select,
    starts: Vec<u64>,
}

impl Model for Query {
    ghost use Rattle.saber_query.specs.Parsed.{Parsed, IsParsed};
    ghost use Rattle.saber_query.specs.contracts.tree.Pred as pred;
    ghost use Rattle.std.specs.Coded.{codes};

    ghost Value = { Parsed };

    ghost coded = { Prim.hlevel (codes, pred.the_row.coded) };

    ghost view = { λ q. record { select = q.select; starts = q.starts.items } };

    ghost invariant = { λ q. IsParsed q.select q.starts.items };
}

impl Query {
    ghost use Rattle.std.specs.Prelude.{◌≡◌};
    ghost use Rattle.saber_query.specs.Parsed.{IsParsed};

    pub(crate) fn new(select: Select, starts: Vec<u64>) -> Query
        requires { IsParsed select starts.items }
        ensures { result ≡ record { select = select; starts = starts.items } }
    {
        Query { select, starts }
    }

    /// Lets the query go. Crates above call it, so that their proofs don't take in what is done
    /// with each part.
    pub fn let_go(self) {
        self.select.let_go();
    }

    /// The tree of its words.
    pub fn select(&self) -> &Select
        ensures value { result.now ≡ self.now.select }
        ensures parsed { IsParsed self.now.select self.now.starts }
    {
        &self.select
    }

    /// The byte where each word begins in the text that was parsed, counted from 0.
    pub fn starts(&self) -> &[u64]
        ensures { result.now ≡ self.now.starts }
    {
        &self.starts
    }
}
