// A walk over the words of a query, with the first fault so far.
ghost use Rattle.std.specs.Prelude.{◌≡◌, ◌+◌, ◌≤◌, ◌^◌, [], ◌∷◌};
ghost use Rattle.saber_query.specs.Trees.{query_of};
ghost use Rattle.saber_check.specs.Least.{at, earlier, least, row, each, is_settled, Visits, Room};
ghost use Rattle.saber_check.specs.Widths.{column_width, factor_width, prod_width, term_width, expr_width, span, second_width};
ghost use Rattle.saber_check.specs.Walked.{prods, column_faults, factor_faults, prod_faults, expr_faults};

use crate::bounds::{column_words, product_passes, sum_passes};
use crate::fault::{Fault, earlier};
use crate::names::{is_ambiguous, is_unknown_column, is_unknown_stream};
use saber_query::{Cause, Column, Expr, Factor, Prod, Select, Term};

/// The index of the next word, and the first fault so far.
#[derive(Clone, Copy)]
pub(crate) struct Walk {
    pub index: u64,
    pub least: Option<Fault>,
}

impl Walk {
    #[tactic(auto, using(crate::proofs::Lemmas::walking))]
    pub(crate) fn skip(&mut self, words: u64)
        requires { Room self.old words }
        ensures { Visits self.old self.new words [] }
    {
        self.index += words;
    }

    #[tactic(auto, using(crate::proofs::Lemmas::walking), unfolding(crate::specs::Least::least, crate::specs::Least::sooner))]
    pub(crate) fn report(&mut self, fails: bool, index: u64, cause: Cause)
        ensures { Visits self.old self.new 0 (row fails index cause) }
    {
        if fails {
            self.least = earlier(self.least, Some(Fault { index, cause }));
        }
    }

    /// Whether a fault stands before the next word: then none from here on can be the first.
    pub(crate) fn is_settled(&self) -> bool
        ensures { result ≡ is_settled self.now }
    {
        match self.least {
            Some(fault) => fault.index < self.index,
            None => false,
        }
    }

    pub(crate) fn column(&mut self, query: &Select, column: &Column)
        requires { Room self.old (column_width column.now) }
        ensures { Visits self.old self.new (column_width column.now)
            (column_faults (query_of query.now) self.old.index column.now) }
    {
        if self.is_settled() {
            self.skip(column_words(column));
        } else {
            self.report_column(query, column);
        }
    }

    #[tactic(auto, using(crate::proofs::Lemmas::walking), unfolding(crate::specs::Walked::column_faults))]
    fn report_column(&mut self, query: &Select, column: &Column)
        requires { Room self.old (column_width column.now) }
        ensures { Visits self.old self.new (column_width column.now)
            (column_faults (query_of query.now) self.old.index column.now) }
    {
        let start = self.index;
        let behind = match &column.second {
            Some(_) => 2,
            None => 0,
        };
        self.report(
            is_unknown_stream(query, column),
            start,
            Cause::UnknownStream,
        );
        self.report(
            is_unknown_column(query, column),
            start + behind,
            Cause::UnknownColumn,
        );
        self.report(is_ambiguous(query, column), start, Cause::Ambiguous);
        self.skip(1 + behind);
    }

    #[tactic(auto, using(crate::proofs::Lemmas::walking), unfolding(crate::specs::Walked::factor_faults))]
    fn factor(&mut self, query: &Select, factor: &Factor)
        requires { Room self.old (factor_width factor.now) }
        ensures { Visits self.old self.new (factor_width factor.now)
            (factor_faults (query_of query.now) self.old.index factor.now) }
    {
        match factor {
            Factor::Column(column) => self.column(query, column),
            Factor::Number(number) => {
                let start = self.index;
                self.report(
                    *number == 9_223_372_036_854_775_808,
                    start,
                    Cause::NumberRange,
                );
                self.skip(1);
            }
            Factor::Negative(_) => self.skip(2),
        }
    }

    // Factors that each have a `*` before.
    fn factors(&mut self, query: &Select, factors: &[Factor])
        requires { Room self.old (span factor_width factors.now) }
        ensures { Visits self.old self.new (span factor_width factors.now)
            (each factor_width (λ k. factor_faults (query_of query.now)) 1 (self.old.index + 1)
            factors.now) }
    {
        for factor in factors {
            self.skip(1);
            self.factor(query, factor);
        }
    }

    #[tactic(auto, using(crate::proofs::Lemmas::walking))]
    fn report_at(&mut self, place: Option<u64>, cause: Cause)
        ensures { Visits self.old self.new 0 (at place cause) }
    {
        match place {
            Some(index) => self.report(true, index, cause),
            None => {}
        }
    }

    #[tactic(auto, using(crate::proofs::Lemmas::walking), unfolding(crate::specs::Walked::prod_faults, crate::specs::Least::each))]
    fn prod(&mut self, query: &Select, prod: &Prod)
        requires { Room self.old (prod_width prod.now) }
        ensures { Visits self.old self.new (prod_width prod.now)
            (prod_faults (query_of query.now) self.old.index prod.now) }
    {
        let start = self.index;
        self.factor(query, &prod.first);
        self.factors(query, prod.more.as_slice());
        self.report_at(product_passes(start, prod), Cause::ExprTooWide);
    }

    // Products that each have a sign before.
    fn terms(&mut self, query: &Select, terms: &[Term])
        requires { Room self.old (span term_width terms.now) }
        ensures { Visits self.old self.new (span term_width terms.now)
            (each prod_width (λ k. prod_faults (query_of query.now)) 1 (self.old.index + 1)
            (prods terms.now)) }
    {
        for term in terms {
            self.skip(1);
            self.prod(query, &term.prod);
        }
    }

    #[tactic(auto, using(crate::proofs::Lemmas::walking), unfolding(crate::specs::Walked::expr_faults, crate::specs::Least::each))]
    pub(crate) fn expr(&mut self, query: &Select, expr: &Expr)
        requires { Room self.old (expr_width expr.now) }
        ensures { Visits self.old self.new (expr_width expr.now)
            (expr_faults (query_of query.now) self.old.index expr.now) }
    {
        let start = self.index;
        self.prod(query, &expr.first);
        self.terms(query, expr.more.as_slice());
        self.report_at(sum_passes(start, expr), Cause::ExprTooWide);
    }
}
