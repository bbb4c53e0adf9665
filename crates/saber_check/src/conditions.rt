// A walk over a predicate.
ghost use Rattle.std.specs.Prelude.{◌≡◌, ◌+◌, ◌≤◌, ◌^◌};
ghost use Rattle.saber_check.specs.Least.{Visits, Room};
ghost use Rattle.saber_query.specs.Trees.{test_of, both_of, tests_of, query_of};
ghost use Rattle.saber_check.specs.Widths.{test_width, both_width, tests_width, expr_width};
ghost use Rattle.saber_check.specs.Walked.{test_faults, both_faults, tests_faults, sides_faults};

use crate::walk::Walk;
use saber_query::{Conj, Expr, Pred, Select, Unit};

impl Walk {
    // The two sides of a comparison.
    #[tactic(auto, using(crate::proofs::Lemmas::walking))]
    fn compared(&mut self, query: &Select, left: &Expr, right: &Expr)
        requires { Room self.old (expr_width left.now + 1 + expr_width right.now) }
        ensures { Visits self.old self.new (expr_width left.now + 1 + expr_width right.now)
            (sides_faults (query_of query.now) self.old.index left.now right.now) }
    {
        self.expr(query, left);
        self.skip(1);
        self.expr(query, right);
    }

    #[cycle(pred)]
    #[tactic(auto, using(crate::proofs::Lemmas::walking), unfolding(crate::specs::Walked::test_faults))]
    fn unit(&mut self, query: &Select, unit: &Unit)
        requires { Room self.old (test_width (test_of unit.now)) }
        ensures { Visits self.old self.new (test_width (test_of unit.now))
            (test_faults (query_of query.now) self.old.index (test_of unit.now)) }
    {
        match unit {
            Unit::Not(inner) => {
                self.skip(1);
                self.unit(query, inner);
            }
            Unit::Enclosed(inner) => {
                self.skip(1);
                self.pred(query, inner);
                self.skip(1);
            }
            Unit::Compare(left, _, right) => self.compared(query, left, right),
        }
    }

    #[cycle(pred)]
    fn conj(&mut self, query: &Select, conj: &Conj)
        requires { Room self.old (both_width (both_of conj.now)) }
        ensures { Visits self.old self.new (both_width (both_of conj.now))
            (both_faults (query_of query.now) self.old.index (both_of conj.now)) }
    {
        self.unit(query, &conj.first);
        for unit in &conj.more {
            self.skip(1);
            self.unit(query, unit);
        }
    }

    #[cycle(pred)]
    pub(crate) fn pred(&mut self, query: &Select, pred: &Pred)
        requires { Room self.old (tests_width (tests_of pred.now)) }
        ensures { Visits self.old self.new (tests_width (tests_of pred.now))
            (tests_faults (query_of query.now) self.old.index (tests_of pred.now)) }
    {
        self.conj(query, &pred.first);
        for conj in &pred.more {
            self.skip(1);
            self.conj(query, conj);
        }
    }
}
