// A walk over a whole query.
ghost use Rattle.std.specs.Prelude.{◌≡◌, ◌+◌, ◌≤◌, ◌^◌, option_map};
ghost use Rattle.saber_check.specs.Least.{Visits, Room, least};
ghost use Rattle.saber_query.specs.Trees.{tests_of, query_of};
ghost use Rattle.saber_check.specs.Widths.{second_source_width, where_width, opened_width, group_width};
ghost use Rattle.saber_check.specs.Walked.{second_part_faults, where_faults, group_part_faults, faults, width};

use crate::fault::Fault;
use crate::walk::Walk;
use saber_query::Select;

impl Walk {
    #[tactic(auto, using(crate::proofs::Lemmas::walking))]
    fn second_part(&mut self, query: &Select)
        requires { Room self.old (second_source_width query.now.second) }
        ensures { Visits self.old self.new (second_source_width query.now.second)
            (second_part_faults (query_of query.now) self.old.index) }
    {
        if let Some(source) = &query.second {
            self.skip(1);
            self.second(query, source);
        }
    }

    #[tactic(auto, using(crate::proofs::Lemmas::walking))]
    fn where_part(&mut self, query: &Select)
        requires { Room self.old (where_width (option_map tests_of query.now.predicate)) }
        ensures { Visits self.old self.new (where_width (option_map tests_of query.now.predicate))
            (where_faults (query_of query.now) self.old.index) }
    {
        if let Some(pred) = &query.predicate {
            self.skip(1);
            self.pred(query, pred);
        }
    }

    #[tactic(auto, using(crate::proofs::Lemmas::walking))]
    fn group_part(&mut self, query: &Select)
        requires { Room self.old (group_width query.now.group) }
        ensures { Visits self.old self.new (group_width query.now.group)
            (group_part_faults (query_of query.now) self.old.index) }
    {
        if let Some(group) = &query.group {
            self.group(query, group);
        }
    }
}

/// How many words stand before SELECT and behind the declarations.
fn opened_words(query: &Select) -> u64
    ensures { result ≡ opened_width query.now.word }
{
    if query.word.is_some() { 2 } else { 0 }
}

/// The first fault of a query, with the index of its word.
#[tactic(auto, using(crate::proofs::Lemmas::walking), unfolding(crate::specs::Walked::faults))]
pub(crate) fn first_fault(query: &Select) -> Option<Fault>
    requires { width (query_of query.now) ≤ 2 ^ 60 }
    ensures { result ≡ least (faults (query_of query.now)) }
{
    let mut walk = Walk {
        index: 0,
        least: None,
    };
    walk.decls(query);
    walk.skip(2 + opened_words(query));
    walk.items(query);
    walk.skip(1);
    walk.source(query, &query.from);
    walk.second_part(query);
    walk.where_part(query);
    walk.group_part(query);
    walk.least
}
