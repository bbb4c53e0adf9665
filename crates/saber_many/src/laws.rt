// What a run of several works is to each of them.
ghost use Rattle.std.specs.Prelude.{Vec};
ghost use Rattle.std.specs.declared.alloc.Global.{Global};
ghost use Rattle.saber_many.specs.declared.member.Member.{Member};
ghost use Rattle.saber_many.specs.Laws.{EachRuns};

use crate::shareable::Shareable;
use crate::work::Many;
use saber_crew::Supply;

/// What a run of several works on one ring leaves is, for each of them, what a run of that work
/// alone leaves, whatever stopped the others.
pub fn each_runs<W: Shareable, P: Supply<Many<W>>>()
    ensures { EachRuns W.is_told W.is_alone W.upto W.is_stage P.has_given P.is_over (λ (v : Vec (Member W.Stage) Global). v.items) }
{}
