// The operator of joins.
ghost use Rattle.std.specs.Prelude.{◌≡◌};
ghost use Rattle.saber_plan.specs.declared.plans.Shape.TheVariants as shapes;
ghost use Rattle.saber_plan.specs.Trees.{tree_of};
ghost use Rattle.saber_plan.specs.Answers.{alike, by_change, way};
ghost use Rattle.saber_changes.specs.Counts.{change_of};

use crate::draft::JoinDraft;
use crate::join::Join;
use crate::pairs::Pairs;
use saber_changes::Change;
use saber_fragment::{Block, Operator, Piece};
use saber_parts::PartStore;
use saber_plan::{NoMemory, Plan};
use std::alloc::Global;
use std::marker::Model;

/// The operator of a checked join, with the change that windows print (CQL 2006: ISTREAM and
/// DSTREAM) if they don't print their answers as they are. Contracts see it as its plan.
#[derive(Drop)]
pub struct JoinOperator<'a> {
    join: Join<'a>,
    change: Option<Change>,
}

impl<'a> Model for JoinOperator<'a> {
    ghost use Rattle.std.specs.Prelude.{◌≡◌};
    ghost use Rattle.saber_plan.specs.declared.plans.Plan.{Plan};
    ghost use Rattle.saber_plan.specs.Trees.{tree_of};
    ghost use Rattle.saber_plan.specs.Answers.{way};
    ghost use Rattle.saber_plan.specs.contracts.plans.Plan as e;
    ghost use Rattle.saber_changes.specs.Outputs.{way_by};

    ghost Value = { Plan };

    ghost coded = { e.the_row.coded };

    ghost view = { λ o. o.join };

    ghost invariant = { λ o. way (tree_of o.join) ≡ way_by o.change };
}

impl<'a> JoinOperator<'a> {
    /// The operator of this plan, without a stream word or with RSTREAM. Takes no memory.
    pub fn new(plan: &'a Plan) -> JoinOperator<'a>
        requires join { (tree_of plan.now).shape ≡ shapes.Join }
        requires alike { way (tree_of plan.now) ≡ alike }
        ensures { result ≡ plan.now }
    {
        JoinOperator {
            join: Join::new(plan),
            change: None,
        }
    }

    /// The operator of this plan, whose stream word asks for this change. Takes no memory.
    pub fn changing(plan: &'a Plan, change: Change) -> JoinOperator<'a>
        requires join { (tree_of plan.now).shape ≡ shapes.Join }
        requires changes { way (tree_of plan.now) ≡ by_change (change_of change) }
        ensures { result ≡ plan.now }
    {
        JoinOperator {
            join: Join::new(plan),
            change: Some(change),
        }
    }
}

impl Operator for JoinOperator<'_> {
    type Draft = JoinDraft;

    type Piece = Piece<Pairs>;

    type Store = PartStore<Pairs>;

    ghost use Rattle.saber_plan.specs.Trees.{tree_of};
    ghost use Rattle.saber_fragment.specs.Shown.{shares_of};
    ghost use Rattle.saber_parts.specs.Stored.{parts_by, parts_from};
    ghost use Rattle.saber_parts.specs.Taking.{kept_by, HasTaken, IsGiven};
    ghost use Rattle.saber_join.specs.Sights.{HasSeen};

    ghost plan = { tree_of };

    ghost has_seen = { λ o draft s. HasSeen (tree_of o) draft s };

    ghost contents = { λ s. kept_by (parts_by (λ part. part) s.parts.entries) s.output };

    ghost remainder = { λ s. kept_by (parts_from (λ part. part) s.closed_below s.parts.entries) s.output };

    ghost has_taken = { λ o s r. HasTaken (tree_of o) s.output r };

    ghost is_of = { λ o piece r x y. IsGiven (tree_of o) (shares_of (λ part. part) piece) r x y };

    fn start(&self, alloc: Global, own: &Block) -> Result<JoinDraft, NoMemory> {
        JoinDraft::new(alloc, own)
    }

    fn look_back(
        &self,
        alloc: Global,
        draft: &mut JoinDraft,
        block: &Block,
    ) -> Result<(), NoMemory> {
        self.join.look_back(alloc, draft, block)
    }

    fn finish(&self, alloc: Global, draft: JoinDraft) -> Result<Piece<Pairs>, NoMemory> {
        let piece = self.join.given_of(alloc, &draft, self.change);
        draft.let_go();
        piece
    }

    fn empty_store(&self, alloc: Global) -> PartStore<Pairs> {
        self.join.no_parts(alloc, self.change)
    }

    fn take_in(
        &self,
        alloc: Global,
        store: &mut PartStore<Pairs>,
        piece: Piece<Pairs>,
        out: &mut Vec<u8>,
    ) -> Result<(), NoMemory> {
        store.take_in(alloc, &self.join, piece, out)?;
        Ok(())
    }

    fn drop_closed(&self, store: &mut PartStore<Pairs>) {
        store.drop_closed();
    }
}
