// What a group query does with tasks and what they give.
ghost use Rattle.std.specs.Prelude.{◌≡◌};
ghost use Rattle.saber_plan.specs.declared.plans.Shape.TheVariants as shapes;
ghost use Rattle.saber_plan.specs.Trees.{tree_of};
ghost use Rattle.saber_plan.specs.Answers.{alike, by_change, way};
ghost use Rattle.saber_changes.specs.Counts.{change_of};

use crate::batch::Batch;
use crate::group::Group;
use crate::slice_pieces::SlicePiece;
use crate::slice_stores::SliceStore;
use saber_changes::Change;
use saber_fragment::{Block, Operator};
use saber_plan::{NoMemory, Plan};
use std::alloc::Global;
use std::marker::{Brand, Model};
use std::sync::ledger::Blank;

/// The operator of a checked group query without PARTITION BY, over its plan, with the change that
/// windows print if they don't print their lines. Contracts see it as the plan.
#[derive(Drop)]
pub struct GroupOperator<'a> {
    group: Group<'a>,
    change: Option<Change>,
}

impl<'a> Model for GroupOperator<'a> {
    ghost use Rattle.std.specs.Prelude.{◌≡◌};
    ghost use Rattle.saber_plan.specs.declared.plans.Plan.{Plan};
    ghost use Rattle.saber_plan.specs.declared.plans.Shape.TheVariants as shapes;
    ghost use Rattle.saber_plan.specs.Trees.{tree_of};
    ghost use Rattle.saber_plan.specs.Answers.{way};
    ghost use Rattle.saber_plan.specs.contracts.plans.Plan as e;
    ghost use Rattle.saber_changes.specs.Outputs.{way_by};

    ghost Value = { Plan };

    ghost coded = { e.the_row.coded };

    ghost view = { λ g. g.group };

    ghost invariant = { λ g. (way (tree_of g.group) ≡ way_by g.change) × ((tree_of g.group).shape ≡ shapes.Group) };
}

impl<'a> GroupOperator<'a> {
    /// The operator of this plan, which has no stream word, or RSTREAM. Takes no memory.
    pub fn new(plan: &'a Plan) -> GroupOperator<'a>
        requires group { (tree_of plan.now).shape ≡ shapes.Group }
        requires alike { way (tree_of plan.now) ≡ alike }
        ensures { result ≡ plan.now }
    {
        GroupOperator {
            group: Group::new(plan),
            change: None,
        }
    }

    /// The operator of this plan under ISTREAM or DSTREAM, of whose word the change is. Takes no
    /// memory.
    pub fn changing(plan: &'a Plan, change: Change) -> GroupOperator<'a>
        requires group { (tree_of plan.now).shape ≡ shapes.Group }
        requires changes { way (tree_of plan.now) ≡ by_change (change_of change) }
        ensures { result ≡ plan.now }
    {
        GroupOperator {
            group: Group::new(plan),
            change: Some(change),
        }
    }
}

// A task's piece is made of its own block, so nothing of the block is copied.
impl Operator for GroupOperator<'_> {
    type Draft = SlicePiece;

    type Piece = SlicePiece;

    type Store = SliceStore;

    ghost use Rattle.saber_plan.specs.Trees.{tree_of};
    ghost use Rattle.saber_group.specs.SlicePieces.{IsMade, IsOf};
    ghost use Rattle.saber_group.specs.SliceStores.{kept_in, TakenIn};

    ghost plan = { tree_of };

    ghost has_seen = { λ group draft s. IsMade (tree_of group) s draft };

    ghost contents = { kept_in };

    ghost remainder = { kept_in };

    ghost has_taken = { λ group store r. TakenIn (tree_of group) r store };

    ghost is_of = { λ group piece r x y. IsOf (tree_of group) r x y piece };

    fn start(&self, alloc: Global, own: &Block) -> Result<SlicePiece, NoMemory> {
        let batch = Batch {
            before: own.before,
            rows: &own.rows,
            ended: own.ended,
        };
        match self.change {
            None => {
                self.group
                    .piece_uncounted::<Brand>(alloc, &own.earlier, &batch, Blank::new(1))
            }
            Some(_) => self.group.all_slices(alloc, &batch),
        }
    }

    fn look_back(
        &self,
        _alloc: Global,
        _draft: &mut SlicePiece,
        _block: &Block,
    ) -> Result<(), NoMemory> {
        Ok(())
    }

    fn finish(&self, _alloc: Global, draft: SlicePiece) -> Result<SlicePiece, NoMemory> {
        Ok(draft)
    }

    fn empty_store(&self, alloc: Global) -> SliceStore {
        self.group.no_slices(alloc, self.change)
    }

    fn take_in(
        &self,
        alloc: Global,
        store: &mut SliceStore,
        piece: SlicePiece,
        out: &mut Vec<u8>,
    ) -> Result<(), NoMemory> {
        let closed = self.group.closed_below(&piece.after);
        let begun = self.group.begun_below(&piece.after);
        self.group.take_uncounted::<Brand>(
            alloc,
            &mut store.windows,
            piece,
            closed,
            &mut store.output,
            out,
            Blank::new(1),
        )?;
        store.begun = begun;
        Ok(())
    }

    // Taking a piece in has dropped what no open window has.
    fn drop_closed(&self, _store: &mut SliceStore) {}
}
