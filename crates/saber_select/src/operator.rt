// What a selection does with tasks and what they give.
use crate::select::Select;
use saber_fragment::{Block, Operator, Text};
use saber_plan::NoMemory;
use std::alloc::Global;

/// What a selection keeps from task to task: nothing, since it has no window (SABER 2016: a
/// stateless operator's fragments are whole answers).
#[derive(Clone, Copy)]
pub struct NoStore;

impl Operator for Select<'_> {
    type Draft = Text;

    type Piece = Text;

    type Store = NoStore;

    ghost use Rattle.std.specs.Prelude.{◌≡◌};
    ghost use Rattle.saber_plan.specs.Tasks.{nothing_kept};
    ghost use Rattle.saber_plan.specs.Trees.{tree_of};
    ghost use Rattle.saber_plan.specs.Shares.{shares_between};
    ghost use Rattle.saber_select.specs.Texts.{IsTextOf, text_alone};

    ghost plan = { tree_of };

    ghost has_seen = { λ select. IsTextOf (tree_of select) };

    ghost contents = { λ _. nothing_kept };

    ghost remainder = { λ _. nothing_kept };

    ghost has_taken = { λ _ _ _. Unit {0} };

    ghost is_of = { λ select piece r x y. text_alone piece ≡ shares_between (tree_of select) r x y };

    fn start(&self, alloc: Global, own: &Block) -> Result<Text, NoMemory> {
        let mut text = Vec::new(alloc);
        self.write_rows(&own.rows, &mut text)?;
        Ok(Text::from_vec(text))
    }

    fn look_back(&self, _alloc: Global, _draft: &mut Text, _block: &Block) -> Result<(), NoMemory> {
        Ok(())
    }

    fn finish(&self, _alloc: Global, draft: Text) -> Result<Text, NoMemory> {
        let _plan = &self.plan;
        Ok(draft)
    }

    fn empty_store(&self, _alloc: Global) -> NoStore {
        NoStore
    }

    fn take_in(
        &self,
        _alloc: Global,
        _store: &mut NoStore,
        piece: Text,
        out: &mut Vec<u8>,
    ) -> Result<(), NoMemory> {
        let _plan = &self.plan;
        out.extend_from_slice(piece.as_slice())?;
        Ok(())
    }

    fn drop_closed(&self, _store: &mut NoStore) {}
}
