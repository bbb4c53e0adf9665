// How the rows of a selection's windows are put together.
use crate::picked::Picked;
use crate::windowed::WindowedSelect;
use saber_changes::Answers;
use saber_parts::Assembles;
use saber_plan::NoMemory;
use std::alloc::Global;

impl Assembles for WindowedSelect<'_> {
    type Part = Picked;

    ghost use Rattle.saber_plan.specs.Trees.{tree_of};
    ghost use Rattle.saber_select.specs.Found.{part_of};

    ghost plan = { tree_of };

    ghost shown = { part_of };

    #[tactic(auto, using(crate::proofs::Filled::no_rows, crate::proofs::Filled::some_rows))]
    fn is_empty(&self, part: &Picked) -> bool {
        part.is_empty()
    }

    fn merge(&self, into: &mut Picked, from: Picked) -> Result<(), NoMemory> {
        let _plan = &self.plan;
        into.rises();
        from.rises();
        into.merge(from)?;
        Ok(())
    }

    fn lines(&self, i: u64, part: &Picked, out: &mut Vec<u8>) -> Result<(), NoMemory> {
        let _plan = &self.plan;
        part.rises();
        part.lines(i, out)
    }

    fn answers(&self, alloc: Global, part: &Picked) -> Result<Answers, NoMemory> {
        let _plan = &self.plan;
        part.rises();
        let answers = part.answers(alloc)?;
        Ok(answers)
    }
}
