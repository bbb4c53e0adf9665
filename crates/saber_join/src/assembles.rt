// How the pairs of a join's windows are put together.
use crate::join::Join;
use crate::pairs::Pairs;
use saber_changes::Answers;
use saber_parts::Assembles;
use saber_plan::NoMemory;
use std::alloc::Global;

impl Assembles for Join<'_> {
    type Part = Pairs;

    ghost use Rattle.saber_plan.specs.Trees.{tree_of};

    ghost plan = { tree_of };

    ghost shown = { λ part. part };

    fn is_empty(&self, part: &Pairs) -> bool {
        part.is_empty()
    }

    fn merge(&self, into: &mut Pairs, from: Pairs) -> Result<(), NoMemory> {
        let _plan = &self.plan;
        into.merge(from)
    }

    fn lines(&self, i: u64, part: &Pairs, out: &mut Vec<u8>) -> Result<(), NoMemory> {
        let _plan = &self.plan;
        part.lines(i, out)
    }

    fn answers(&self, alloc: Global, part: &Pairs) -> Result<Answers, NoMemory> {
        let _plan = &self.plan;
        let answers = part.answers(alloc)?;
        Ok(answers)
    }
}
