// The answers of a window, from its pairs.
ghost use Rattle.std.specs.Prelude.{◌≡◌, IfOk};
ghost use Rattle.saber_join.specs.Found.{values_in};

use crate::pairs::Pairs;
use saber_changes::Answers;
use saber_plan::NoMemory;
use std::alloc::Global;

impl Pairs {
    /// The values of the items of each pair, in the order of the pairs.
    pub(crate) fn answers(&self, alloc: Global) -> Result<Answers, NoMemory>
        ensures { IfOk result (λ answers. answers ≡ values_in self.now) }
    {
        let mut answers = Answers::new(alloc);
        for values in self.pairs.values() {
            answers.push(values.as_slice())?;
        }
        Ok(answers)
    }
}
