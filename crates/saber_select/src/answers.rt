// The answers of a window, from its rows.
ghost use Rattle.std.specs.Prelude.{◌≡◌, IfOk};
ghost use Rattle.saber_select.specs.Found.{values_in};

use crate::picked::Picked;
use saber_changes::Answers;
use saber_plan::NoMemory;
use std::alloc::Global;

impl Picked {
    /// The values of the items of each row, in the order of the rows.
    pub(crate) fn answers(&self, alloc: Global) -> Result<Answers, NoMemory>
        ensures { IfOk result (λ answers. answers ≡ values_in self.now) }
    {
        let mut answers = Answers::new(alloc);
        for spot in &self.spots {
            answers.push(&self.numbers[spot.start..spot.end])?;
        }
        Ok(answers)
    }
}
