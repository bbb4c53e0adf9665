// The lines of rows.
ghost use Rattle.std.specs.Prelude.{◌≡◌, ◌++◌, OnOk};
ghost use Rattle.saber_plan.specs.Texts.{Behind};
ghost use Rattle.saber_select.specs.Found.{lines_for, values_in};

use crate::picked::Picked;
use saber_digits::write_line;
use saber_plan::NoMemory;

impl Picked {
    /// Writes the lines of the rows behind what `out` has, in the order of the rows: each the
    /// window's number and the values of the items in decimal, with commas between, and LF (this
    /// project's rule). After want of memory some of them may be there.
    pub(crate) fn lines(&self, window: u64, out: &mut Vec<u8>) -> Result<(), NoMemory>
        ensures ok { OnOk result (out.new.items ≡ out.old.items ++ lines_for window (values_in self.now)) }
        ensures behind { Behind out.old.items out.new.items }
    {
        for spot in &self.spots {
            write_line(out, window, &self.numbers[spot.start..spot.end])?;
        }
        Ok(())
    }
}
