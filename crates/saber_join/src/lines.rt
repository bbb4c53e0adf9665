// The lines of pairs.
ghost use Rattle.std.specs.Prelude.{◌≡◌, ◌++◌, OnOk};
ghost use Rattle.saber_plan.specs.Texts.{Behind};
ghost use Rattle.saber_join.specs.Found.{pair_lines};

use crate::pairs::Pairs;
use saber_digits::write_line;
use saber_plan::NoMemory;

impl Pairs {
    /// Writes the lines of the pairs behind what `out` has, in the order of the pairs: each the
    /// window's number and the values of the items in decimal, with commas between, and LF (this
    /// project's rule). After want of memory some of them may be there.
    pub(crate) fn lines(&self, window: u64, out: &mut Vec<u8>) -> Result<(), NoMemory>
        ensures ok { OnOk result (out.new.items ≡ out.old.items ++ pair_lines window self.now) }
        ensures behind { Behind out.old.items out.new.items }
    {
        for values in self.pairs.values() {
            write_line(out, window, values.as_slice())?;
        }
        Ok(())
    }
}
