// What an operator does with the parts of its windows.
ghost use Rattle.std.specs.Prelude.{◌≡◌, ◌++◌, true, false, Some, OnOk, IfOk};
ghost use Rattle.saber_plan.specs.Trees.{Tree};
ghost use Rattle.saber_plan.specs.Parts.{Part, no_part, merge, part_lines, part_answers};
ghost use Rattle.saber_plan.specs.Tasks.{full};
ghost use Rattle.saber_plan.specs.Texts.{Behind};
ghost use Rattle.saber_plan.specs.GivenRows.{AreNeighbors};

use saber_changes::Answers;
use saber_plan::NoMemory;
use std::alloc::Global;

/// How the parts of windows are put together (SABER 2016: the assembly function of an operator).
pub trait Assembles {
    /// What is kept of the rows of one window.
    type Part: Drop;

    /// The plan that is answered.
    ghost plan: { Self → Tree };

    /// What a part is for the definitions.
    ghost shown: { Self.Part → Part };

    /// Whether a part has nothing, so that there is nothing to keep.
    fn is_empty(&self, part: &Self::Part) -> bool
        ensures none { result ≡ true → shown part.now ≡ no_part }
        ensures some { result ≡ false → full (shown part.now) ≡ Some (shown part.now) };

    /// Takes in the part of later rows of the same window. After want of memory the part is only
    /// safe to let go.
    fn merge(&self, into: &mut Self::Part, from: Self::Part) -> Result<(), NoMemory>
        requires { AreNeighbors (plan self.now) (shown into.old) (shown from) }
        ensures { OnOk result (shown into.new ≡ merge (shown into.old) (shown from)) };

    /// Appends the lines of window i, of which this is the whole part. After want of memory some of
    /// them may be there.
    fn lines(&self, i: u64, part: &Self::Part, out: &mut Vec<u8>) -> Result<(), NoMemory>
        ensures ok { OnOk result (out.new.items ≡ out.old.items ++ part_lines (plan self.now) i (shown part.now)) }
        ensures behind { Behind out.old.items out.new.items };

    /// The answers of a window, of which this is the whole part.
    fn answers(&self, alloc: Global, part: &Self::Part) -> Result<Answers, NoMemory>
        ensures { IfOk result (λ a. a ≡ part_answers (plan self.now) (shown part.now)) };
}
