// A row's key list.
ghost use Rattle.std.specs.Prelude.{◌≡◌, ◌<◌, ◌≤◌, ◌+◌, ◌++◌, length};
ghost use Rattle.std.specs.List.{AllByRecursion};
ghost use Rattle.saber_plan.specs.Answers.{key};

use arrayvec::ArrayVec;

/// Appends the numbers of a row's columns, which are eight at most.
#[inline]
pub(crate) fn push_list(list: &mut ArrayVec<i64, 8>, columns: &[u32], numbers: &[i64])
    requires few { length list.old.items + length columns.now ≤ 8 }
    requires there { AllByRecursion (λ k. k < length numbers.now) columns.now }
    ensures { list.new.items ≡ list.old.items ++ key columns.now numbers.now }
{
    for column in columns {
        list.push(numbers[*column as usize]);
    }
}
