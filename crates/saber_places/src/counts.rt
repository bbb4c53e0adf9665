// How many rows have each key list.
ghost use Rattle.std.specs.Prelude.{◌≡◌, ◌<◌, ◌+◌, ◌^◌, length, IfOk, OnOk};
ghost use Rattle.std.specs.FinMap.{insert};
ghost use Rattle.saber_places.specs.Counts.{count_of};
ghost use Rattle.saber_places.specs.Numbering.{by_list};

use crate::numbered::Numbered;
use arrayvec::ArrayVec;
use saber_plan::NoMemory;

/// Counts one more with this key list, and answers how many there were. Counts stand by the numbers
/// of key lists. Memory is taken for a list that is new.
#[inline]
pub(crate) fn count_one(
    known: &mut Numbered,
    counts: &mut Vec<u64>,
    list: ArrayVec<i64, 8>,
) -> Result<u64, NoMemory>
    requires small { count_of (by_list known.old counts.old.items) list.items < 2 ^ 63 }
    requires long { length counts.old.items ≡ length known.old }
    ensures was { IfOk result (λ n. n ≡ count_of (by_list known.old counts.old.items) list.items) }
    ensures counted { OnOk result (by_list known.new counts.new.items ≡ insert (by_list known.old counts.old.items) list.items (count_of (by_list known.old counts.old.items) list.items + 1)) }
    ensures long { OnOk result (length counts.new.items ≡ length known.new) }
{
    match known.find(&list) {
        Some(number) => {
            let before = counts[number];
            counts[number] = before + 1;
            Ok(before)
        }
        None => {
            known.add(list)?;
            counts.push(1)?;
            Ok(0)
        }
    }
}
