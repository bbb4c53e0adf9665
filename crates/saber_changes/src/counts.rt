// How often lines come.
ghost use Rattle.std.specs.Prelude.{◌≡◌, ◌+◌, ◌<◌, ◌^◌, List, ℤ, nat_lt, true, false, IfOk, OnOk};
ghost use Rattle.saber_changes.specs.Counts.{times, counts_of, tally, one_more, one_less};

use crate::answers::Answers;
use saber_plan::NoMemory;
use std::alloc::Global;
use std::collections::BTreeMap;

// Counts one line more.
fn count<'a>(counts: &mut BTreeMap<&'a [i128], u64>, line: &'a [i128]) -> Result<(), NoMemory>
    requires { tally (counts_of counts.old.entries) line.now + 1 < 2 ^ 64 }
    ensures { OnOk result ((k : List ℤ) → tally (counts_of counts.new.entries) k ≡ one_more (tally (counts_of counts.old.entries)) line.now k) }
{
    match counts.get_mut(line) {
        Some(n) => {
            *n += 1;
        }
        None => {
            counts.insert(line, 1)?;
        }
    }
    Ok(())
}

/// How often each of these lines comes among them.
pub(crate) fn counted<'a>(
    alloc: Global,
    answers: &'a Answers,
) -> Result<BTreeMap<&'a [i128], u64>, NoMemory>
    ensures { IfOk result (λ counts. (k : List ℤ) → tally (counts_of counts.entries) k ≡ times k answers.now) }
{
    let mut counts = BTreeMap::new(alloc);
    for i in 0..answers.len() {
        count(&mut counts, answers.line(i))?;
    }
    Ok(counts)
}

/// Takes one of the lines that are left and equal this one; false, where there is none.
pub(crate) fn take<'a>(counts: &mut BTreeMap<&'a [i128], u64>, line: &[i128]) -> bool
    ensures told { result ≡ nat_lt 0 (tally (counts_of counts.old.entries) line.now) }
    ensures taken { result ≡ true → (k : List ℤ) → tally (counts_of counts.new.entries) k ≡ one_less (tally (counts_of counts.old.entries)) line.now k }
    ensures same { result ≡ false → (k : List ℤ) → tally (counts_of counts.new.entries) k ≡ tally (counts_of counts.old.entries) k }
{
    match counts.get_mut(line) {
        Some(n) => {
            if *n == 0 {
                return false;
            }
            *n -= 1;
            true
        }
        None => false,
    }
}
