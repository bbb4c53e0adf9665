// The pairs of one window.
ghost use Rattle.std.specs.Prelude.{◌≡◌, true, false, Some, OnOk};
ghost use Rattle.std.specs.FinMap.{insert};
ghost use Rattle.saber_plan.specs.Parts.{no_part, numbers_of_one, merge};
ghost use Rattle.saber_plan.specs.Tasks.{full};
ghost use Rattle.saber_join.specs.Found.{Apart};

use saber_plan::NoMemory;
use std::alloc::Global;
use std::collections::BTreeMap;
use std::marker::Model;

/// The pairs of a window over some rows (SABER 2016: what a task gives for a window that does not
/// lie whole in it), each under the places of its left and its right row, with the values of the
/// items. Places keep their order as signed numbers, being at most 2^41. Contracts see it as a
/// part, a finite map.
#[derive(Drop)]
pub struct Pairs {
    pub(crate) pairs: BTreeMap<[i64; 2], Vec<i128>>,
}

impl Model for Pairs {
    ghost use Rattle.saber_plan.specs.Parts.{Part};
    ghost use Rattle.saber_plan.specs.Codes.{coded_part};
    ghost use Rattle.saber_join.specs.Found.{seen_pairs};

    ghost Value = { Part };

    ghost coded = { coded_part };

    ghost view = { λ p. seen_pairs p.pairs.entries };
}

impl Pairs {
    /// No pair. Takes no memory.
    pub(crate) fn empty(alloc: Global) -> Pairs
        ensures { result ≡ no_part }
    {
        Pairs {
            pairs: BTreeMap::new(alloc),
        }
    }

    /// Whether there is no pair, so that there is nothing to keep.
    pub(crate) fn is_empty(&self) -> bool
        ensures none { result ≡ true → self.now ≡ no_part }
        ensures some { result ≡ false → full self.now ≡ Some self.now }
    {
        let count = self.pairs.len();
        count == 0
    }

    /// One pair more, by the places of its rows and the values of its items.
    pub(crate) fn put(&mut self, places: [i64; 2], values: Vec<i128>) -> Result<(), NoMemory>
        ensures { OnOk result (self.new ≡ insert self.old places (numbers_of_one values.items)) }
    {
        self.pairs.insert(places, values)?;
        Ok(())
    }

    /// Takes in the pairs of later rows, each of which is new. After want of memory it is only
    /// safe: some are taken in and others not.
    pub(crate) fn merge(&mut self, later: Pairs) -> Result<(), NoMemory>
        requires { Apart self.old later }
        ensures { OnOk result (self.new ≡ merge self.old later) }
    {
        // That its keys rise, which the proof needs, is told by the length.
        let _count = later.pairs.len();
        for (places, values) in later.pairs {
            self.pairs.insert(places, values)?;
        }
        Ok(())
    }
}
