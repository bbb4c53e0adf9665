// Key lists with numbers, as they come.
ghost use Rattle.std.specs.Prelude.{◌≡◌, ◌++◌, ◌∷◌, [], None, Some, true, OnOk};
ghost use Rattle.saber_places.specs.Numbering.{lists_in, number_of};

use arrayvec::ArrayVec;
use saber_plan::NoMemory;
use std::alloc::Global;
use std::collections::BTreeMap;
use std::marker::Model;

/// Key lists, each of which has a number: how many others came before it. A hint mostly tells the
/// number at once. It may be wrong, and then the list is sought in a tree: so no choice of keys
/// makes a search long. Contracts see the lists in the order in which they came.
#[derive(Drop)]
pub struct Numbered {
    // by number
    lists: Vec<ArrayVec<i64, 8>>,
    // their numbers
    order: BTreeMap<ArrayVec<i64, 8>, usize>,
    // at each spot the number of a list that belongs there; none, or a power of two of them
    hints: Vec<u32>,
}

impl Model for Numbered {
    ghost use Rattle.std.specs.Prelude.{List, ℤ};
    ghost use Rattle.saber_places.specs.Numbering.{lists_in, numbers_in, IsNumbered};

    ghost Value = { List (List ℤ) };

    ghost view = { λ n. lists_in n.lists.items };

    ghost invariant = { λ n. IsNumbered (lists_in n.lists.items) (numbers_in n.order.entries) };
}

// A number for a list. Products spread numbers that follow one another.
#[inline(always)]
fn spread(list: &[i64]) -> usize {
    let mut all = 0u64;
    for number in list {
        let mixed = (all ^ number.cast_unsigned()).wrapping_mul(0x9E37_79B9_7F4A_7C15);
        all = mixed ^ (mixed >> 32);
    }
    all as usize
}

// Has a hint tell this number, if there is one.
#[inline(always)]
fn set_hint(hints: &mut Vec<u32>, spot: usize, number: usize) {
    if let Some(hint) = hints.get_mut(spot) {
        if let Ok(told) = u32::try_from(number) {
            *hint = told;
        }
    }
}

// The same list.
fn copy_of(list: &ArrayVec<i64, 8>) -> ArrayVec<i64, 8>
    ensures { result.items ≡ list.now.items }
{
    let mut copy = ArrayVec::new();
    for value in list.as_slice() {
        copy.push(*value);
    }
    copy
}

impl Numbered {
    /// No list yet. Takes no memory.
    pub fn new(alloc: Global) -> Numbered
        ensures { result ≡ [] }
    {
        Numbered {
            lists: Vec::new(alloc),
            order: BTreeMap::new(alloc),
            hints: Vec::new(alloc),
        }
    }

    // Where the hint of a list stands.
    #[inline(always)]
    fn spot(&self, list: &ArrayVec<i64, 8>) -> usize {
        spread(list.as_slice()) & self.hints.len().wrapping_sub(1)
    }

    // Whether a list has this number.
    #[inline(always)]
    fn is_at(&self, number: usize, list: &ArrayVec<i64, 8>) -> bool
        ensures { result ≡ true → number_of list.now.items self.now ≡ Some number }
    {
        match self.lists.get(number) {
            Some(own) => own.as_slice() == list.as_slice(),
            None => false,
        }
    }

    // The number of a list, sought by all of it. Few rows ask it.
    #[inline(never)]
    fn seek(&mut self, spot: usize, list: &ArrayVec<i64, 8>) -> Option<usize>
        ensures number { result ≡ number_of list.now.items self.old }
        ensures same { self.new ≡ self.old }
    {
        let number = match self.order.get(list) {
            Some(number) => *number,
            None => return None,
        };
        set_hint(&mut self.hints, spot, number);
        Some(number)
    }

    /// The number of a list, if it came.
    #[inline(always)]
    pub fn find(&mut self, list: &ArrayVec<i64, 8>) -> Option<usize>
        ensures number { result ≡ number_of list.now.items self.old }
        ensures same { self.new ≡ self.old }
    {
        let spot = self.spot(list);
        if let Some(hint) = self.hints.get(spot) {
            let number = *hint as usize;
            if self.is_at(number, list) {
                return Some(number);
            }
        }
        self.seek(spot, list)
    }

    // Room for the hints of one list more. Those that were told are forgotten where there are more.
    fn make_room(&mut self) -> Result<(), NoMemory>
        ensures { self.new ≡ self.old }
    {
        let room = self.hints.len();
        if self.lists.len() < room / 4 {
            return Ok(());
        }
        self.hints.clear();
        self.hints.resize(room.saturating_mul(2).max(64), 0)?;
        Ok(())
    }

    /// A list that is new, which has the next number then. Takes memory.
    pub fn add(&mut self, list: ArrayVec<i64, 8>) -> Result<(), NoMemory>
        requires { number_of list.items self.old ≡ None }
        ensures { OnOk result (self.new ≡ self.old ++ list.items ∷ []) }
    {
        self.make_room()?;
        self.lists.reserve(1)?;
        let number = self.lists.len();
        let spot = self.spot(&list);
        self.order.insert(copy_of(&list), number)?;
        self.lists.push_reserved(list);
        set_hint(&mut self.hints, spot, number);
        Ok(())
    }

    /// All lists, by number.
    pub fn into_lists(self) -> Vec<ArrayVec<i64, 8>>
        ensures { lists_in result.items ≡ self }
    {
        let Numbered { lists, .. } = self;
        lists
    }
}
