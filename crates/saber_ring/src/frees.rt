//! Which blocks are free.
ghost use Rattle.std.specs.Prelude.{◌≡◌, ℕ, ◌+◌, ◌-◌, ◌*◌, ◌/◌, ◌%◌, ◌^◌, ◌<◌, ◌≤◌, drop, length, slice_index, OnOk, OnErr};
ghost use Rattle.saber_ring.specs.Freeing.{IsSlid, IsSameList};

use std::alloc::AllocError as NoMemory;
use std::collections::VecDeque;

/// For the tasks from one on, in a row, the first block that each needs: its number is that of the
/// first task whose rows it needs.
#[derive(Drop)]
pub struct Frees {
    /// The first of the tasks.
    pub base: u64,
    pub list: VecDeque<u64>,
}

impl Frees {
    /// The first block that the task needs.
    pub fn first(&self, task: u64) -> u64
        requires { (self.now.base ≤ task) × (task < self.now.base + length self.now.list.items) }
        ensures { result ≡ slice_index self.now.list.items (task - self.now.base) }
    {
        self.list[(task - self.base) as usize]
    }

    /// Tells the first block of one task more, and lets go of the tasks below `from`. So the list
    /// stays as short as the ring where `from` follows the fills. For want of memory it is as it
    /// was.
    pub fn push(&mut self, next: u64, from: u64) -> Result<(), NoMemory>
        requires { from ≤ self.old.base + length self.old.list.items }
        ensures slid { OnOk result (IsSlid next from self.old self.new) }
        ensures same { OnErr result (IsSameList self.old self.new) }
    {
        if self.list.push_back(next).is_err() {
            return Err(NoMemory);
        }
        self.cut(from);
        Ok(())
    }

    // Lets go of the tasks below this one.
    fn cut(&mut self, from: u64)
        requires { from ≤ self.old.base + length self.old.list.items }
        ensures base { self.new.base ≡ self.old.base + (from - self.old.base) }
        ensures rest { self.new.list.items ≡ drop (from - self.old.base) self.old.list.items }
    {
        while self.base < from {
            self.drop_first();
        }
    }

    fn drop_first(&mut self)
        requires { self.old.base + 1 < 2 ^ 64 }
        ensures base { self.new.base ≡ self.old.base + 1 }
        ensures rest { self.new.list.items ≡ drop 1 self.old.list.items }
    {
        let _first = self.list.pop_front();
        self.base += 1;
    }
}
