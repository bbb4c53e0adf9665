// A feed in memory, whose bytes come by and by.
ghost use Rattle.std.specs.Prelude.{◌≤◌, vec_len};

use crate::memory::give;
use crate::{EndMark, Failed, Fed, Feed};

/// A feed of these bytes and then a mark. Each refill takes so many bytes at most, and every second
/// one finds nothing.
#[derive(Drop)]
pub struct MemFeed {
    bytes: Vec<u8>,
    // how many were taken, and how many of these were given
    taken: usize,
    given: usize,
    // how many a refill takes at most
    step: usize,
    end: EndMark,
    is_marked: bool,
    is_late: bool,
    faults: u64,
    ghost within: { given ≤ taken },
    ghost all: { taken ≤ vec_len bytes },
}

impl MemFeed {
    ghost use Rattle.std.specs.Prelude.{◌≡◌, [], None};
    ghost use Rattle.saber_io.specs.MemFeeds.{taken_of, waiting_of, mark_of};

    /// A feed of which nothing was taken yet.
    pub fn new(bytes: Vec<u8>, step: usize, end: EndMark) -> MemFeed
        ensures fresh { (taken_of result ≡ []) × (waiting_of result ≡ []) × (mark_of result ≡ None) }
    {
        MemFeed {
            bytes,
            taken: 0,
            given: 0,
            step,
            end,
            is_marked: false,
            is_late: false,
            faults: 0,
        }
    }
}

impl Feed for MemFeed {
    ghost use Rattle.std.specs.Prelude.{◌≡◌, ◌≤◌, ◌<◌, IfOk, OnOk, OnErr, length};
    ghost use Rattle.saber_plan.specs.Outputs.{Rose};
    ghost use Rattle.saber_io.specs.Feeds.{Feeds, IsCut, Refills};
    ghost use Rattle.saber_io.specs.MemFeeds.{taken_of, waiting_of, mark_of};

    ghost taken = { taken_of };

    ghost waiting = { waiting_of };

    ghost mark = { mark_of };

    ghost faults = { λ f. f.faults };

    fn feed(&mut self, buf: &mut [u8]) -> Result<Fed, Failed>
        requires { 0 < length buf.old }
        ensures ok { IfOk result (λ fed. Feeds (waiting_of self.old) (waiting_of self.new) (mark_of self.old) buf.new fed) }
        ensures failed { OnErr result (IsCut (waiting_of self.old) (waiting_of self.new) (mark_of self.old)) }
        ensures stands { (taken_of self.new ≡ taken_of self.old) × (mark_of self.new ≡ mark_of self.old) }
        ensures cause { OnErr result (Rose self.old.faults self.new.faults) }
        ensures good { OnOk result (self.new.faults ≡ self.old.faults) }
        ensures count { self.old.faults ≤ self.new.faults }
    {
        let size = (self.taken - self.given).min(buf.len());
        if size > 0 {
            give(&self.bytes, self.given, size, buf);
            self.given += size;
            return Ok(Fed::Bytes(size));
        }
        if !self.is_marked {
            return Ok(Fed::NotYet);
        }
        match self.end {
            EndMark::End => Ok(Fed::End),
            EndMark::Cut => {
                self.faults = self.faults.saturating_add(1);
                Err(Failed)
            }
        }
    }

    fn refill(&mut self) -> bool
        ensures more { Refills (taken_of self.old) (taken_of self.new) (waiting_of self.old) (waiting_of self.new) (mark_of self.old) (mark_of self.new) result }
        ensures count { self.new.faults ≡ self.old.faults }
    {
        self.is_late = !self.is_late;
        if self.is_late || self.is_marked {
            return false;
        }
        let size = self.step.min(self.bytes.len() - self.taken);
        self.taken += size;
        self.is_marked = size == 0;
        true
    }
}
