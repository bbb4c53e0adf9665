// Entries whose parts have one group, each with the merge of its part and all behind it.
ghost use Rattle.std.specs.Prelude.{◌≡◌, ◌+◌, ◌≤◌, [], drop, length, MatchOption};
ghost use Rattle.saber_partial.specs.Ones.{IsOne};
ghost use Rattle.saber_sliding.specs.Entries.{first_number, suffixes, whole, Chained};

use crate::stack::Stack;
use saber_partial::{RowPart, Steps};
use std::alloc::Global;
use std::marker::Model;
use std::mem;
use std::sync::ledger::Ledger;

/// Entries that go at the front. The first ones of the stack are gone: they stay where they are
/// until others come, so that none is moved for them. Contracts see the entries that are there.
#[derive(Drop)]
pub(crate) struct OneFront {
    stack: Stack,
    gone: usize,
}

impl Model for OneFront {
    ghost use Rattle.std.specs.Prelude.{◌≤◌, drop, length};
    ghost use Rattle.saber_sliding.specs.Entries.{coded_entries, Entries};

    ghost Value = { Entries };

    ghost coded = { coded_entries };

    ghost view = { λ f. drop f.gone f.stack };

    ghost invariant = { λ f. f.gone ≤ length f.stack };
}

impl OneFront {
    /// No entry. Takes no memory.
    pub(crate) fn empty(alloc: Global) -> OneFront
        ensures { result ≡ [] }
    {
        OneFront {
            stack: Stack::empty(alloc),
            gone: 0,
        }
    }

    /// The number of the first entry.
    #[inline(always)]
    pub(crate) fn first_number(&self) -> Option<u64>
        ensures { result ≡ first_number self.now }
    {
        if self.gone >= self.stack.len() {
            return None;
        }
        Some(self.stack.number(self.gone))
    }

    /// Its part, which is the merge of all.
    #[inline(always)]
    pub(crate) fn first(&self) -> Option<RowPart<'_>>
        ensures is { MatchOption result (self.now ≡ []) (λ r. (1 ≤ length self.now) × (r ≡ whole self.now) × IsOne r) }
    {
        if self.gone >= self.stack.len() {
            return None;
        }
        Some(self.stack.part(self.gone))
    }

    /// Lets the first entry go.
    #[inline(always)]
    pub(crate) fn pop(&mut self)
        requires { 1 ≤ length self.old }
        ensures { self.new ≡ drop 1 self.old }
    {
        let _count = self.stack.len();
        self.gone += 1;
    }

    /// Entries with their own parts come where none is, one step for each at most. It takes no
    /// memory, and that of both stays.
    pub(crate) fn take_over<L: Ledger>(&mut self, back: &mut Stack, steps: &mut Steps<L>)
        requires chained { Chained back.old }
        requires none { self.old ≡ [] }
        ensures front { self.new ≡ suffixes back.old }
        ensures back { back.new ≡ [] }
        ensures steps { steps.new ≤ steps.old + length back.old }
    {
        back.sum_up(steps);
        mem::swap(&mut self.stack, back);
        self.gone = 0;
        back.clear();
    }
}
