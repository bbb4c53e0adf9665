// What is still to be sent through a pipe, and what it is sent with.
ghost use Rattle.std.specs.Prelude.{◌≡◌, ◌++◌, true, Some, None, option_to_list};
ghost use Rattle.crossbeam_queue.specs.Passes.{view, IsPassOf, ruled_capacity};
ghost use Rattle.saber_pipe.specs.Order.{mark_of};

use crate::rule::{End, Line, Promise, Promises, Sends};
use crate::{Item, PipeName, Receipt};
use saber_io::EndMark;
use std::alloc::{AllocError, Global};
use std::collections::VecDeque;
use std::marker::PhantomData;
use std::sync::Wait;

// Pieces that wait until there is room for them in the pipe, and the pass that sends.
#[derive(Drop)]
pub struct Outbox<'a, P: PipeName> {
    line: &'a Line,
    pub(crate) end: End,
    // What is kept: a piece that the full pipe gave back, and those behind it.
    pub(crate) first: Option<Item>,
    pub(crate) rest: VecDeque<Item>,
    named: PhantomData<P>,
    pub ghost room: { ruled_capacity line.now ≡ 64 },
    pub ghost own: { IsPassOf line.now end },
    pub ghost of_pipe: { P.id ≡ Some end.table_id },
    pub ghost may: { (view end).sends ≡ true },
    pub ghost unended: { mark_of (view end).sent ≡ None },
    pub ghost pieces: { mark_of (option_to_list first ++ rest.items) ≡ None },
}

impl<'a, P: PipeName> Outbox<'a, P> {
    ghost use Rattle.std.specs.Prelude.{◌≡◌, ◌↔◌, ◌+◌, ◌++◌, ◌∷◌, [], length, true, false, Bool, Some, None, IfNone, IfOk, IfErr, OnOk, OnErr, IsTrue, option_to_list};
    ghost use Rattle.crossbeam_queue.specs.Passes.{view, IsPassOf, ruled_capacity};
    ghost use Rattle.saber_pipe.specs.declared.items.Item.TheVariants as item;
    ghost use Rattle.saber_pipe.specs.Order.{log, bytes_of};
    ghost use Rattle.saber_pipe.specs.Outboxes.{sent_of, kept_of, whole_of, all_of, MaySend, MayHaveBeenFull, Moves, IsStill, SendsOne};
    ghost use Rattle.saber_pipe.specs.Receipts.{promised};

    pub(crate) fn new(alloc: Global, line: &'a Line, end: End) -> Outbox<'a, P>
        requires room { ruled_capacity line.now ≡ 64 }
        requires own { IsPassOf line.now end }
        requires of_pipe { P.id ≡ Some end.table_id }
        requires first { view end ≡ log true false [] [] None }
        ensures sent { sent_of result ≡ [] }
        ensures kept { kept_of result ≡ [] }
        ensures whole { whole_of result ≡ None }
    {
        Outbox {
            line,
            end,
            first: None,
            rest: VecDeque::new(alloc),
            named: PhantomData,
        }
    }

    // Keeps one more piece.
    #[tactic(auto, using(crate::proofs::Moves::one_kept))]
    pub(crate) fn keep(&mut self, alloc: Global, piece: &[u8]) -> Result<(), AllocError>
        ensures ok { OnOk result (bytes_of (sent_of self.new ++ kept_of self.new) ≡ bytes_of (sent_of self.old ++ kept_of self.old) ++ piece.now) }
        ensures one { OnOk result (length (kept_of self.new) ≡ length (kept_of self.old) + 1) }
        ensures kept { OnErr result (kept_of self.new ≡ kept_of self.old) }
        ensures same { (sent_of self.new ≡ sent_of self.old) × (whole_of self.new ≡ whole_of self.old) }
    {
        let copy = piece.to_vec(alloc)?;
        match self.rest.push_back(Item::Piece(copy)) {
            Ok(()) => Ok(()),
            Err(_) => Err(AllocError),
        }
    }

    // Whether nothing is kept.
    pub(crate) fn is_empty(&self) -> bool
        ensures { IsTrue result ↔ (kept_of self.now ≡ []) }
    {
        self.first.is_none() && self.rest.is_empty()
    }

    // Takes the first piece that is kept.
    fn take_first(&mut self) -> Option<Item>
        ensures kept { kept_of self.old ≡ option_to_list result ++ kept_of self.new }
        ensures none { IfNone result (kept_of self.new ≡ []) }
        ensures first { self.new.first ≡ None }
        ensures same { (self.new.end ≡ self.old.end) × (self.new.line ≡ self.old.line) }
    {
        match self.first.take() {
            Some(item) => Some(item),
            None => self.rest.pop_front(),
        }
    }

    // Sends the first piece that is kept; false where none is, or where the pipe was full.
    pub(crate) fn send_one<R: Wait>(&mut self, rt: &R) -> bool
        requires { MaySend self.old }
        ensures { SendsOne self.old self.new result }
    {
        let Some(item) = self.take_first() else {
            return false;
        };
        match self.line.push_as::<Sends, R>(rt, &mut self.end, item) {
            Ok(()) => true,
            Err(item) => {
                self.first = Some(item);
                false
            }
        }
    }

    // Sends what is kept, as far as there is room for it.
    pub(crate) fn send_all<R: Wait>(&mut self, rt: &R)
        requires { MaySend self.old }
        ensures moves { Moves self.old self.new }
        ensures until { IsStill self.new }
    {
        for _ in rt.forever() {
            if !self.send_one(rt) {
                return;
            }
        }
        unreachable!()
    }

    // Sends how the bytes end, where nothing is kept. Where the pipe was full, it comes back as it
    // was.
    pub(crate) fn send_last<R: Wait>(
        self,
        rt: &R,
        mark: EndMark,
    ) -> Result<Receipt<P>, Outbox<'a, P>>
        requires empty { kept_of self ≡ [] }
        requires may { whole_of self ≡ Some (all_of self mark) }
        ensures sent { IfOk result (λ r. ((view r.end).sent ≡ sent_of self.entry ++ item.Last mark ∷ []) × ((view r.end).whole ≡ whole_of self.entry)) }
        ensures back { IfErr result (λ o. (sent_of o ≡ sent_of self.entry) × (kept_of o ≡ []) × (whole_of o ≡ whole_of self.entry) × MayHaveBeenFull o) }
    {
        let Outbox {
            line,
            mut end,
            first,
            rest,
            named,
        } = self;
        match line.push_as::<Sends, R>(rt, &mut end, Item::Last(mark)) {
            Ok(()) => Ok(Receipt::new(end)),
            Err(_) => Err(Outbox {
                line,
                end,
                first,
                rest,
                named,
            }),
        }
    }

    // Promises that what is kept will be sent, and then this mark, which J names.
    pub(crate) fn promise<J: Promise>(&mut self, mark: EndMark) -> Receipt<P>
        requires open { whole_of self.old ≡ None }
        requires named { J.whole ≡ Some (all_of self.old mark) }
        ensures receipt { promised result ≡ all_of self.old mark }
        ensures whole { whole_of self.new ≡ Some (all_of self.new mark) }
        ensures same { (sent_of self.new ≡ sent_of self.old) × (kept_of self.new ≡ kept_of self.old) }
    {
        let told = self.line.another::<Promises<J>>(&mut self.end);
        Receipt::new(told)
    }
}
