// The end of a pipe that is read from.
ghost use Rattle.std.specs.Prelude.{◌≡◌, ◌≤◌, ◌+◌, ◌++◌, Some, true, length, take, drop, vec_len};
ghost use Rattle.crossbeam_queue.specs.Passes.{view, IsPassOf};
ghost use Rattle.saber_pipe.specs.Order.{mark_of};

use crate::left::Left;
use crate::outbox::Outbox;
use crate::rule::{End, Gets, IsTold, KeepsOrder, KeepsPromise, Line, Tells};
use crate::{Backlog, Item, PipeName, Receipt};
use saber_io::{EndMark, Failed, Fed, Feed};
use std::alloc::Global;
use std::marker::PhantomData;
use std::sync::Wait;

/// The end that is read from. It takes one item at a time.
#[derive(Drop)]
pub struct PipeFeed<'a, R: Wait, P: PipeName> {
    pub(crate) rt: &'a R,
    line: &'a Line,
    pub(crate) end: End,
    // The piece that was taken last, and how much of it was given.
    pub(crate) piece: Vec<u8>,
    pub(crate) at: usize,
    pub(crate) mark: Option<EndMark>,
    pub(crate) faults: u64,
    named: PhantomData<P>,
    pub ghost own: { IsPassOf line.now end },
    pub ghost of_pipe: { P.id ≡ Some end.table_id },
    pub ghost may: { (view end).gets ≡ true },
    pub ghost within: { at ≤ vec_len piece },
    pub ghost marked: { mark ≡ mark_of (view end).got },
}

impl<'a, R: Wait, P: PipeName> PipeFeed<'a, R, P> {
    ghost use Rattle.std.specs.Prelude.{◌≡◌, ◌≢◌, ◌↔◌, [], Some, None, true, false, IsTrue};
    ghost use Rattle.crossbeam_queue.specs.Passes.{view, IsPassOf, IsSamePass};
    ghost use Rattle.saber_pipe.specs.Lefts.{sent_out, IsSameLeft};
    ghost use Rattle.saber_pipe.specs.Order.{log};
    ghost use Rattle.saber_pipe.specs.Receipts.{written_by, mark_by, Settled};
    ghost use Rattle.saber_pipe.specs.Backlogs.{to_send};
    ghost use Rattle.saber_pipe.specs.PipeFeeds.{got, known, taken, waiting, mark, faults_of, IsToldMore};

    pub(crate) fn new(rt: &'a R, alloc: Global, line: &'a Line, end: End) -> PipeFeed<'a, R, P>
        requires own { IsPassOf line.now end }
        requires of_pipe { P.id ≡ Some end.table_id }
        requires first { view end ≡ log false true [] [] None }
        ensures got { got result ≡ [] }
        ensures waiting { waiting result ≡ [] }
        ensures faults { faults_of result ≡ 0 }
    {
        PipeFeed {
            rt,
            line,
            end,
            piece: Vec::new(alloc),
            at: 0,
            mark: None,
            faults: 0,
            named: PhantomData,
        }
    }

    // Whether a mark was taken.
    pub(crate) fn is_over(&self) -> bool
        ensures { IsTrue result ↔ (mark self.now ≢ None) }
    {
        self.mark.is_some()
    }

    // Lets go of the bytes that wait.
    pub(crate) fn skip(&mut self)
        ensures waiting { waiting self.new ≡ [] }
        ensures got { got self.new ≡ got self.old }
        ensures faults { faults_of self.new ≡ faults_of self.old }
    {
        self.at = self.piece.len();
    }

    // Is told what another pass knows to have been sent.
    fn hear(&mut self, other: &mut End)
        requires { IsPassOf self.old.line.now other.old }
        ensures known { known self.new ≡ (view other.old).sent }
        ensures same { IsToldMore self.old self.new }
        ensures other { IsSamePass other.old other.new × (view other.new ≡ view other.old) }
    {
        let told = self.line.another::<Tells>(other);
        self.line.absorb::<IsTold>(&mut self.end, told);
    }

    // Is told what was sent of what a writer wrote.
    pub(crate) fn hear_left<'b>(&mut self, left: Left<'b, P>) -> Left<'b, P>
        ensures known { known self.new ≡ sent_out left.entry }
        ensures feed { IsToldMore self.old self.new }
        ensures left { IsSameLeft left.entry result }
    {
        match left {
            Left::Kept(mut outbox) => {
                self.hear(&mut outbox.end);
                Left::Kept(outbox)
            }
            Left::Sent(mut receipt) => {
                self.hear(&mut receipt.end);
                Left::Sent(receipt)
            }
        }
    }

    // Takes in the leave to send of a writer that left. Since a mark was taken, it had sent all.
    pub(crate) fn dismiss(&mut self, backlog: Backlog<'_, P>)
        requires over { mark self.old ≢ None }
        ensures sent { to_send backlog.entry ≡ [] }
        ensures same { IsToldMore self.old self.new }
    {
        let Backlog { left, .. } = backlog;
        let Left::Kept(outbox) = left else {
            return;
        };
        let Outbox { end, .. } = outbox;
        self.line.absorb::<IsTold>(&mut self.end, end);
        self.line.learn_as::<KeepsOrder>(&mut self.end);
    }

    /// What both ends of a pipe come to: what was taken is a front of what was written, and all of
    /// it where a mark was taken, which is the one that was sent.
    pub fn settle(self, receipt: Receipt<P>)
        ensures { Settled (written_by receipt) (mark_by receipt) (taken self.entry) (mark self.entry) }
    {
        let PipeFeed { line, mut end, .. } = self;
        line.absorb::<IsTold>(&mut end, receipt.end);
        line.learn_as::<KeepsPromise>(&mut end);
    }
}

impl<'a, R: Wait, P: PipeName> Feed for PipeFeed<'a, R, P> {
    ghost use Rattle.std.specs.Prelude.{◌≡◌, ◌<◌, ◌≤◌, length, IfOk, OnOk, OnErr};
    ghost use Rattle.saber_plan.specs.Outputs.{Rose};
    ghost use Rattle.saber_io.specs.Feeds.{Feeds, IsCut, Refills};
    ghost use Rattle.saber_pipe.specs.PipeFeeds.{got, known, taken, waiting, mark, faults_of, TakesOne};

    ghost taken = { taken };

    ghost waiting = { waiting };

    ghost mark = { mark };

    ghost faults = { faults_of };

    fn feed(&mut self, buf: &mut [u8]) -> Result<Fed, Failed>
        requires { 0 < length buf.old }
        ensures ok { IfOk result (λ fed. Feeds (waiting self.old) (waiting self.new) (mark self.old) buf.new fed) }
        ensures failed { OnErr result (IsCut (waiting self.old) (waiting self.new) (mark self.old)) }
        ensures stands { (taken self.new ≡ taken self.old) × (mark self.new ≡ mark self.old) }
        ensures cause { OnErr result (Rose (faults_of self.old) (faults_of self.new)) }
        ensures good { OnOk result (faults_of self.new ≡ faults_of self.old) }
        ensures count { faults_of self.old ≤ faults_of self.new }
        ensures got { got self.new ≡ got self.old }
    {
        let size = (self.piece.len() - self.at).min(buf.len());
        if size > 0 {
            give(&self.piece, self.at, size, buf);
            self.at += size;
            return Ok(Fed::Bytes(size));
        }
        match self.mark {
            None => Ok(Fed::NotYet),
            Some(EndMark::End) => Ok(Fed::End),
            Some(EndMark::Cut) => {
                self.faults = self.faults.saturating_add(1);
                Err(Failed)
            }
        }
    }

    fn refill(&mut self) -> bool
        ensures more { Refills (taken self.old) (taken self.new) (waiting self.old) (waiting self.new) (mark self.old) (mark self.new) result }
        ensures count { faults_of self.new ≡ faults_of self.old }
        ensures takes { TakesOne self.old self.new result }
        ensures known { known self.new ≡ known self.old }
    {
        if self.at < self.piece.len() {
            return true;
        }
        let Some(item) = self.line.pop_as::<Gets, R>(self.rt, &mut self.end) else {
            return false;
        };
        match item {
            Item::Piece(piece) => {
                self.piece = piece;
                self.at = 0;
                true
            }
            Item::Last(mark) => {
                self.mark = Some(mark);
                true
            }
        }
    }
}

// Copies so many bytes from a place on into the front of the buffer.
#[tactic(auto, using(crate::proofs::Marks::part_and_rest))]
fn give(bytes: &[u8], at: usize, size: usize, buf: &mut [u8])
    requires fits { size ≤ length buf.old }
    requires there { at + size ≤ length bytes.now }
    ensures given { drop at bytes.now ≡ take size buf.new ++ drop (at + size) bytes.now }
{
    buf[..size].copy_from_slice(&bytes[at..at + size]);
}
