// Who reads a pipe, and what it was handed over.
use crate::{Backlog, PipeFeed, PipeName, Receipt};
use saber_io::{Failed, Fed, Feed};
use saber_pause::Pause;
use std::sync::Wait;

/// A feed of what comes through a pipe. Where the writer has already done its work on the same
/// thread, the relay has its backlog too, and sends it on before it reads.
#[derive(Drop)]
pub struct Relay<'a, R: Wait, P: PipeName> {
    feed: PipeFeed<'a, R, P>,
    backlog: Option<Backlog<'a, P>>,
}

impl<'a, R: Wait, P: PipeName> Relay<'a, R, P> {
    ghost use Rattle.std.specs.Prelude.{◌≡◌, ◌≢◌, [], None};
    ghost use Rattle.saber_pipe.specs.Backlogs.{to_send, Pours};
    ghost use Rattle.saber_pipe.specs.PipeFeeds.{IsToldMore};
    ghost use Rattle.saber_pipe.specs.Receipts.{written_by, mark_by, Settled};
    ghost use Rattle.saber_pipe.specs.Relays.{feed_of, backlog_of, taken_by, waiting_in, mark_in, faults_in, KnowsSent, Drains};

    /// Reads what another thread writes, where there is no backlog, or else what was written
    /// before.
    pub fn new(feed: PipeFeed<'a, R, P>, backlog: Option<Backlog<'a, P>>) -> Relay<'a, R, P>
        ensures feed { feed_of result ≡ feed.entry }
        ensures backlog { backlog_of result ≡ backlog.entry }
    {
        Relay { feed, backlog }
    }

    // Sends on what there is room for, and lets the end that reads know what was sent. It never
    // waits.
    fn pour(&mut self)
        ensures pours { Pours (backlog_of self.old) (backlog_of self.new) }
        ensures feed { IsToldMore (feed_of self.old) (feed_of self.new) }
        ensures told { KnowsSent self.new }
    {
        let Some(backlog) = self.backlog.take() else {
            return;
        };
        let backlog = backlog.pour(self.feed.rt);
        self.backlog = Some(backlog.tell(&mut self.feed));
    }

    /// Takes all that still comes, up to the mark, so that the writer doesn't wait for room that
    /// nobody makes. It waits for the writer.
    pub fn drain(&mut self)
        ensures drains { Drains (taken_by self.old) (taken_by self.new) (mark_in self.old) (mark_in self.new) }
        ensures over { mark_in self.new ≢ None }
        ensures waiting { waiting_in self.new ≡ [] }
        ensures faults { faults_in self.new ≡ faults_in self.old }
    {
        let rt = self.feed.rt;
        let mut pause = Pause::new();
        for _ in rt.forever() {
            self.feed.skip();
            if self.feed.is_over() {
                return;
            }
            if self.refill() {
                pause.reset();
            } else {
                pause.wait(rt);
            }
        }
        unreachable!()
    }

    /// Lets go of what a writer left on another thread. Since the mark was taken, nothing of it is
    /// still to be sent.
    pub fn dismiss(&mut self, backlog: Backlog<'_, P>)
        requires over { mark_in self.old ≢ None }
        ensures sent { to_send backlog.entry ≡ [] }
        ensures feed { IsToldMore (feed_of self.old) (feed_of self.new) }
        ensures backlog { backlog_of self.new ≡ backlog_of self.old }
    {
        self.feed.dismiss(backlog);
    }

    /// What both ends of a pipe come to: what was taken is a front of what was written, and all of
    /// it where a mark was taken, which is the one that was sent.
    pub fn settle(self, receipt: Receipt<P>)
        ensures { Settled (written_by receipt) (mark_by receipt) (taken_by self.entry) (mark_in self.entry) }
    {
        let Relay { feed, .. } = self;
        feed.settle(receipt);
    }
}

impl<'a, R: Wait, P: PipeName> Feed for Relay<'a, R, P> {
    ghost use Rattle.std.specs.Prelude.{◌≡◌, ◌<◌, ◌≤◌, length, IfOk, OnOk, OnErr};
    ghost use Rattle.saber_plan.specs.Outputs.{Rose};
    ghost use Rattle.saber_io.specs.Feeds.{Feeds, IsCut, Refills};
    ghost use Rattle.saber_pipe.specs.Backlogs.{Pours};
    ghost use Rattle.saber_pipe.specs.PipeFeeds.{got, TakesOne};
    ghost use Rattle.saber_pipe.specs.Relays.{feed_of, backlog_of, taken_by, waiting_in, mark_in, faults_in, KnowsSent};

    ghost taken = { taken_by };

    ghost waiting = { waiting_in };

    ghost mark = { mark_in };

    ghost faults = { faults_in };

    fn feed(&mut self, buf: &mut [u8]) -> Result<Fed, Failed>
        requires { 0 < length buf.old }
        ensures ok { IfOk result (λ fed. Feeds (waiting_in self.old) (waiting_in self.new) (mark_in self.old) buf.new fed) }
        ensures failed { OnErr result (IsCut (waiting_in self.old) (waiting_in self.new) (mark_in self.old)) }
        ensures stands { (taken_by self.new ≡ taken_by self.old) × (mark_in self.new ≡ mark_in self.old) }
        ensures cause { OnErr result (Rose (faults_in self.old) (faults_in self.new)) }
        ensures good { OnOk result (faults_in self.new ≡ faults_in self.old) }
        ensures count { faults_in self.old ≤ faults_in self.new }
        ensures got { got (feed_of self.new) ≡ got (feed_of self.old) }
        ensures backlog { backlog_of self.new ≡ backlog_of self.old }
    {
        self.feed.feed(buf)
    }

    fn refill(&mut self) -> bool
        ensures more { Refills (taken_by self.old) (taken_by self.new) (waiting_in self.old) (waiting_in self.new) (mark_in self.old) (mark_in self.new) result }
        ensures count { faults_in self.new ≡ faults_in self.old }
        ensures takes { TakesOne (feed_of self.old) (feed_of self.new) result }
        ensures pours { Pours (backlog_of self.old) (backlog_of self.new) }

        // Where it has what a writer left, the end that it reads from knows all that was sent.
        ensures told { KnowsSent self.new }
    {
        self.pour();
        self.feed.refill()
    }
}
