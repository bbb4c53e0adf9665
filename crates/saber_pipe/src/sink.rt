// The end of a pipe that is written to.
ghost use Rattle.std.specs.Prelude.{◌≡◌, None};
ghost use Rattle.saber_pipe.specs.Outboxes.{whole_of};

use crate::outbox::Outbox;
use crate::rule::{End, Line};
use crate::{Backlog, PipeName, Receipt};
use saber_io::{EndMark, Pour, Sink, WriteFault};
use saber_pause::Pause;
use std::alloc::Global;
use std::marker::Brand;
use std::sync::Wait;
use std::sync::atomic::{AtomicBool, Ordering};

/// The end that is written to. It keeps what was written until it is poured.
#[derive(Drop)]
pub struct PipeSink<'a, R: Wait, P: PipeName> {
    rt: &'a R,
    alloc: Global,
    alone: &'a AtomicBool,
    pub(crate) outbox: Outbox<'a, P>,
    pub ghost unpromised: { whole_of outbox ≡ None },
}

impl<'a, R: Wait, P: PipeName> PipeSink<'a, R, P> {
    ghost use Rattle.std.specs.Prelude.{◌≡◌, ◌++◌, [], Some, None, true, false};
    ghost use Rattle.crossbeam_queue.specs.Passes.{view, IsPassOf, ruled_capacity};
    ghost use Rattle.saber_pipe.specs.Order.{log};
    ghost use Rattle.saber_pipe.specs.Outboxes.{whole_of};
    ghost use Rattle.saber_pipe.specs.Receipts.{promised, written_by, mark_by};
    ghost use Rattle.saber_pipe.specs.Sinks.{sent, kept, written};
    ghost use Rattle.saber_pipe.specs.Backlogs.{sent_by, to_send, IsPoured, IsSentUnlessAlone};

    pub(crate) fn new(
        rt: &'a R,
        alloc: Global,
        alone: &'a AtomicBool,
        line: &'a Line,
        end: End,
    ) -> PipeSink<'a, R, P>
        requires room { ruled_capacity line.now ≡ 64 }
        requires own { IsPassOf line.now end }
        requires of_pipe { P.id ≡ Some end.table_id }
        requires first { view end ≡ log true false [] [] None }
        ensures sent { sent result ≡ [] }
        ensures kept { kept result ≡ [] }
    {
        let outbox = Outbox::new(alloc, line, end);
        PipeSink {
            rt,
            alloc,
            alone,
            outbox,
        }
    }

    /// Ends what was written with this mark, once all that is kept was sent. It waits for room,
    /// unless the sink is alone: then what is still to be sent is handed over to who reads the
    /// pipe.
    pub fn finish(self, mark: EndMark) -> (Receipt<P>, Backlog<'a, P>)
        ensures written { written_by result.0 ≡ written self.entry }
        ensures mark { mark_by result.0 ≡ Some mark }
        ensures sent { promised result.0 ≡ sent_by result.1 ++ to_send result.1 }
        ensures poured { IsPoured result.1 }
        ensures until { IsSentUnlessAlone result.1 }
    {
        let PipeSink {
            rt,
            alone,
            mut outbox,
            ..
        } = self;
        let receipt = outbox.promise::<Brand>(mark);
        let backlog = Backlog::new(outbox, mark);
        (receipt, backlog.send(rt, alone))
    }
}

impl<'a, R: Wait, P: PipeName> Sink for PipeSink<'a, R, P> {
    ghost use Rattle.std.specs.Prelude.{◌≡◌, ◌≢◌, ◌≤◌, ◌++◌, Some, OnOk, OnErr, Err};
    ghost use Rattle.saber_io.specs.declared.outside.WriteFault.{WriteFault};
    ghost use Rattle.saber_plan.specs.Outputs.{raised_count, Rose, appended_text, AppendsPrefix};
    ghost use Rattle.saber_pipe.specs.Sinks.{sent, kept, written, faults_of, writes_of};

    ghost written = { λ s. Some (written s) };

    ghost faults = { faults_of };

    ghost writes = { writes_of };

    #[tactic(auto, using(crate::proofs::Moves::one_write))]
    fn write_all(&mut self, piece: &[u8]) -> Result<(), WriteFault>
        ensures ok { OnOk result (Some (written self.new) ≡ appended_text (Some (written self.old)) piece.now) }
        ensures never { result ≢ Err WriteFault.Failed }
        ensures failed { result ≡ Err WriteFault.Failed →
            AppendsPrefix (Some (written self.old)) (Some (written self.new)) piece.now }
        ensures memory { result ≡ Err WriteFault.NoMemory → Some (written self.new) ≡ Some (written self.old) }
        ensures cause { result ≡ Err WriteFault.Failed → Rose (faults_of self.old) (faults_of self.new) }
        ensures count { faults_of self.old ≤ faults_of self.new }
        ensures one { result ≢ Err WriteFault.NoMemory → writes_of self.new ≡ raised_count (writes_of self.old) }
        ensures none { result ≡ Err WriteFault.NoMemory → writes_of self.new ≡ writes_of self.old }
        ensures kept { OnErr result (kept self.new ≡ kept self.old) }
        ensures sent { sent self.new ≡ sent self.old }
    {
        match self.outbox.keep(self.alloc, piece) {
            Ok(()) => Ok(()),
            Err(_) => Err(WriteFault::NoMemory),
        }
    }
}

impl<'a, R: Wait, P: PipeName> Pour for PipeSink<'a, R, P> {
    ghost use Rattle.std.specs.Prelude.{◌≡◌, ◌++◌, [], ◌⊎◌, Some};
    ghost use Rattle.saber_pipe.specs.Sinks.{sent, kept, kept_bytes, written, faults_of, writes_of, MayHaveHadNoRoom};

    ghost backlog = { kept_bytes };

    ghost had_no_room = { MayHaveHadNoRoom };

    // Sends all that is kept, and waits for room. Where the sink is alone, it sends what there is
    // room for, and never waits.
    #[tactic(auto, using(crate::proofs::Moves::no_bytes_kept))]
    fn pour(&mut self)
        ensures written { Some (written self.new) ≡ Some (written self.old) }
        ensures count { faults_of self.new ≡ faults_of self.old }
        ensures writes { writes_of self.new ≡ writes_of self.old }
        ensures all { sent self.new ++ kept self.new ≡ sent self.old ++ kept self.old }
        ensures poured { (kept_bytes self.new ≡ []) ⊎ MayHaveHadNoRoom self.new }
        ensures until { (kept self.new ≡ []) ⊎ MayHaveHadNoRoom self.new }
    {
        let rt = self.rt;
        let mut pause = Pause::new();
        for _ in rt.forever() {
            self.outbox.send_all(rt);
            if self.outbox.is_empty() || self.alone.load(Ordering::SeqCst) {
                return;
            }
            pause.wait(rt);
        }
        unreachable!()
    }
}
