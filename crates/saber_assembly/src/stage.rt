// The result stage.
ghost use Rattle.std.specs.Prelude.{◌≡◌, ◌≢◌, ◌≤◌, [], OnOk, Err};
ghost use Rattle.saber_plan.specs.Outputs.{raised_count, Rose, appended_text, AppendsPrefix};
ghost use Rattle.saber_io.specs.declared.outside.WriteFault.{WriteFault};

use saber_fragment::Operator;
use saber_io::{Pour, Sink, WriteFault};
use saber_plan::StageState;
use std::alloc::Global;

/// What became of a piece.
#[derive(Clone, Copy)]
pub enum Absorbed {
    Done,
    Stopped,
}

/// The result stage: the sink, the operator's store, and how many tasks are behind it. `stage_view`
/// is its view. Clauses name the store too, since an operator may know more of it than the parts of
/// windows.
pub struct Stage<S, K> {
    sink: K,
    store: S,
    k: u64,
    state: StageState,
}

// Writes a text in one write, and none where it is empty.
fn write_text<K: Sink>(sink: &mut K, text: &[u8]) -> Result<(), WriteFault>
    ensures ok { OnOk result (K.written sink.new ≡ appended_text (K.written sink.old) text.now) }
    ensures failed { result ≡ Err WriteFault.Failed → AppendsPrefix (K.written sink.old) (K.written sink.new) text.now }
    ensures memory { result ≡ Err WriteFault.NoMemory → K.written sink.new ≡ K.written sink.old }
    ensures cause { result ≡ Err WriteFault.Failed → Rose (K.faults sink.old) (K.faults sink.new) }
    ensures good { result ≢ Err WriteFault.Failed → K.faults sink.new ≡ K.faults sink.old }
    ensures count { K.faults sink.old ≤ K.faults sink.new }
    ensures one { result ≢ Err WriteFault.NoMemory → text.now ≢ [] → K.writes sink.new ≡ raised_count (K.writes sink.old) }
    ensures no_text { text.now ≡ [] → K.writes sink.new ≡ K.writes sink.old }
    ensures failed_one { result ≡ Err WriteFault.Failed → K.writes sink.new ≡ raised_count (K.writes sink.old) }
    ensures none { result ≡ Err WriteFault.NoMemory → K.writes sink.new ≡ K.writes sink.old }
{
    if text.is_empty() {
        return Ok(());
    }
    sink.write_all(text)
}

impl<S: Drop, K: Sink> Stage<S, K> {
    ghost use Rattle.std.specs.Prelude.{◌≡◌, ◌≢◌, ◌≤◌, ◌<◌, ◌^◌, ◌+◌, [], IfSome, IfNone};
    ghost use Rattle.saber_plan.specs.Outputs.{raised_count, Rose};
    ghost use Rattle.saber_plan.specs.Tasks.{nothing_kept};
    ghost use Rattle.saber_plan.specs.Inputs.{going_on};
    ghost use Rattle.saber_assembly.specs.Stages.{CanAbsorb, AddsText, AddsFront, WritesOnce, WritesNone, LeavesKept, TakesPiece, BeginsRuns, KeepsRuns};
    ghost use Rattle.saber_plan.specs.declared.stages.StageState.{StageState};
    ghost use Rattle.saber_assembly.specs.declared.stage.Absorbed.{Absorbed};

    /// A stage with no task behind it: of each run it keeps what stands before the first task.
    /// Takes no memory.
    pub fn new<O: Operator<Store = S>>(alloc: Global, operator: &O, sink: K) -> Stage<S, K>
        ensures sink { result.sink ≡ sink }
        ensures kept { O.contents result.store ≡ nothing_kept }
        ensures none { result.k ≡ 0 }
        ensures runs { result.state ≡ StageState.Running }
        ensures taken { O.has_taken operator.now result.store (going_on []) }
        ensures keeps { BeginsRuns O.plan O.contents O.has_taken K.written K.faults K.writes operator.now sink result }
    {
        Stage {
            sink,
            store: operator.empty_store(alloc),
            k: 0,
            state: StageState::Running,
        }
    }

    /// The sink, with what was written to it.
    pub fn into_sink(self) -> K
        ensures { result ≡ self.sink }
    {
        let Stage {
            sink,
            store: _store,
            k: _k,
            state: _state,
        } = self;
        sink
    }

    /// How many tasks are behind it.
    pub fn k(&self) -> u64
        ensures { result ≡ self.now.k }
    {
        self.k
    }

    /// Whether it goes on, or why it stopped.
    pub fn state(&self) -> StageState
        ensures { result ≡ self.now.state }
    {
        self.state
    }

    // Takes in the piece of the next task.
    fn absorb_piece<O: Operator<Store = S>>(
        &mut self,
        alloc: Global,
        operator: &O,
        piece: O::Piece,
    ) -> Absorbed
        requires running { self.old.state ≡ StageState.Running }
        requires few { self.old.k < 2 ^ 62 }
        requires next { CanAbsorb O.plan O.contents O.has_taken O.is_of operator.now self.old piece }
        ensures written { result ≡ Absorbed.Done → AddsText O.plan O.contents O.has_taken O.is_of operator.now K.written self.old self.new piece }
        ensures left { result ≡ Absorbed.Done → LeavesKept O.plan O.contents O.has_taken O.is_of operator.now self.old self.new piece }
        ensures rises { result ≡ Absorbed.Done → self.new.k ≡ self.old.k + 1 }
        ensures runs { result ≡ Absorbed.Done → self.new.state ≡ StageState.Running }
        ensures taken { result ≡ Absorbed.Done → TakesPiece O.plan O.contents O.has_taken O.is_of operator.now self.old self.new piece }
        ensures stopped { result ≡ Absorbed.Stopped → self.new.state ≢ StageState.Running }
        ensures stays { result ≡ Absorbed.Stopped → self.new.k ≡ self.old.k }
        ensures failed { self.new.state ≡ StageState.SinkFailed → AddsFront O.plan O.contents O.has_taken O.is_of operator.now K.written self.old self.new piece }
        ensures cause { self.new.state ≡ StageState.SinkFailed → Rose (K.faults self.old.sink) (K.faults self.new.sink) }
        ensures good { self.new.state ≢ StageState.SinkFailed → K.faults self.new.sink ≡ K.faults self.old.sink }
        ensures memory { self.new.state ≡ StageState.NoMemory → K.written self.new.sink ≡ K.written self.old.sink }
        ensures count { K.faults self.old.sink ≤ K.faults self.new.sink }
        ensures one { result ≡ Absorbed.Done → WritesOnce O.plan O.contents O.has_taken O.is_of operator.now K.writes self.old self.new piece }
        ensures no_text { result ≡ Absorbed.Done → WritesNone O.plan O.contents O.has_taken O.is_of operator.now K.writes self.old self.new piece }
        ensures failed_one { self.new.state ≡ StageState.SinkFailed → K.writes self.new.sink ≡ raised_count (K.writes self.old.sink) }
        ensures no_write { self.new.state ≡ StageState.NoMemory → K.writes self.new.sink ≡ K.writes self.old.sink }
    {
        let mut text = Vec::new(alloc);
        match operator.take_in(alloc, &mut self.store, piece, &mut text) {
            Err(_) => {
                self.state = StageState::NoMemory;
                Absorbed::Stopped
            }
            Ok(()) => match write_text(&mut self.sink, &text) {
                Ok(()) => {
                    operator.drop_closed(&mut self.store);
                    self.k += 1;
                    Absorbed::Done
                }
                Err(WriteFault::Failed) => {
                    self.state = StageState::SinkFailed;
                    Absorbed::Stopped
                }
                Err(WriteFault::NoMemory) => {
                    self.state = StageState::NoMemory;
                    Absorbed::Stopped
                }
            },
        }
    }

    /// Takes in the piece of the next task, or the mark that memory lacked for it. Merge, text, one
    /// write, then the closed parts go and the count rises; so want of memory leaves what was
    /// written.
    pub fn absorb<O: Operator<Store = S>>(
        &mut self,
        alloc: Global,
        operator: &O,
        piece: Option<O::Piece>,
    ) -> Absorbed
        requires running { self.old.state ≡ StageState.Running }
        requires few { self.old.k < 2 ^ 62 }
        requires next { IfSome piece (λ p. CanAbsorb O.plan O.contents O.has_taken O.is_of operator.now self.old p) }

        // The step of the definitions.
        ensures written { result ≡ Absorbed.Done → IfSome piece (λ p. AddsText O.plan O.contents O.has_taken O.is_of operator.now K.written self.old self.new p) }
        ensures left { result ≡ Absorbed.Done → IfSome piece (λ p. LeavesKept O.plan O.contents O.has_taken O.is_of operator.now self.old self.new p) }
        ensures rises { result ≡ Absorbed.Done → self.new.k ≡ self.old.k + 1 }
        ensures runs { result ≡ Absorbed.Done → self.new.state ≡ StageState.Running }

        // And the store has taken in all up to the piece's end.
        ensures taken { result ≡ Absorbed.Done → IfSome piece (λ p. TakesPiece O.plan O.contents O.has_taken O.is_of operator.now self.old self.new p) }

        // What a stop leaves, and why it comes.
        ensures stopped { result ≡ Absorbed.Stopped → self.new.state ≢ StageState.Running }
        ensures stays { result ≡ Absorbed.Stopped → self.new.k ≡ self.old.k }
        ensures none { IfNone piece ((result ≡ Absorbed.Stopped) × (self.new.state ≡ StageState.NoMemory)) }
        ensures failed { self.new.state ≡ StageState.SinkFailed → IfSome piece (λ p. AddsFront O.plan O.contents O.has_taken O.is_of operator.now K.written self.old self.new p) }
        ensures cause { self.new.state ≡ StageState.SinkFailed → Rose (K.faults self.old.sink) (K.faults self.new.sink) }
        ensures good { self.new.state ≢ StageState.SinkFailed → K.faults self.new.sink ≡ K.faults self.old.sink }
        ensures memory { self.new.state ≡ StageState.NoMemory → K.written self.new.sink ≡ K.written self.old.sink }
        ensures count { K.faults self.old.sink ≤ K.faults self.new.sink }

        // How many writes there were: one for a task that has text, also where it fails, and none
        // for one without, nor where memory lacks.
        ensures one { result ≡ Absorbed.Done → IfSome piece (λ p. WritesOnce O.plan O.contents O.has_taken O.is_of operator.now K.writes self.old self.new p) }
        ensures no_text { result ≡ Absorbed.Done → IfSome piece (λ p. WritesNone O.plan O.contents O.has_taken O.is_of operator.now K.writes self.old self.new p) }
        ensures failed_one { self.new.state ≡ StageState.SinkFailed → K.writes self.new.sink ≡ raised_count (K.writes self.old.sink) }
        ensures no_write { self.new.state ≡ StageState.NoMemory → K.writes self.new.sink ≡ K.writes self.old.sink }

        // So a stage after k tasks, given the piece of task k, is one after k + 1, or stopped at k.
        ensures keeps { KeepsRuns O.plan O.contents O.has_taken K.written K.faults K.writes operator.now O.is_of self.old piece self.new }
    {
        match piece {
            Some(piece) => self.absorb_piece(alloc, operator, piece),
            None => {
                self.state = StageState::NoMemory;
                Absorbed::Stopped
            }
        }
    }
}

impl<S: Drop, K: Pour> Stage<S, K> {
    ghost use Rattle.std.specs.Prelude.{◌≡◌};
    ghost use Rattle.saber_plan.specs.Tasks.{Kept};
    ghost use Rattle.saber_assembly.specs.Stages.{stage_view, HasPoured};

    /// Has its sink let go of what that holds back, as far as there is room for it. Nothing that is
    /// seen of the stage changes.
    pub fn pour(&mut self)
        ensures poured { HasPoured K.backlog K.had_no_room self.new }
        ensures store { self.new.store ≡ self.old.store }
        ensures tasks { self.new.k ≡ self.old.k }
        ensures state { self.new.state ≡ self.old.state }
        ensures writes { K.writes self.new.sink ≡ K.writes self.old.sink }
        ensures seen { (contents : S → Kept) → stage_view contents K.written K.faults K.writes self.new ≡ stage_view contents K.written K.faults K.writes self.old }
    {
        self.sink.pour();
    }
}
