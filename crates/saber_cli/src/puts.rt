// A text that goes out.
ghost use Rattle.std.specs.Prelude.{◌≡◌, ◌≢◌, ◌≤◌, ℕ, List};
ghost use Rattle.saber_plan.specs.Outputs.{raised_by, raised_count, Rose, appended_text};
ghost use Rattle.saber_notes.specs.declared.outcome.Outcome.{Outcome};
ghost use Rattle.saber_cli.specs.Puts.{IsOfPut, PutsText};
ghost use Rattle.saber_cli.specs.Writes.{text_writes};

use crate::answer::Ran;
use saber_io::{Sink, WriteFault};
use saber_notes::Outcome;

/// Writes a text, in one write, for which so many tasks are assembled. Where memory lacks nothing
/// goes out, and none counts.
pub(crate) fn put<K: Sink>(text: &[u8], mut sink: K, tasks: u64) -> Ran<K>
    ensures written { (out : List ℕ) × (K.written result.sink ≡ appended_text (K.written sink) out) × PutsText text.now result.outcome out }
    ensures kinds { IsOfPut result.outcome }
    ensures tasks { result.outcome ≢ Outcome.NoMemory → result.tasks ≡ tasks }
    ensures no_tasks { result.outcome ≡ Outcome.NoMemory → result.tasks ≡ 0 }
    ensures few { result.tasks ≤ tasks }
    ensures write { result.outcome ≡ Outcome.WriteFault → Rose (K.faults sink) (K.faults result.sink) }
    ensures write_good { result.outcome ≢ Outcome.WriteFault → K.faults result.sink ≡ K.faults sink }
    ensures one { result.outcome ≢ Outcome.NoMemory → K.writes result.sink ≡ raised_count (K.writes sink) }
    ensures none { result.outcome ≡ Outcome.NoMemory → K.writes result.sink ≡ K.writes sink }
    ensures writes { K.writes result.sink ≡ raised_by (K.writes sink) (text_writes result.outcome) }
{
    match sink.write_all(text) {
        Ok(()) => Ran {
            outcome: Outcome::Done,
            sink,
            tasks,
        },
        Err(WriteFault::Failed) => Ran {
            outcome: Outcome::WriteFault,
            sink,
            tasks,
        },
        Err(WriteFault::NoMemory) => Ran {
            outcome: Outcome::NoMemory,
            sink,
            tasks: 0,
        },
    }
}
