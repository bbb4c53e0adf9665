// Each command over its files.
ghost use Rattle.std.specs.Prelude.{◌≡◌, ◌≢◌, ℕ, List, IfSome};
ghost use Rattle.saber_plan.specs.Outputs.{Rose, appended_text};
ghost use Rattle.saber_words.specs.declared.commands.Command.{Command};
ghost use Rattle.saber_words.specs.Commands.{asked_command, AskedRun, run, IsSized};
ghost use Rattle.saber_notes.specs.declared.outcome.Outcome.{Outcome};
ghost use Rattle.saber_cli.specs.Outcomes.{IsClean, IsFileFault, IsBeforeRun, IsOfSecond};
ghost use Rattle.saber_cli.specs.Gives.{Gives};
ghost use Rattle.saber_cli.specs.Leaving.{LeavesTold};
ghost use Rattle.saber_cli.specs.Taken.{TakesTold};
ghost use Rattle.saber_cli.specs.Writes.{WritesTold};

use crate::answer::Ran;
use crate::plans::planned;
use crate::queries::query_text;
use crate::row_files::file_count;
use crate::runs::run_rows;
use crate::shows::put_text;
use saber_engine::Means;
use saber_io::{Files, Gate, Sink};
use saber_notes::Outcome;
use saber_words::{Check, Run};
use std::alloc::Global;
use std::sync::Wait;
use std::thread::Threads;

/// `run`: reads and checks the query, and answers it over its row files.
pub(crate) fn run_command<F: Files, K: Sink + Send, G: Gate + Sync, R: Threads + Wait + Sync>(
    rt: &R,
    alloc: Global,
    command: &Run<'_>,
    files: &mut F,
    sink: K,
    gate: &G,
) -> Ran<K>
    requires sizes { IsSized (asked_command (Command.Run command.now)) }
    ensures written { (out : List ℕ) × (K.written result.sink ≡ appended_text (K.written sink) out)
        × IfSome (F.told files.old) (λ t. Gives t.contents (asked_command (Command.Run command.now)) result.outcome result.tasks out) }
    ensures writes { WritesTold (asked_command (Command.Run command.now)) (F.told files.old) result.outcome result.tasks (K.writes sink) (K.writes result.sink) }
    ensures early { IsBeforeRun result.outcome → (result.tasks ≡ 0) × (result.sink ≡ sink) }
    ensures kinds { result.outcome ≢ Outcome.Usage }
    ensures alone { IsOfSecond result.outcome → ⊥ }
    ensures leaves { LeavesTold (asked_command (Command.Run command.now)) result.outcome (F.told files.old) (F.told files.new) }
    ensures taken { (r : AskedRun) → asked_command (Command.Run command.now) ≡ run r → TakesTold r result.outcome result.tasks (F.told files.old) (F.told files.new) }
    ensures cause { IsFileFault result.outcome → Rose (F.faults files.old) (F.faults files.new) }
    ensures read_good { IsClean result.outcome → F.faults files.new ≡ F.faults files.old }
    ensures write { result.outcome ≡ Outcome.WriteFault → Rose (K.faults sink) (K.faults result.sink) }
    ensures write_good { result.outcome ≢ Outcome.WriteFault → K.faults result.sink ≡ K.faults sink }
{
    let text = match query_text(alloc, files, command.query) {
        Ok(text) => text,
        Err(outcome) => {
            return Ran {
                outcome,
                sink,
                tasks: 0,
            };
        }
    };
    let plan = match planned(alloc, &text) {
        Ok(plan) => plan,
        Err(outcome) => {
            return Ran {
                outcome,
                sink,
                tasks: 0,
            };
        }
    };
    let streams = plan.streams().len() as u64;
    let given = file_count(&command.rows);
    if streams != given {
        return Ran {
            outcome: Outcome::FileCount {
                streams,
                files: given,
            },
            sink,
            tasks: 0,
        };
    }
    let means = Means { rt, alloc, gate };
    run_rows(&means, &plan, files, &command.rows, sink, &command.sizes)
}

/// `check`: reads and checks the query, and writes its text.
pub(crate) fn check_command<F: Files, K: Sink>(
    alloc: Global,
    command: &Check<'_>,
    files: &mut F,
    sink: K,
) -> Ran<K>
    ensures written { (out : List ℕ) × (K.written result.sink ≡ appended_text (K.written sink) out)
        × IfSome (F.told files.old) (λ t. Gives t.contents (asked_command (Command.Check command.now)) result.outcome result.tasks out) }
    ensures writes { WritesTold (asked_command (Command.Check command.now)) (F.told files.old) result.outcome result.tasks (K.writes sink) (K.writes result.sink) }
    ensures early { IsBeforeRun result.outcome → (result.tasks ≡ 0) × (result.sink ≡ sink) }
    ensures kinds { result.outcome ≢ Outcome.Usage }
    ensures alone { IsOfSecond result.outcome → ⊥ }
    ensures leaves { LeavesTold (asked_command (Command.Check command.now)) result.outcome (F.told files.old) (F.told files.new) }
    ensures cause { IsFileFault result.outcome → Rose (F.faults files.old) (F.faults files.new) }
    ensures read_good { IsClean result.outcome → F.faults files.new ≡ F.faults files.old }
    ensures write { result.outcome ≡ Outcome.WriteFault → Rose (K.faults sink) (K.faults result.sink) }
    ensures write_good { result.outcome ≢ Outcome.WriteFault → K.faults result.sink ≡ K.faults sink }
{
    match query_text(alloc, files, command.query) {
        Ok(text) => put_text(alloc, &text, sink),
        Err(outcome) => Ran {
            outcome,
            sink,
            tasks: 0,
        },
    }
}
