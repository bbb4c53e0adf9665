// A run over the row files of its query.
ghost use Rattle.std.specs.Prelude.{◌≡◌, ◌≢◌, ℕ, List, length};
ghost use Rattle.saber_plan.specs.Outputs.{Rose, appended_text};
ghost use Rattle.saber_plan.specs.Trees.{tree_of};
ghost use Rattle.saber_plan.specs.Checked.{IsChecked};
ghost use Rattle.saber_plan.specs.Sizes.{SizesFit};
ghost use Rattle.saber_notes.specs.declared.outcome.Outcome.{Outcome};
ghost use Rattle.saber_cli.specs.Due.{rows_named};
ghost use Rattle.saber_cli.specs.Outcomes.{IsClean, IsFileFault, IsBeforeRun, IsOfRun};
ghost use Rattle.saber_cli.specs.Answered.{AnsweredTold};
ghost use Rattle.saber_cli.specs.RowFiles.{UsesRows};
ghost use Rattle.saber_cli.specs.Taken.{CutTakesRows};
ghost use Rattle.saber_cli.specs.Uses.{KeepsFaults};
ghost use Rattle.saber_cli.specs.Writes.{WritesRows};

use crate::answer::{Ran, answer};
use crate::row_files::{close_rows, open_rows};
use saber_engine::Means;
use saber_io::{Files, Gate, Sink};
use saber_plan::{Plan, Sizes};
use saber_words::RowNames;
use std::sync::Wait;
use std::thread::Threads;

/// Opens the row files, as many as the plan has streams, answers the query over them, and gives
/// them back.
pub(crate) fn run_rows<F: Files, K: Sink + Send, G: Gate + Sync, R: Threads + Wait + Sync>(
    means: &Means<'_, G, R>,
    plan: &Plan,
    files: &mut F,
    rows: &RowNames<'_>,
    sink: K,
    sizes: &Sizes,
) -> Ran<K>
    requires checked { IsChecked (tree_of plan.now) }
    requires like { length (tree_of plan.now).streams ≡ length (rows_named rows.now) }
    requires sizes { SizesFit sizes.now }
    ensures written { (out : List ℕ) × (K.written result.sink ≡ appended_text (K.written sink) out)
        × AnsweredTold (tree_of plan.now) sizes.now (rows_named rows.now) (F.told files.old) result.outcome result.tasks out }
    ensures writes { WritesRows (tree_of plan.now) sizes.now (rows_named rows.now) (F.told files.old) result.outcome result.tasks (K.writes sink) (K.writes result.sink) }
    ensures early { IsBeforeRun result.outcome → (result.tasks ≡ 0) × (result.sink ≡ sink) }
    ensures kinds { IsOfRun result.outcome }
    ensures uses { UsesRows (rows_named rows.now) result.outcome (F.told files.old) (F.told files.new) }
    ensures taken { CutTakesRows (tree_of plan.now) sizes.now result.outcome result.tasks (rows_named rows.now)
        (F.told files.old) (F.told files.new) }
    ensures cause { IsFileFault result.outcome → Rose (F.faults files.old) (F.faults files.new) }
    ensures count { KeepsFaults (F.faults files.old) (F.faults files.new) }
    ensures read_good { IsClean result.outcome → F.faults files.new ≡ F.faults files.old }
    ensures write { result.outcome ≡ Outcome.WriteFault → Rose (K.faults sink) (K.faults result.sink) }
    ensures write_good { result.outcome ≢ Outcome.WriteFault → K.faults result.sink ≡ K.faults sink }
{
    match open_rows(means.alloc, files, rows) {
        Ok(mut inputs) => {
            let ran = answer(means, plan, &mut inputs, sink, sizes);
            close_rows(files, inputs);
            ran
        }
        Err(outcome) => Ran {
            outcome,
            sink,
            tasks: 0,
        },
    }
}
