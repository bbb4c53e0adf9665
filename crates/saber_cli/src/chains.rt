// The command `chain`: two queries over row files.
ghost use Rattle.std.specs.Prelude.{◌≡◌, ◌≢◌, ℕ, List, length, false};
ghost use Rattle.saber_plan.specs.Outputs.{Rose, appended_text};
ghost use Rattle.saber_plan.specs.Trees.{tree_of};
ghost use Rattle.saber_plan.specs.Checked.{IsChecked};
ghost use Rattle.saber_plan.specs.Sizes.{SizesFit};
ghost use Rattle.saber_words.specs.declared.commands.Command.{Command};
ghost use Rattle.saber_words.specs.Commands.{asked_command, chain, IsSized};
ghost use Rattle.saber_words.specs.Chain.{asked_chain};
ghost use Rattle.saber_notes.specs.declared.outcome.Outcome.{Outcome};
ghost use Rattle.saber_chain.specs.Sinks.{seen_of};
ghost use Rattle.saber_cli.specs.Outcomes.{IsClean, IsFileFault, IsBeforeRun, IsOfChain};
ghost use Rattle.saber_cli.specs.Due.{rows_named};
ghost use Rattle.saber_cli.specs.Uses.{KeepsFaults};
ghost use Rattle.saber_cli.specs.Chained.{AnswersChain};
ghost use Rattle.saber_cli.specs.Leaving.{LeavesTold};
ghost use Rattle.saber_cli.specs.Chaining.{ChainedTold, UsesChainRows};

use crate::answer::Ran;
use crate::chain_answer::{RanBoth, answer_chain};
use crate::query_plans::chain_plans;
use crate::row_files::{close_rows, open_rows};
use saber_chain::Plans;
use saber_engine::Means;
use saber_io::{Files, Gate, Sink};
use saber_plan::Sizes;
use saber_words::{Chain, RowNames};
use std::alloc::Global;
use std::sync::Wait;
use std::thread::Threads;

// Opens the row files, as many as the first plan has streams, runs both plans, and gives the files
// back.
fn chain_rows<F: Files, K: Sink + Send + Drop, G: Gate + Sync, R: Threads + Wait + Sync>(
    means: &Means<'_, G, R>,
    plans: &Plans,
    files: &mut F,
    rows: &RowNames<'_>,
    sink: K,
    sizes: &Sizes,
) -> Ran<K>
where
    F::Src: Send + Drop,
    requires first { IsChecked (tree_of plans.now.first) }
    requires second { IsChecked (tree_of plans.now.second) }
    requires one { length (tree_of plans.now.second).streams ≡ 1 }
    requires like { length (tree_of plans.now.first).streams ≡ length (rows_named rows.now) }
    requires sizes { SizesFit sizes.now }
    requires open_end { sizes.now.flush ≡ false }
    ensures written { (out : List ℕ) × (K.written result.sink ≡ appended_text (K.written sink) out) }
    ensures runs { ChainedTold (tree_of plans.now.first) (tree_of plans.now.second) sizes.now (rows_named rows.now) (F.told files.old) (F.told files.new)
        (seen_of K.written K.writes sink) (seen_of K.written K.writes result.sink) result.outcome result.tasks }
    ensures early { IsBeforeRun result.outcome → (result.tasks ≡ 0) × (result.sink ≡ sink) }
    ensures kinds { IsOfChain result.outcome }
    ensures uses { UsesChainRows (rows_named rows.now) result.outcome (F.told files.old) (F.told files.new) }
    ensures cause { IsFileFault result.outcome → Rose (F.faults files.old) (F.faults files.new) }
    ensures count { KeepsFaults (F.faults files.old) (F.faults files.new) }
    ensures read_good { IsClean result.outcome → F.faults files.new ≡ F.faults files.old }
    ensures write { result.outcome ≡ Outcome.WriteFault → Rose (K.faults sink) (K.faults result.sink) }
    ensures write_good { result.outcome ≢ Outcome.WriteFault → K.faults result.sink ≡ K.faults sink }
{
    match open_rows(means.alloc, files, rows) {
        Ok(inputs) => {
            let RanBoth {
                outcome,
                stopped: _,
                inputs,
                sink,
                tasks,
            } = answer_chain(means, plans, inputs, sink, sizes);
            close_rows(files, inputs);
            Ran {
                outcome,
                sink,
                tasks,
            }
        }
        Err(outcome) => Ran {
            outcome,
            sink,
            tasks: 0,
        },
    }
}

/// `chain`: reads and checks both queries, and answers the second one over the lines of the first,
/// which it answers over its row files.
pub(crate) fn chain_command<
    F: Files,
    K: Sink + Send + Drop,
    G: Gate + Sync,
    R: Threads + Wait + Sync,
>(rt: &R, alloc: Global, command: &Chain<'_>, files: &mut F, sink: K, gate: &G) -> Ran<K>
where
    F::Src: Send + Drop,
    requires sizes { IsSized (asked_command (Command.Chain command.now)) }
    ensures written { (out : List ℕ) × (K.written result.sink ≡ appended_text (K.written sink) out) }
    ensures chained { AnswersChain (asked_chain command.now) result.outcome result.tasks (F.told files.old) (F.told files.new) (seen_of K.written K.writes sink) (seen_of K.written K.writes result.sink) }
    ensures early { IsBeforeRun result.outcome → (result.tasks ≡ 0) × (result.sink ≡ sink) }
    ensures kinds { result.outcome ≢ Outcome.Usage }
    ensures leaves { LeavesTold (chain (asked_chain command.now)) result.outcome (F.told files.old) (F.told files.new) }
    ensures cause { IsFileFault result.outcome → Rose (F.faults files.old) (F.faults files.new) }
    ensures read_good { IsClean result.outcome → F.faults files.new ≡ F.faults files.old }
    ensures write { result.outcome ≡ Outcome.WriteFault → Rose (K.faults sink) (K.faults result.sink) }
    ensures write_good { result.outcome ≢ Outcome.WriteFault → K.faults result.sink ≡ K.faults sink }
{
    let plans = match chain_plans(alloc, files, command) {
        Ok(plans) => plans,
        Err(outcome) => {
            return Ran {
                outcome,
                sink,
                tasks: 0,
            };
        }
    };
    let means = Means { rt, alloc, gate };
    chain_rows(&means, &plans, files, &command.rows, sink, &command.sizes)
}
