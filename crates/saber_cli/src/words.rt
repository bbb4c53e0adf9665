// The command that the words are, over its files.
ghost use Rattle.std.specs.Prelude.{◌≡◌, ◌≢◌, ℕ, List, None, Some, map};
ghost use Rattle.saber_plan.specs.Outputs.{Rose, appended_text};
ghost use Rattle.saber_words.specs.Commands.{run, demo, chain, command_of};
ghost use Rattle.saber_words.specs.Chain.{AskedChain};
ghost use Rattle.saber_notes.specs.declared.outcome.Outcome.{Outcome};
ghost use Rattle.saber_chain.specs.Sinks.{seen_of};
ghost use Rattle.saber_cli.specs.Outcomes.{IsClean, IsFileFault, IsBeforeRun, IsOfSecond};
ghost use Rattle.saber_cli.specs.Due.{IfCommand, IfAsked};
ghost use Rattle.saber_cli.specs.Gives.{AnswersTold};
ghost use Rattle.saber_cli.specs.Chained.{AnswersChain};
ghost use Rattle.saber_cli.specs.Leaving.{LeavesTold};
ghost use Rattle.saber_cli.specs.Taken.{TakesTold};
ghost use Rattle.saber_cli.specs.Tells.{TellsRun};
ghost use Rattle.saber_cli.specs.Unread.{unread, EndsUnread};
ghost use Rattle.saber_cli.specs.Writes.{WritesTold};

use crate::answer::Ran;
use crate::chains::chain_command;
use crate::commands::{check_command, run_command};
use crate::demo::demo_command;
use saber_io::{Files, Gate, Sink};
use saber_notes::Outcome;
use saber_words::{Command, WordsFault, read_words};
use std::alloc::Global;
use std::sync::Wait;
use std::thread::Threads;

// How a call ends whose words were not read.
pub(crate) fn unread(fault: WordsFault) -> Outcome
    ensures { result ≡ unread fault }
{
    match fault {
        WordsFault::NoMemory => Outcome::NoMemory,
        WordsFault::Usage => Outcome::Usage,
    }
}

/// Reads the words, and does what they ask for.
pub(crate) fn run_words<F: Files, K: Sink + Send + Drop, G: Gate + Sync, R: Threads + Wait + Sync>(
    rt: &R,
    alloc: Global,
    words: &[&str],
    files: &mut F,
    sink: K,
    gate: &G,
) -> Ran<K>
where
    F::Src: Send + Drop,
    ensures written { (out : List ℕ) × (K.written result.sink ≡ appended_text (K.written sink) out)
        × AnswersTold (map (λ word. word.now) words.now) (F.told files.old) result.outcome result.tasks out }
    ensures chained { IfAsked chain (map (λ word. word.now) words.now)
        (λ a. AnswersChain a result.outcome result.tasks (F.told files.old) (F.told files.new) (seen_of K.written K.writes sink) (seen_of K.written K.writes result.sink)) }
    ensures second { IsOfSecond result.outcome → (a : AskedChain) × (command_of (map (λ word. word.now) words.now) ≡ Some (chain a)) }
    ensures told { IfAsked demo (map (λ word. word.now) words.now) (λ d. TellsRun d result.outcome result.tasks (K.written sink) (K.written result.sink)) }
    ensures unread { command_of (map (λ word. word.now) words.now) ≡ None → EndsUnread result.outcome result.tasks files.old files.new sink result.sink }
    ensures usage { result.outcome ≡ Outcome.Usage → command_of (map (λ word. word.now) words.now) ≡ None }
    ensures writes { IfCommand (map (λ word. word.now) words.now) (λ c. WritesTold c (F.told files.old) result.outcome result.tasks (K.writes sink) (K.writes result.sink)) }
    ensures early { IsBeforeRun result.outcome → (result.tasks ≡ 0) × (result.sink ≡ sink) }
    ensures leaves { IfCommand (map (λ word. word.now) words.now) (λ c. LeavesTold c result.outcome (F.told files.old) (F.told files.new)) }
    ensures taken { IfAsked run (map (λ word. word.now) words.now) (λ r. TakesTold r result.outcome result.tasks (F.told files.old) (F.told files.new)) }
    ensures cause { IsFileFault result.outcome → Rose (F.faults files.old) (F.faults files.new) }
    ensures read_good { IsClean result.outcome → F.faults files.new ≡ F.faults files.old }
    ensures write { result.outcome ≡ Outcome.WriteFault → Rose (K.faults sink) (K.faults result.sink) }
    ensures write_good { result.outcome ≢ Outcome.WriteFault → K.faults result.sink ≡ K.faults sink }
{
    let command = match read_words(alloc, words) {
        Ok(command) => command,
        Err(fault) => {
            return Ran {
                outcome: unread(fault),
                sink,
                tasks: 0,
            };
        }
    };
    match &command {
        Command::Run(run) => run_command(rt, alloc, run, files, sink, gate),
        Command::Check(check) => check_command(alloc, check, files, sink),
        Command::Demo(demo) => demo_command(rt, alloc, demo, sink, gate),
        Command::Chain(chain) => chain_command(rt, alloc, chain, files, sink, gate),
    }
}
