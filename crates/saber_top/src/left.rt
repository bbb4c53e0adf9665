// Several plans over the left file.
ghost use Rattle.std.specs.Prelude.{◌≡◌, ◌≢◌, ◌≤◌, ℕ, List, [], IfOk, IfErr, IfSome, OnErr, OnOk, length, map};
ghost use Rattle.std.specs.List.{AllByRecursion, AllZip};
ghost use Rattle.saber_plan.specs.Outputs.{Rose};
ghost use Rattle.saber_plan.specs.Checked.{IsChecked};
ghost use Rattle.saber_plan.specs.Sizes.{SizesFit};
ghost use Rattle.saber_plan.specs.Trees.{tree_of};
ghost use Rattle.saber_engine.specs.Sources.{each_input, GaveAll};
ghost use Rattle.saber_notes.specs.declared.early.Early.{Early};
ghost use Rattle.saber_notes.specs.declared.outcome.InputFile.{InputFile};
ghost use Rattle.saber_notes.specs.declared.outcome.Outcome.{Outcome};
ghost use Rattle.saber_cli.specs.Outcomes.{IsClean, IsFileFault};
ghost use Rattle.saber_top.specs.Commands.{out_names};
ghost use Rattle.saber_top.specs.Queries.{IsThere, MayShare};
ghost use Rattle.saber_top.specs.Shared.{RunsOver, RunsPart, outcomes_of, parts_in};
ghost use Rattle.saber_top.specs.ManyLeaves.{LeftAlone, LeftRan, UsesLeft};
ghost use Rattle.saber_top.specs.Made.{EarlyMade, IsOfCreate, IsOfLeft, MadeFirst, naming_all};
ghost use Rattle.saber_top.specs.Ends.{IsCreateEnd, IsFileEnd, IsReadWell};

use crate::outs::job_each;
use crate::parts::{PartList, part_all};
use saber_cli::{InputFile, close_rows, open_row};
use saber_engine::{Inputs, Means, engines};
use saber_io::{Files, Gate, Outs, Source};
use saber_notes::{Early, Outcome};
use saber_plan::{Plan, Sizes};
use std::collections::VecDeque;
use std::sync::Wait;
use std::thread::Threads;

/// Creates the files of the answers, and runs the plans over one source, each into its own file.
fn run_source<S: Source, U: Outs, G: Gate + Sync, R: Threads + Wait + Sync>(
    means: &Means<'_, G, R>,
    plans: &[Plan],
    inputs: &mut Inputs<S>,
    names: &[&str],
    outs: &mut U,
    sizes: &Sizes,
) -> Result<PartList<U::Out>, Early>
    requires some { plans.now ≢ [] }
    requires few { length plans.now ≤ 8 }
    requires many { length plans.now ≡ length (map (λ name. name.now) names.now) }
    requires checked { AllByRecursion (λ plan. IsChecked (tree_of plan)) plans.now }
    requires share { MayShare (map tree_of plans.now) }
    requires inputs { length (each_input S.left inputs.old) ≡ 1 }
    requires sizes { SizesFit sizes.now }
    requires threads { sizes.now.threads ≤ 8 }

    // Of each plan: what a run of it alone over this source gives.
    ensures parts { IfOk result (λ parts. AllZip (λ plan part. RunsPart S.left S.faults U.Out.written U.Out.faults U.Out.writes (tree_of plan) sizes.now inputs.old inputs.new part) plans.now (parts_in parts)) }

    ensures takes { OnOk result ((taken : List (List ℕ)) × GaveAll (each_input S.left inputs.old) taken (each_input S.left inputs.new)) }

    // Where none is run, the source is untouched.
    ensures untouched { OnErr result (inputs.new ≡ inputs.old) }
    ensures made { OnOk result (U.asked outs.new ≡ naming_all (U.asked outs.old) (out_names (map (λ name. name.now) names.now))) }
    ensures early { IfErr result (λ e. MadeFirst (map (λ name. name.now) names.now) (EarlyMade 0 e) (U.asked outs.old) (U.asked outs.new)) }
    ensures kinds { IfErr result IsOfCreate }
    ensures cause { IfErr result (λ e. IsCreateEnd e → Rose (U.faults outs.old) (U.faults outs.new)) }
    ensures good { OnOk result (U.faults outs.new ≡ U.faults outs.old) }
    ensures other_good { IfErr result (λ e. (IsCreateEnd e → ⊥) → U.faults outs.new ≡ U.faults outs.old) }
{
    let alloc = means.alloc;
    let parts = match VecDeque::with_capacity(alloc, plans.len()) {
        Ok(parts) => parts,
        Err(_) => return Err(Early::NoMemory),
    };
    let jobs = match job_each(alloc, outs, plans, names, 0) {
        Ok(jobs) => jobs,
        Err(early) => return Err(early),
    };
    match engines(means.rt, alloc, Vec::from(jobs), inputs, sizes, means.gate) {
        Ok(rans) => Ok(part_all(rans, sizes.ring, parts)),
        Err(_) => Err(Early::NoMemory),
    }
}

// Why the left file was not opened.
fn unopened(outcome: Outcome) -> Early
    ensures file { outcome ≡ Outcome.OpenFault InputFile.Left → result ≡ Early.LeftUnopened }
    ensures memory { outcome ≡ Outcome.NoMemory → result ≡ Early.NoMemory }
{
    match outcome {
        Outcome::OpenFault(_) => Early::LeftUnopened,
        _ => Early::NoMemory,
    }
}

/// Opens the left file, runs the plans over it, and gives it back.
pub(crate) fn run_left<F: Files, U: Outs, G: Gate + Sync, R: Threads + Wait + Sync>(
    means: &Means<'_, G, R>,
    plans: &[Plan],
    files: &mut F,
    left: &str,
    names: &[&str],
    outs: &mut U,
    sizes: &Sizes,
) -> Result<PartList<U::Out>, Early>
    requires some { plans.now ≢ [] }
    requires few { length plans.now ≤ 8 }
    requires many { length plans.now ≡ length (map (λ name. name.now) names.now) }
    requires checked { AllByRecursion (λ plan. IsChecked (tree_of plan)) plans.now }
    requires share { MayShare (map tree_of plans.now) }
    requires sizes { SizesFit sizes.now }
    requires threads { sizes.now.threads ≤ 8 }

    // Of each plan: what a run of it alone over this file gives.
    ensures parts { IfOk result (λ parts. AllZip (λ plan part. RunsOver U.Out.written U.Out.faults U.Out.writes (tree_of plan) sizes.now left.now (F.told files.old) (F.told files.new) part) plans.now (parts_in parts)) }

    // The files of the answers are created behind a left file that is there.
    ensures there { OnOk result (IfSome (F.told files.old) (λ t. IsThere t.contents left.now)) }
    ensures there_early { IfErr result (λ e. IsCreateEnd e → IfSome (F.told files.old) (λ t. IsThere t.contents left.now)) }
    ensures kinds { IfErr result IsOfLeft }
    ensures used { IfOk result (λ parts. UsesLeft left.now (LeftRan (outcomes_of (parts_in parts))) (F.told files.old) (F.told files.new)) }
    ensures uses { IfErr result (λ e. UsesLeft left.now (LeftAlone e) (F.told files.old) (F.told files.new)) }

    // Faults of files.
    ensures reads { IfOk result (λ parts. AllByRecursion (λ part. IsFileFault part.outcome → Rose (F.faults files.old) (F.faults files.new)) (parts_in parts)) }
    ensures reads_good { IfOk result (λ parts. AllByRecursion (λ part. IsClean part.outcome → F.faults files.new ≡ F.faults files.old) (parts_in parts)) }
    ensures file { IfErr result (λ e. IsFileEnd e → Rose (F.faults files.old) (F.faults files.new)) }
    ensures file_good { IfErr result (λ e. IsReadWell e → F.faults files.new ≡ F.faults files.old) }

    // The files of the answers.
    ensures made { OnOk result (U.asked outs.new ≡ naming_all (U.asked outs.old) (out_names (map (λ name. name.now) names.now))) }
    ensures early { IfErr result (λ e. MadeFirst (map (λ name. name.now) names.now) (EarlyMade 0 e) (U.asked outs.old) (U.asked outs.new)) }
    ensures cause { IfErr result (λ e. IsCreateEnd e → Rose (U.faults outs.old) (U.faults outs.new)) }
    ensures good { OnOk result (U.faults outs.new ≡ U.faults outs.old) }
    ensures other_good { IfErr result (λ e. (IsCreateEnd e → ⊥) → U.faults outs.new ≡ U.faults outs.old) }
{
    let source = match open_row(means.alloc, files, left, InputFile::Left) {
        Ok(source) => source,
        Err(outcome) => return Err(unopened(outcome)),
    };
    let mut inputs = Inputs::One(source);
    match run_source(means, plans, &mut inputs, names, outs, sizes) {
        Ok(parts) => {
            close_rows(files, inputs);
            Ok(parts)
        }
        Err(early) => {
            close_rows(files, inputs);
            Err(early)
        }
    }
}
