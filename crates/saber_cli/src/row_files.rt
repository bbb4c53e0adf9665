// The row files of a run: one, or two.
ghost use Rattle.std.specs.Prelude.{◌≡◌, ◌≤◌, [], length, IfOk, IfErr, IfSome, OnOk};
ghost use Rattle.saber_io.specs.Outside.{Opens, after_asking};
ghost use Rattle.saber_plan.specs.Outputs.{Rose};
ghost use Rattle.saber_engine.specs.Sources.{each_input};
ghost use Rattle.saber_notes.specs.declared.outcome.Outcome.{Outcome};
ghost use Rattle.saber_cli.specs.Due.{rows_named};
ghost use Rattle.saber_cli.specs.Outcomes.{IsFileFault, IsUnopened};
ghost use Rattle.saber_cli.specs.Leaves.{HadNoFaults};
ghost use Rattle.saber_cli.specs.RowFiles.{IsNotOpened, OpensAll, UsesRows, raised_by, source_back, after_use};
ghost use Rattle.saber_cli.specs.Uses.{KeepsFaults};

use saber_engine::Inputs;
use saber_io::{Files, OpenFault};
use saber_notes::{InputFile, Outcome};
use saber_words::RowNames;
use std::alloc::Global;

/// Opens one of them, which the outcomes name so.
pub fn open_row<F: Files>(
    alloc: Global,
    files: &mut F,
    name: &str,
    file: InputFile,
) -> Result<F::Src, Outcome>
    ensures opens { IfOk result (λ src. Opens (F.told files.old) name.now (F.Src.left src)) }
    ensures fresh { IfOk result (λ src. F.Src.faults src ≡ 0) }
    ensures good { OnOk result (F.faults files.new ≡ F.faults files.old) }
    ensures asked { OnOk result (F.told files.new ≡ after_asking (F.told files.old) name.now) }
    ensures refused { IfErr result (λ o. IsNotOpened file name.now o (F.told files.old) (F.told files.new)) }
    ensures cause { IfErr result (λ o. o ≡ Outcome.OpenFault file → Rose (F.faults files.old) (F.faults files.new)) }
    ensures count { F.faults files.old ≤ F.faults files.new }
{
    match files.open_file(alloc, name) {
        Ok(source) => Ok(source),
        Err(OpenFault::Failed) => Err(Outcome::OpenFault(file)),
        Err(OpenFault::NoMemory) => Err(Outcome::NoMemory),
    }
}

/// How many a command names.
pub(crate) fn file_count(rows: &RowNames<'_>) -> u64
    ensures { result ≡ length (rows_named rows.now) }
{
    match rows.right {
        None => 1,
        Some(_) => 2,
    }
}

/// Opens those that a command names, the left one first. If the right one can't be opened, the left
/// one is given back.
pub(crate) fn open_rows<F: Files>(
    alloc: Global,
    files: &mut F,
    rows: &RowNames<'_>,
) -> Result<Inputs<F::Src>, Outcome>
    ensures number { IfOk result (λ i. length (each_input F.Src.left i) ≡ length (rows_named rows.now)) }
    ensures opens { IfOk result (λ i. IfSome (F.told files.old) (λ t. OpensAll t.contents (rows_named rows.now) (each_input F.Src.left i))) }
    ensures fresh { IfOk result (λ i. HadNoFaults (each_input (source_back F.Src.left F.Src.faults) i)) }
    ensures good { OnOk result (F.faults files.new ≡ F.faults files.old) }
    ensures asked { OnOk result (F.told files.new ≡ after_use (F.told files.old) (rows_named rows.now) []) }
    ensures refused { IfErr result (λ o. UsesRows (rows_named rows.now) o (F.told files.old) (F.told files.new)) }
    ensures kinds { IfErr result IsUnopened }
    ensures cause { IfErr result (λ o. IsFileFault o → Rose (F.faults files.old) (F.faults files.new)) }
    ensures count { KeepsFaults (F.faults files.old) (F.faults files.new) }
{
    let first = open_row(alloc, files, rows.left, InputFile::Left)?;
    let Some(name) = rows.right else {
        return Ok(Inputs::One(first));
    };
    match open_row(alloc, files, name, InputFile::Right) {
        Ok(second) => Ok(Inputs::Two(first, second)),
        Err(outcome) => {
            files.close_file(first);
            Err(outcome)
        }
    }
}

/// Gives them back, in the order in which they were opened.
pub fn close_rows<F: Files>(files: &mut F, inputs: Inputs<F::Src>)
    ensures closed { F.told files.new ≡ after_use (F.told files.old) [] (each_input (source_back F.Src.left F.Src.faults) inputs) }
    ensures count { F.faults files.new ≡ raised_by (F.faults files.old) (each_input (source_back F.Src.left F.Src.faults) inputs) }
{
    match inputs {
        Inputs::One(left) => files.close_file(left),
        Inputs::Two(left, right) => {
            files.close_file(left);
            files.close_file(right);
        }
    }
}
