// The text of a command's query file.
ghost use Rattle.std.specs.Prelude.{◌≡◌, IfOk, IfErr, IfSome};
ghost use Rattle.saber_plan.specs.Outputs.{Rose};
ghost use Rattle.saber_notes.specs.declared.outcome.InputFile.{InputFile};
ghost use Rattle.saber_cli.specs.Outcomes.{IsClean, IsFileFault};
ghost use Rattle.saber_cli.specs.Texts.{BeginsFile};
ghost use Rattle.saber_cli.specs.Uses.{Uses, KeepsFaults, outcome_of, IsOfQuery};

use crate::texts::read_text;
use saber_io::{Files, OpenFault};
use saber_notes::{InputFile, Outcome};
use std::alloc::Global;

/// Opens, reads and closes a query file. Of a text that is too long it reads one byte more than a
/// query may have.
pub(crate) fn query_text<F: Files>(
    alloc: Global,
    files: &mut F,
    name: &str,
) -> Result<Vec<u8>, Outcome>
    ensures front { IfOk result (λ text. IfSome (F.told files.old) (λ t. BeginsFile t.contents name.now text.items)) }
    ensures uses { Uses InputFile.Query name.now (outcome_of result) (F.told files.old) (F.told files.new) }
    ensures kinds { IfErr result IsOfQuery }
    ensures cause { IfErr result (λ o. IsFileFault o → Rose (F.faults files.old) (F.faults files.new)) }
    ensures read_good { IsClean (outcome_of result) → F.faults files.new ≡ F.faults files.old }
    ensures count { KeepsFaults (F.faults files.old) (F.faults files.new) }
{
    let mut source = match files.open_file(alloc, name) {
        Ok(source) => source,
        Err(OpenFault::Failed) => return Err(Outcome::OpenFault(InputFile::Query)),
        Err(OpenFault::NoMemory) => return Err(Outcome::NoMemory),
    };
    let text = read_text(alloc, &mut source);
    files.close_file(source);
    text
}
