// The text of a query file, from its source.
ghost use Rattle.std.specs.Prelude.{◌≡◌, ◌≤◌, ◌<◌, ◌+◌, ◌-◌, [], IfOk, IfErr, IfSome, OnOk, Ok, take, length};
ghost use Rattle.saber_io.specs.Outside.{left_before};
ghost use Rattle.saber_plan.specs.Outputs.{Rose};
ghost use Rattle.saber_notes.specs.declared.outcome.InputFile.{InputFile};
ghost use Rattle.saber_notes.specs.declared.outcome.Outcome.{Outcome};
ghost use Rattle.saber_cli.specs.Texts.{read_limit, TakesFew};
ghost use Rattle.saber_cli.specs.Uses.{IsOfText};

use saber_io::Source;
use saber_notes::{InputFile, Outcome};
use std::alloc::Global;

// One byte more than a query's text may have.
const READ_LIMIT: usize = 65_537;

const PIECE: usize = 4096;

// Reads the next piece behind a text, as long as it is not too long. Nothing more comes after a
// piece of no bytes.
fn read_piece<S: Source>(text: &mut Vec<u8>, source: &mut S) -> Result<usize, Outcome>
    requires { length text.old.items < 65537 }
    ensures bytes { IfOk result (λ n. left_before text.old.items (S.left source.old) ≡ left_before text.new.items (S.left source.new)) }
    ensures grows { IfOk result (λ n. length text.new.items ≡ length text.old.items + n) }
    ensures short { IfOk result (λ n. length text.new.items ≤ 65537) }
    ensures end { result ≡ Ok 0 → IfSome (S.left source.new) (λ rest. rest ≡ []) }
    ensures kinds { IfErr result IsOfText }
    ensures cause { IfErr result (λ o. o ≡ Outcome.ReadFault InputFile.Query → Rose (S.faults source.old) (S.faults source.new)) }
    ensures good { OnOk result (S.faults source.new ≡ S.faults source.old) }
    ensures takes { TakesFew (65537 - length text.old.items) (S.left source.old) (S.left source.new) }
    ensures count { S.faults source.old ≤ S.faults source.new }
{
    let mut piece = [0u8; PIECE];
    let room = (READ_LIMIT - text.len()).min(PIECE);
    match source.read(&mut piece[..room]) {
        Err(_) => Err(Outcome::ReadFault(InputFile::Query)),
        Ok(n) => {
            text.extend_from_slice(&piece[..n])?;
            Ok(n)
        }
    }
}

/// The text of a query file, as far as a query's text can go.
pub(crate) fn read_text<S: Source>(alloc: Global, source: &mut S) -> Result<Vec<u8>, Outcome>
    ensures front { IfOk result (λ text. IfSome (S.left source.old) (λ whole. text.items ≡ take read_limit whole)) }
    ensures kinds { IfErr result IsOfText }
    ensures cause { IfErr result (λ o. o ≡ Outcome.ReadFault InputFile.Query → Rose (S.faults source.old) (S.faults source.new)) }
    ensures good { OnOk result (S.faults source.new ≡ S.faults source.old) }

    // Nothing is asked for behind what tells that the text is too long.
    ensures takes { TakesFew read_limit (S.left source.old) (S.left source.new) }
    ensures count { S.faults source.old ≤ S.faults source.new }
{
    let mut text = Vec::new(alloc);
    while text.len() < READ_LIMIT {
        let n = read_piece(&mut text, source)?;
        if n == 0 {
            return Ok(text);
        }
    }
    // One byte more than a query may have tells all that the whole file would.
    Ok(text)
}
