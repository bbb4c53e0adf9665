// The text of declarations.
ghost use Rattle.std.specs.Prelude.{◌≡◌, ◌++◌, OnOk};
ghost use Rattle.saber_query.specs.Spelling.{spaced_text};
ghost use Rattle.saber_query.specs.Words as w;

use crate::spell::{mark, name, word};
use saber_query::{Decl, Keyword, Name, Sign};
use std::alloc::AllocError as NoMemory;

#[tactic(auto, using(crate::proofs::SpellLemmas::joining))]
fn names(out: &mut Vec<u8>, others: &[Name]) -> Result<(), NoMemory>
    ensures { OnOk result (out.new.items ≡ out.old.items ++ spaced_text (w.names_words others.now)) }
{
    for other in others {
        mark(out, Sign::Comma)?;
        name(out, other)?;
    }
    Ok(())
}

#[tactic(auto, using(crate::proofs::SpellLemmas::joining))]
pub(crate) fn declared(out: &mut Vec<u8>, decl: &Decl) -> Result<(), NoMemory>
    ensures { OnOk result (out.new.items ≡ out.old.items ++ spaced_text (w.declared_words decl.now)) }
{
    name(out, &decl.name)?;
    mark(out, Sign::Open)?;
    name(out, &decl.first)?;
    names(out, decl.more.as_slice())?;
    mark(out, Sign::Close)?;
    mark(out, Sign::Semicolon)
}

#[tactic(auto, using(crate::proofs::SpellLemmas::joining))]
pub(crate) fn decls(out: &mut Vec<u8>, decls: &[Decl]) -> Result<(), NoMemory>
    ensures { OnOk result (out.new.items ≡ out.old.items ++ spaced_text (w.decls_words decls.now)) }
{
    for decl in decls {
        word(out, Keyword::Stream)?;
        declared(out, decl)?;
    }
    Ok(())
}
