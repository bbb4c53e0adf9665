// One token more, with a space before it.
ghost use Rattle.std.specs.Prelude.{◌≡◌, ◌++◌, ◌∷◌, [], OnOk};
ghost use Rattle.saber_query.specs.declared.token.Token.TheVariants.{Word, Mark, Number};
ghost use Rattle.saber_query.specs.Spelling.{spaced_text};
ghost use Rattle.saber_query.specs.Words as w;

use saber_query::{Keyword, Name, Sign};
use std::alloc::{AllocError as NoMemory, Global};

fn add(out: &mut Vec<u8>, bytes: &[u8]) -> Result<(), NoMemory>
    ensures { OnOk result (out.new.items ≡ out.old.items ++ 32 ∷ bytes.now) }
{
    out.push(b' ')?;
    out.extend_from_slice(bytes)
}

#[tactic(auto, unfolding(saber_query::specs::Spelling::spell), using(crate::proofs::SpellLemmas::joining))]
pub(crate) fn word(out: &mut Vec<u8>, keyword: Keyword) -> Result<(), NoMemory>
    ensures { OnOk result (out.new.items ≡ out.old.items ++ spaced_text (Word keyword ∷ [])) }
{
    add(out, keyword.text())
}

#[tactic(auto, unfolding(saber_query::specs::Spelling::spell), using(crate::proofs::SpellLemmas::joining))]
pub(crate) fn mark(out: &mut Vec<u8>, sign: Sign) -> Result<(), NoMemory>
    ensures { OnOk result (out.new.items ≡ out.old.items ++ spaced_text (Mark sign ∷ [])) }
{
    add(out, sign.text())
}

#[tactic(auto, unfolding(saber_query::specs::Spelling::spell), using(crate::proofs::SpellLemmas::joining))]
pub(crate) fn name(out: &mut Vec<u8>, name: &Name) -> Result<(), NoMemory>
    ensures { OnOk result (out.new.items ≡ out.old.items ++ spaced_text (w.name_words name.now)) }
{
    add(out, name.as_slice())
}

#[tactic(auto, unfolding(saber_query::specs::Spelling::spell), using(crate::proofs::SpellLemmas::joining))]
pub(crate) fn number(alloc: Global, out: &mut Vec<u8>, number: u64) -> Result<(), NoMemory>
    ensures { OnOk result (out.new.items ≡ out.old.items ++ spaced_text (Number number ∷ [])) }
{
    let text = format!(in alloc; "{number}")?;
    add(out, text.as_bytes())
}
