// The command `check`: a query's own text.
ghost use Rattle.std.specs.Prelude.{◌≡◌, ◌≢◌, ℕ, List, [], ◌∷◌, ◌++◌, IfOk, IfErr, OnOk};
ghost use Rattle.saber_plan.specs.Outputs.{raised_by, raised_count, Rose, appended_text};
ghost use Rattle.saber_query.specs.Parsed.{IsParsed};
ghost use Rattle.saber_query.specs.Trees.{query_of};
ghost use Rattle.saber_query.specs.Words.{words};
ghost use Rattle.saber_query.specs.Spelling.{spelled_text};
ghost use Rattle.saber_check.specs.Outcome.{IsFaultless, IsFaultOf};
ghost use Rattle.saber_check.specs.Texts.{IsFaultIn};
ghost use Rattle.saber_notes.specs.declared.outcome.Outcome.{Outcome};
ghost use Rattle.saber_cli.specs.Outcomes.{IsQueryFault, IsOfShow};
ghost use Rattle.saber_cli.specs.Due.{Shows};
ghost use Rattle.saber_cli.specs.Planned.{IsTextFault};
ghost use Rattle.saber_cli.specs.Shown.{Showed};
ghost use Rattle.saber_cli.specs.Writes.{text_writes};

use crate::answer::Ran;
use crate::plans::refused;
use crate::puts::put;
use saber_check::check;
use saber_io::Sink;
use saber_notes::Outcome;
use saber_plan::NoMemory;
use saber_query::{Query, QueryFault, parse};
use saber_show::show;
use std::alloc::Global;

// That a query passes its checks, or its first fault.
fn passes(alloc: Global, query: &Query) -> Result<(), QueryFault>
    ensures parsed { IsParsed query.now.select query.now.starts }
    ensures faultless { OnOk result (IsFaultless (query_of query.now.select)) }
    ensures fault { IfErr result (IsFaultOf query.now) }
{
    check(alloc, query)?;
    Ok(())
}

// A query's own text, with a line feed.
fn line(alloc: Global, query: &Query) -> Result<Vec<u8>, NoMemory>
    ensures { IfOk result (λ out. out.items ≡ spelled_text (words (query_of query.now.select)) ++ 10 ∷ []) }
{
    let mut out = show(alloc, query)?;
    out.push(b'\n')?;
    Ok(out)
}

// The same of a query that passes its checks, or its first fault.
fn checked_line(alloc: Global, query: &Query) -> Result<Vec<u8>, QueryFault>
    ensures parsed { IsParsed query.now.select query.now.starts }
    ensures faultless { OnOk result (IsFaultless (query_of query.now.select)) }
    ensures text { IfOk result (λ out. out.items ≡ spelled_text (words (query_of query.now.select)) ++ 10 ∷ []) }
    ensures fault { IfErr result (IsFaultOf query.now) }
{
    passes(alloc, query)?;
    match line(alloc, query) {
        Ok(out) => Ok(out),
        Err(_) => Err(QueryFault::NoMemory),
    }
}

// The text with a line feed of the query that a text means, or the text's first fault.
fn line_of(alloc: Global, text: &[u8]) -> Result<Vec<u8>, QueryFault>
    ensures shows { IfOk result (λ out. Shows text.now out.items) }
    ensures fault { IfErr result (IsFaultIn text.now) }
{
    let query = parse(alloc, text)?;
    let line = checked_line(alloc, &query);
    query.let_go();
    line
}

// The same, or why the text is refused.
fn shown(alloc: Global, text: &[u8]) -> Result<Vec<u8>, Outcome>
    ensures ok { IfOk result (λ out. Shows text.now out.items) }
    ensures err { IfErr result (IsTextFault text.now) }
{
    match line_of(alloc, text) {
        Ok(out) => Ok(out),
        Err(fault) => Err(refused(fault)),
    }
}

/// Checks the text of a query and writes the query's own text, in one write.
pub(crate) fn put_text<K: Sink>(alloc: Global, text: &[u8], sink: K) -> Ran<K>
    ensures written { (out : List ℕ) × (K.written result.sink ≡ appended_text (K.written sink) out) × Showed text.now result.outcome out }
    ensures tasks { result.tasks ≡ 0 }
    ensures early { IsQueryFault result.outcome → result.sink ≡ sink }
    ensures kinds { IsOfShow result.outcome }
    ensures write { result.outcome ≡ Outcome.WriteFault → Rose (K.faults sink) (K.faults result.sink) }
    ensures write_good { result.outcome ≢ Outcome.WriteFault → K.faults result.sink ≡ K.faults sink }
    ensures one { result.outcome ≡ Outcome.Done → K.writes result.sink ≡ raised_count (K.writes sink) }
    ensures one_cut { result.outcome ≡ Outcome.WriteFault → K.writes result.sink ≡ raised_count (K.writes sink) }
    ensures writes { K.writes result.sink ≡ raised_by (K.writes sink) (text_writes result.outcome) }
{
    let out = match shown(alloc, text) {
        Ok(out) => out,
        Err(outcome) => {
            return Ran {
                outcome,
                sink,
                tasks: 0,
            };
        }
    };
    put(&out, sink, 0)
}
