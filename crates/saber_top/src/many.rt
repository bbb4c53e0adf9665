// The command `many`: several queries over one input.
ghost use Rattle.std.specs.Prelude.{◌≡◌, ◌≢◌, ◌≤◌, [], None, Some, IfOk, IfErr, OnOk, length, map};
ghost use Rattle.saber_plan.specs.Outputs.{Rose};
ghost use Rattle.saber_words.specs.Many.{AskedMany, asked_many, many_of, HasManySizes};
ghost use Rattle.saber_notes.specs.declared.early.Early.{Early};
ghost use Rattle.saber_top.specs.declared.ended.TopEnd.{TopEnd};
ghost use Rattle.saber_top.specs.Shared.{parts_in};
ghost use Rattle.saber_top.specs.Comes.{ComesTo, IsOfMany, IsTrueOf};
ghost use Rattle.saber_top.specs.Ends.{EndsBy, EndsUnreadMany, IsCreateEnd, unread_many};

use crate::ended::TopEnd;
use crate::left::run_left;
use crate::parts::PartList;
use crate::plans::shared_plans;
use saber_engine::Means;
use saber_io::{Files, Gate, Outs};
use saber_notes::Early;
use saber_words::{Many, WordsFault, read_many};
use std::alloc::Global;
use std::sync::Wait;
use std::thread::Threads;

/// How a call with several queries ended, and its parts.
#[derive(Drop)]
pub(crate) struct Came<T> {
    pub(crate) end: TopEnd,
    pub(crate) parts: PartList<T>,
}

// It ended before any query was run.
fn ended_before<T>(alloc: Global, early: Early) -> Came<T>
    ensures end { result.end ≡ TopEnd.Before early }
    ensures none { parts_in result.parts ≡ [] }
{
    Came {
        end: TopEnd::Before(early),
        parts: PartList::none(alloc),
    }
}

// Reads and checks the queries, and runs them over the left file.
fn many_parts<F: Files, U: Outs, G: Gate + Sync, R: Threads + Wait + Sync>(
    means: &Means<'_, G, R>,
    many: &Many<'_>,
    files: &mut F,
    outs: &mut U,
) -> Result<PartList<U::Out>, Early>
    requires { HasManySizes (asked_many many.now) }
    ensures parts { IfOk result (λ parts. ComesTo F.told U.asked U.Out.written U.Out.writes (asked_many many.now) files.old files.new outs.old outs.new TopEnd.Each (parts_in parts)) }
    ensures early { IfErr result (λ e. ComesTo F.told U.asked U.Out.written U.Out.writes (asked_many many.now) files.old files.new outs.old outs.new (TopEnd.Before e) []) }
    ensures parts_true { IfOk result (λ parts. IsTrueOf F.faults U.Out.faults files.old files.new TopEnd.Each (parts_in parts)) }
    ensures early_true { IfErr result (λ e. IsTrueOf F.faults U.Out.faults files.old files.new (TopEnd.Before e) []) }
    ensures outs { IfErr result (λ e. IsCreateEnd e → Rose (U.faults outs.old) (U.faults outs.new)) }
    ensures outs_good { OnOk result (U.faults outs.new ≡ U.faults outs.old) }
    ensures outs_other { IfErr result (λ e. (IsCreateEnd e → ⊥) → U.faults outs.new ≡ U.faults outs.old) }
    ensures read { IfErr result (λ e. e ≢ Early.Usage) }
{
    let plans = match shared_plans(means.alloc, files, &many.queries) {
        Ok(plans) => plans,
        Err(early) => return Err(early),
    };
    match run_left(
        means,
        &plans.list,
        files,
        many.left,
        &many.queries,
        outs,
        &many.sizes,
    ) {
        Ok(parts) => {
            plans.let_go();
            Ok(parts)
        }
        Err(early) => {
            plans.let_go();
            Err(early)
        }
    }
}

/// `many`: its queries over the left file, each into its own file.
fn many_command<F: Files, U: Outs, G: Gate + Sync, R: Threads + Wait + Sync>(
    means: &Means<'_, G, R>,
    many: &Many<'_>,
    files: &mut F,
    outs: &mut U,
) -> Came<U::Out>
    requires { HasManySizes (asked_many many.now) }
    ensures comes { ComesTo F.told U.asked U.Out.written U.Out.writes (asked_many many.now) files.old files.new outs.old outs.new result.end (parts_in result.parts) }
    ensures holds { IsTrueOf F.faults U.Out.faults files.old files.new result.end (parts_in result.parts) }
    ensures kinds { IsOfMany result.end }
    ensures outs { EndsBy result.end IsCreateEnd → Rose (U.faults outs.old) (U.faults outs.new) }
    ensures outs_good { (EndsBy result.end IsCreateEnd → ⊥) → U.faults outs.new ≡ U.faults outs.old }
    ensures read { result.end ≢ TopEnd.Before Early.Usage }
    ensures few { length (parts_in result.parts) ≤ 8 }
{
    match many_parts(means, many, files, outs) {
        Ok(parts) => Came {
            end: TopEnd::Each,
            parts,
        },
        Err(early) => ended_before(means.alloc, early),
    }
}

// How a call ends whose words were not read.
fn unread_many(fault: WordsFault) -> Early
    ensures { result ≡ unread_many fault }
{
    match fault {
        WordsFault::NoMemory => Early::NoMemory,
        WordsFault::Usage => Early::Usage,
    }
}

/// Reads the words of `many`, and does what they ask for.
pub(crate) fn many_words<F: Files, U: Outs, G: Gate + Sync, R: Threads + Wait + Sync>(
    means: &Means<'_, G, R>,
    words: &[&str],
    files: &mut F,
    outs: &mut U,
) -> Came<U::Out>
    ensures comes { (m : AskedMany) → many_of (map (λ word. word.now) words.now) ≡ Some m →
        ComesTo F.told U.asked U.Out.written U.Out.writes m files.old files.new outs.old outs.new result.end (parts_in result.parts) }
    ensures holds { IsTrueOf F.faults U.Out.faults files.old files.new result.end (parts_in result.parts) }
    ensures kinds { IsOfMany result.end }
    ensures outs { EndsBy result.end IsCreateEnd → Rose (U.faults outs.old) (U.faults outs.new) }
    ensures outs_good { (EndsBy result.end IsCreateEnd → ⊥) → U.faults outs.new ≡ U.faults outs.old }
    ensures unread { many_of (map (λ word. word.now) words.now) ≡ None → EndsUnreadMany result.end files.old files.new outs.old outs.new }
    ensures usage { result.end ≡ TopEnd.Before Early.Usage → many_of (map (λ word. word.now) words.now) ≡ None }
    ensures few { length (parts_in result.parts) ≤ 8 }
{
    match read_many(means.alloc, words) {
        Ok(many) => many_command(means, &many, files, outs),
        Err(fault) => ended_before(means.alloc, unread_many(fault)),
    }
}
