// The files that the answers go to.
ghost use Rattle.std.specs.Prelude.{◌≡◌, ◌<◌, ◌+◌, ◌^◌, ◌∷◌, IfOk, IfErr, OnOk, length, map};
ghost use Rattle.std.specs.List.{AllZip};
ghost use Rattle.saber_plan.specs.Outputs.{Rose};
ghost use Rattle.saber_io.specs.Outs.{after_naming};
ghost use Rattle.saber_notes.specs.declared.early.Early.{Early};
ghost use Rattle.saber_words.specs.Many.{out_name};
ghost use Rattle.saber_top.specs.Commands.{out_names};
ghost use Rattle.saber_top.specs.Made.{EarlyMade, IsJobOf, IsNew, IsNotCreated, IsOfCreate, MadeFirst, naming_all};
ghost use Rattle.saber_top.specs.Ends.{IsCreateEnd};

use saber_engine::Job;
use saber_io::{CreateFault, Outs, Plain};
use saber_notes::Early;
use saber_plan::Plan;
use saber_words::out_name;
use std::alloc::Global;
use std::collections::VecDeque;

// Creates the one of the query of this number and name.
fn create_out<U: Outs>(
    alloc: Global,
    outs: &mut U,
    query: &str,
    number: u64,
) -> Result<U::Out, Early>
    ensures new { IfOk result (IsNew U.Out.written U.Out.faults U.Out.writes) }
    ensures asked { OnOk result (U.asked outs.new ≡ after_naming (U.asked outs.old) (out_name query.now)) }
    ensures refused { IfErr result (λ e. IsNotCreated number query.now e (U.asked outs.old) (U.asked outs.new)) }
    ensures cause { IfErr result (λ e. IsCreateEnd e → Rose (U.faults outs.old) (U.faults outs.new)) }
    ensures good { OnOk result (U.faults outs.new ≡ U.faults outs.old) }
    ensures other_good { IfErr result (λ e. (IsCreateEnd e → ⊥) → U.faults outs.new ≡ U.faults outs.old) }
{
    let name = out_name(alloc, query)?;
    match outs.create_file(alloc, &name) {
        Ok(out) => Ok(out),
        Err(CreateFault::Failed) => Err(Early::CreateFault { query: number }),
        Err(CreateFault::NoMemory) => Err(Early::NoMemory),
    }
}

// These with one before them.
fn with_first<T: Drop>(item: T, items: VecDeque<T>) -> Result<VecDeque<T>, Early>
    ensures first { IfOk result (λ all. all.items ≡ item ∷ items.items) }
    ensures lacks { IfErr result (λ e. e ≡ Early.NoMemory) }
{
    let mut items = items;
    match items.push_front(item) {
        Ok(()) => Ok(items),
        Err(_) => Err(Early::NoMemory),
    }
}

/// A job for each plan, in their order: it is to be run into the file of its query's name, which is
/// created. So many other queries stand before them.
pub(crate) fn job_each<'p, U: Outs>(
    alloc: Global,
    outs: &mut U,
    plans: &'p [Plan],
    names: &[&str],
    others: u64,
) -> Result<VecDeque<Job<'p, Plain<U::Out>>>, Early>
    requires many { length plans.now ≡ length (map (λ name. name.now) names.now) }
    requires few { others + length names.now < 2 ^ 64 }
    ensures jobs { IfOk result (λ jobs. AllZip (IsJobOf U.Out.written U.Out.faults U.Out.writes) plans.entry.now jobs.items) }
    ensures made { OnOk result (U.asked outs.new ≡ naming_all (U.asked outs.old) (out_names (map (λ name. name.now) names.now))) }
    ensures early { IfErr result (λ e. MadeFirst (map (λ name. name.now) names.now) (EarlyMade others e) (U.asked outs.old) (U.asked outs.new)) }
    ensures kinds { IfErr result IsOfCreate }
    ensures cause { IfErr result (λ e. IsCreateEnd e → Rose (U.faults outs.old) (U.faults outs.new)) }
    ensures good { OnOk result (U.faults outs.new ≡ U.faults outs.old) }
    ensures other_good { IfErr result (λ e. (IsCreateEnd e → ⊥) → U.faults outs.new ≡ U.faults outs.old) }
{
    let Some((plan, more)) = plans.split_first() else {
        return Ok(VecDeque::new(alloc));
    };
    let Some((name, rest)) = names.split_first() else {
        unreachable!()
    };
    let out = match create_out(alloc, outs, *name, others + 1) {
        Ok(out) => out,
        Err(early) => return Err(early),
    };
    match job_each(alloc, outs, more, rest, others + 1) {
        Ok(jobs) => {
            let sink = Plain { sink: out };
            with_first(Job { plan, sink }, jobs)
        }
        Err(early) => Err(early),
    }
}
