// The gate of a case, which holds tasks back.
ghost use Rattle.std.specs.Prelude.{◌≤◌, IfOk, vec_len};

use crate::fields::{Field, Fields, Key};
use crate::readings::number;
use crate::refusals::{Cause, Refused};
use saber_io::{Gate, HoldGate, OrderGate};
use std::alloc::Global;

// How often a task looks at a gate where the case doesn't say: some seconds.
const LIMIT: u64 = 100_000_000;

// Stands before the number of a task of a chain's first query, and from where on the chain counts
// those at its gate.
const OF_FIRST: &str = "first.";

const FIRST: u64 = 1 << 43;

/// What the tasks of a run pass.
#[derive(Drop)]
pub(crate) enum CaseGate {
    /// Holds nobody back.
    Open,
    /// Holds a task back until another one is done.
    Hold(HoldGate),
    /// Has tasks done in an order.
    Order(OrderGate),
}

impl Gate for CaseGate {
    fn pass(&self, task: u64) {
        match self {
            CaseGate::Open => {}
            CaseGate::Hold(gate) => gate.pass(task),
            CaseGate::Order(gate) => gate.pass(task),
        }
    }

    fn done(&self, task: u64) {
        match self {
            CaseGate::Open => {}
            CaseGate::Hold(gate) => gate.done(task),
            CaseGate::Order(gate) => gate.done(task),
        }
    }
}

impl CaseGate {
    /// Whether a task went on because it had looked so often, and not because the other was done.
    pub(crate) fn is_late(&self) -> bool {
        match self {
            CaseGate::Open => false,
            CaseGate::Hold(gate) => gate.late(),
            CaseGate::Order(gate) => gate.late(),
        }
    }

    pub(crate) fn let_go(self) {}
}

/// The gate of a case.
pub(crate) fn gate_of(alloc: Global, fields: &Fields<'_>) -> Result<CaseGate, Refused> {
    let limit = limit_of(fields)?;
    let Some(field) = fields.find(Key::Gate, "") else {
        return Ok(CaseGate::Open);
    };
    match field.first().split_once(' ') {
        Some(("hold", tasks)) => hold_of(field, tasks, limit),
        Some(("order", tasks)) => {
            let order = order_of(alloc, field, tasks)?;
            Ok(CaseGate::Order(OrderGate::new(order, limit)))
        }
        _ => Err(field.refused(Cause::UnknownWord)),
    }
}

fn limit_of(fields: &Fields<'_>) -> Result<u64, Refused> {
    match fields.find(Key::Limit, "") {
        Some(field) => number(field, field.first()),
        None => Ok(LIMIT),
    }
}

// The task that is held back, and the one that has to be done.
fn hold_of(field: &Field<'_>, tasks: &str, limit: u64) -> Result<CaseGate, Refused> {
    let Some((first, second)) = tasks.split_once(' ') else {
        return Err(field.refused(Cause::BadNumber));
    };
    let first = task_of(field, first)?;
    let second = task_of(field, second)?;
    Ok(CaseGate::Hold(HoldGate::new(first, second, limit)))
}

// Tasks in the order in which they have to be done.
fn order_of(alloc: Global, field: &Field<'_>, tasks: &str) -> Result<Vec<u64>, Refused>
    ensures { IfOk result (λ order. vec_len order ≤ 64) }
{
    let mut order = Vec::new(alloc);
    for word in tasks.split(' ') {
        order.push(task_of(field, word)?)?;
    }
    if order.len() > 64 {
        return Err(field.refused(Cause::LongOrder));
    }
    Ok(order)
}

// The number that a task has at the gate.
fn task_of(field: &Field<'_>, word: &str) -> Result<u64, Refused> {
    match word.strip_prefix(OF_FIRST) {
        Some(rest) => Ok(number(field, rest)?.saturating_add(FIRST)),
        None => number(field, word),
    }
}
