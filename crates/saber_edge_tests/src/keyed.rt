// Rows of three columns, a time, a key and a number, and the mark behind them.
ghost use Rattle.std.specs.Prelude.{◌≡◌, ◌+◌, ◌^◌, ◌<◌, pos, IfOk, Some, true};
ghost use Rattle.saber_plan.specs.declared.rows.Side.TheVariants as s;
ghost use Rattle.saber_plan.specs.Rows.{RowFits, stamp};
ghost use Rattle.saber_plan.specs.Windows.{can_follow};
ghost use Rattle.saber_edge_tests.specs.Filling.{CanCome, HasKeyed, IsBehind};

use crate::texts::cut;
use saber_flat::{RowRef, Rows};
use saber_plan::{Mark, NoMemory, Row, Side, Values};
use std::alloc::Global;
use std::process::Abort;
use std::test::Fail;

fn number(rt: &impl Abort, word: &str) -> i64 {
    word.parse::<i64>().expect(rt, word)
}

fn time(rt: &impl Abort, word: &str) -> u32 {
    word.parse::<u32>().expect(rt, word)
}

// A time, a key and a number, as in a file: `0,1,10`.
fn keyed(rt: &impl Abort, word: &str) -> (u32, i64, i64) {
    let (first, rest) = cut(rt, word, ',');
    let (key, value) = cut(rt, rest, ',');
    (time(rt, first), number(rt, key), number(rt, value))
}

/// Several of those, with spaces between them.
pub(crate) fn table_of(
    rt: &impl Abort,
    alloc: Global,
    text: &str,
) -> Result<Vec<(u32, i64, i64)>, NoMemory> {
    let mut table = Vec::new(alloc);
    for word in text.split(' ') {
        table.push(keyed(rt, word))?;
    }
    Ok(table)
}

// A row of the left side.
fn keyed_row(alloc: Global, time: u32, key: i64, number: i64) -> Result<Row, NoMemory>
    ensures { IfOk result (λ r. RowFits s.Left 3 r × (stamp r.values ≡ time)) }
{
    let values = Values::from_slice(alloc, &[i64::from(time), key, number])?;
    Ok(Row {
        side: Side::Left,
        values,
    })
}

// A row of this time can come next, and there is room for it.
fn follows(mark: &Mark, time: u32) -> bool
    ensures order { result ≡ true → can_follow mark.now time ≡ true }
    ensures left { result ≡ true → mark.now.left < 2 ^ 32 }
    ensures right { result ≡ true → mark.now.right < 2 ^ 32 }
{
    let in_order = match mark.last {
        Some(last) => last.unsigned_abs() <= u64::from(time),
        None => true,
    };
    !mark.ended && in_order && mark.left < 1 << 32 && mark.right < 1 << 32
}

// What stands before the next row, where this one is of the left side and this time.
fn step(mark: &Mark, time: u32) -> Mark
    requires left { mark.now.left < 2 ^ 32 }
    ensures left { result.left ≡ mark.now.left + 1 }
    ensures right { result.right ≡ mark.now.right }
    ensures last { result.last ≡ Some (pos time) }
    ensures ended { result.ended ≡ mark.now.ended }
{
    Mark {
        left: mark.left + 1,
        right: mark.right,
        last: Some(i64::from(time)),
        ended: mark.ended,
    }
}

/// Rows of one stream, up to the first that can't come behind the mark, and the mark behind them.
pub(crate) fn keyed_rows(
    alloc: Global,
    before: &Mark,
    table: &[(u32, i64, i64)],
) -> Result<(Rows, Mark), NoMemory>
    ensures fit { IfOk result (λ r. CanCome HasKeyed before.now r.0) }
    ensures mark { IfOk result (λ r. IsBehind before.now r.0 r.1) }
{
    let mut rows = Rows::new(alloc);
    let mut mark = *before;
    for (time, key, number) in table {
        if !follows(&mark, *time) {
            break;
        }
        let row = keyed_row(alloc, *time, *key, *number)?;
        mark = step(&mark, *time);
        rows.push(&RowRef::of(&row))?;
    }
    Ok((rows, mark))
}

// No operator copies a row by itself.
#[test]
fn a_row_is_copied(rt: HostRuntime) -> Result<(), Fail> {
    let row = keyed_row(rt.alloc(), 2, 1, 7)?;
    let copy = row.copy(rt.alloc())?;
    assert!(rt; copy.values.as_slice() == [2, 1, 7].as_slice());
    Ok(())
}
