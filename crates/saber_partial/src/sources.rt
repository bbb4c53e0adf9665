// Where the values that a plan asks of each row come from.
ghost use Rattle.std.specs.Prelude.{◌≡◌, ◌≤◌, IfSome, nat_abs, [], length};
ghost use Rattle.saber_plan.specs.Bounds.{sum_bound};
ghost use Rattle.saber_plan.specs.Checked.{lone, ExprFits};
ghost use Rattle.saber_plan.specs.Values as v;
ghost use Rattle.saber_eval.specs.Widths.{widths};
ghost use Rattle.saber_partial.specs.Sources.{AreSources, IsSource};

use saber_eval::{column_in, value};
use saber_flat::RowRef;
use saber_plan::{Aggregate, Expr, Side};

/// Where the value of an expression over a row comes from: a column alone, as most are, so that a
/// row costs no walk through the expression, or the whole of it.
#[derive(Clone, Copy)]
pub(crate) enum Source {
    Column(u8),
    Whole,
}

// The number of a column, in the few bits that hold all columns of a checked plan.
fn narrow(index: u32) -> Option<u8>
    ensures { IfSome result (λ k. k ≡ index) }
{
    if index < 256 { Some(index as u8) } else { None }
}

// The number of the column of a left row that an expression is alone.
fn left_column(e: &Expr) -> Option<u8>
    ensures { IfSome result (λ k. e.now ≡ lone k) }
{
    match column_in(e) {
        Some(column) => match column.0 {
            Side::Left => narrow(column.1),
            Side::Right => None,
        },
        None => None,
    }
}

#[inline(never)]
fn worked_out(e: &Expr, row: &RowRef) -> i128
    requires { ExprFits (widths row.now.values []) e.now }
    ensures value { result ≡ v.value e.now row.now.values [] }
    ensures bound { nat_abs result ≤ sum_bound 0 e.now }
{
    value(e, row)
}

impl Source {
    // Where the value of an expression comes from.
    fn of(e: &Expr) -> Source
        ensures { IsSource e.now result }
    {
        match left_column(e) {
            Some(column) => Source::Column(column),
            None => Source::Whole,
        }
    }

    /// The value of the expression over a row.
    #[inline(always)]
    pub(crate) fn value(self, e: &Expr, row: &RowRef) -> i128
        requires source { IsSource e.now self }
        requires fits { ExprFits (widths row.now.values []) e.now }
        ensures value { result ≡ v.value e.now row.now.values [] }
        ensures bound { nat_abs result ≤ sum_bound 0 e.now }
    {
        match self {
            Source::Column(column) => i128::from(row.values()[column as usize]),
            Source::Whole => worked_out(e, row),
        }
    }
}

/// The sources of some aggregates, before others of no meaning.
pub(crate) fn sources_of(aggregates: &[Aggregate]) -> [Source; 32]
    requires { length aggregates.now ≤ 32 }
    ensures { AreSources aggregates.now result }
{
    let mut sources = [Source::Whole; 32];
    for k in 0..aggregates.len() {
        sources[k] = Source::of(&aggregates[k].expr);
    }
    sources
}
