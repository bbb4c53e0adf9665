// Expressions that are one column alone.
ghost use Rattle.std.specs.Prelude.{IfSome};
ghost use Rattle.saber_eval.specs.Columns.{IsColumn};

use saber_plan::{Expr, Factor, Side};

/// The side and the number of the column that an expression is alone, as most are: a row then costs
/// no walk through the expression.
pub fn column_in(e: &Expr) -> Option<(Side, u32)>
    ensures { IfSome result (λ c. IsColumn c.0 c.1 e.now) }
{
    let products = e.as_slice();
    if products.len() != 1 || products[0].minus {
        return None;
    }
    let factors = products[0].factors.as_slice();
    if factors.len() != 1 {
        return None;
    }
    match &factors[0] {
        Factor::Column { side, index } => Some((*side, *index)),
        Factor::Constant(_) => None,
    }
}
