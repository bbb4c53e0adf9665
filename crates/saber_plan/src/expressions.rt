// Expressions over whole numbers: flat lists of signed products.
use crate::{NoMemory, Side};
use std::alloc::Global;
use std::marker::Model;

/// A column of a row, counted from 0, or a number.
#[derive(Clone, Copy, Debug, PartialEq, Eq)]
pub enum Factor {
    Column { side: Side, index: u32 },
    Constant(i64),
}

/// The factors of a product, seen as a list.
#[derive(Drop)]
pub struct Factors {
    items: Vec<Factor>,
}

impl Model for Factors {
    ghost use Rattle.std.specs.Prelude.{List};
    ghost use Rattle.saber_plan.specs.declared.expressions.Factor.{Factor};

    ghost Value = { List Factor };

    ghost view = { λ v. v.items.items };
}

impl Factors {
    ghost use Rattle.std.specs.Prelude.{◌≡◌};

    /// These factors in this order.
    pub fn from_vec(items: Vec<Factor>) -> Factors
        ensures { result ≡ items.items }
    {
        Factors { items }
    }

    /// The factors in order.
    pub fn as_slice(&self) -> &[Factor]
        ensures { result.now ≡ self.now }
    {
        &self.items
    }
}

/// A product, and whether it is taken away.
#[derive(Drop)]
pub struct Product {
    pub minus: bool,
    pub factors: Factors,
}

/// A sum of signed products, seen as their list.
#[derive(Drop)]
pub struct Expr {
    products: Vec<Product>,
}

impl Model for Expr {
    ghost use Rattle.std.specs.Prelude.{List};
    ghost use Rattle.saber_plan.specs.declared.expressions.Product.{Product};

    ghost Value = { List Product };

    ghost view = { λ v. v.products.items };
}

impl Expr {
    ghost use Rattle.std.specs.Prelude.{◌≡◌, IfOk};
    ghost use Rattle.saber_plan.specs.Checked.{lone};

    /// The sum of these products.
    pub fn from_vec(products: Vec<Product>) -> Expr
        ensures { result ≡ products.items }
    {
        Expr { products }
    }

    /// A column of a left row alone, or a number of a group.
    pub fn lone(alloc: Global, index: u32) -> Result<Expr, NoMemory>
        ensures { IfOk result (λ e. e ≡ lone index) }
    {
        let mut factors = Vec::new(alloc);
        factors.push(Factor::Column {
            side: Side::Left,
            index,
        })?;
        let mut products = Vec::new(alloc);
        products.push(Product {
            minus: false,
            factors: Factors::from_vec(factors),
        })?;
        Ok(Expr::from_vec(products))
    }

    /// The products in order.
    pub fn as_slice(&self) -> &[Product]
        ensures { result.now ≡ self.now }
    {
        &self.products
    }
}
