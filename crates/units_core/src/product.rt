ghost use Rattle.std.specs.Prelude.{◌≡◌, IfOk};
ghost use Rattle.units_core.specs.Product.{fits_row, fitting_row, outcome_in, outcome_of, product_unit, products};

use crate::outcome::Outcome;
use crate::side::Side;
use crate::units::Units;
use Outcome::{Finer, FinerPercentage, Left, LeftMoney, Nothing, Right, RightMoney};
use Side::{Any, AnyOrNone, Currency, Number, Percentage, Without};
use std::alloc::Global;
use value_core::{Memory, OpProduct};

/// A row of the table of products: what its sides are, and the unit of their product and of their quotient.
#[derive(Clone, Copy, Debug)]
pub(crate) struct Product {
    pub(crate) left: Side,
    pub(crate) right: Side,
    pub(crate) times: Outcome,
    pub(crate) divide: Outcome,
}

/// The first row that fits the sides decides.
macro_rules! products {
    ($($left:ident, $right:ident => $times:ident, $divide:ident;)+) => {
        [$(Product { left: $left, right: $right, times: $times, divide: $divide }),+]
    };
}

/// The table of products: the left side and the right one, the unit of `*` and that of `/`.
pub(crate) static PRODUCTS: [Product; 11] = products! {
    Percentage, Percentage => FinerPercentage, FinerPercentage;
    Currency, Percentage => LeftMoney, Nothing;
    Percentage, Currency => RightMoney, Nothing;
    Percentage, AnyOrNone => Right, Right;
    AnyOrNone, Percentage => Left, Nothing;
    Without, AnyOrNone => Right, Nothing;
    Any, Without => Left, Left;
    Number, Number => Finer, Finer;
    Number, Any => Right, Nothing;
    Any, Number => Left, Left;
    Any, Any => Nothing, Nothing;
};

/// The unit of a product or a quotient over sides of these units.
pub(crate) fn product_unit(
    alloc: Global,
    kind: OpProduct,
    left: Option<Units>,
    right: Option<Units>,
) -> Result<Option<Units>, Memory>
    ensures { IfOk result (λ unit. unit ≡ product_unit kind left right) }
{
    let outcome = outcome_of(kind, &left, &right);
    let unit = outcome.unit(alloc, left, right)?;
    Ok(unit)
}

#[tactic(auto, using(crate::proofs::Rows::rows))]
fn outcome_of(kind: OpProduct, left: &Option<Units>, right: &Option<Units>) -> Outcome
    ensures { result ≡ outcome_of kind left.now right.now }
{
    match fitting_row(left, right) {
        Some(row) => row.outcome(kind),
        None => Outcome::Nothing,
    }
}

/// The first row of the table that fits the sides.
fn fitting_row(left: &Option<Units>, right: &Option<Units>) -> Option<Product>
    ensures { result ≡ fitting_row left.now right.now }
{
    let rows = all_products();
    rows.iter().copied().find(|row| row.fits(left, right))
}

#[tactic(auto, unfolding(crate::specs::Product::products))]
fn all_products() -> &'static [Product]
    ensures { result.now ≡ products }
{
    &PRODUCTS
}

impl Product {
    fn fits(self, left: &Option<Units>, right: &Option<Units>) -> bool
        ensures { result ≡ fits_row left.now right.now self }
    {
        self.left.fits(left) && self.right.fits(right)
    }

    fn outcome(self, kind: OpProduct) -> Outcome
        ensures { result ≡ outcome_in kind self }
    {
        match kind {
            OpProduct::Times => self.times,
            OpProduct::Divide => self.divide,
        }
    }
}
