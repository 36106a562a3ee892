//! An example: a table of kinds of one's own, for a book of prices.
#![tactic(auto)]

ghost use Rattle.own_kinds_example.specs.PriceTable.{price_table};
ghost use Rattle.own_kinds_example.specs.PriceLaws.{price_table_is_lawful};

use kind_table::{Asks, Kinds, Signature, StaticResult, UnitClass, Value};
use std::alloc::Global;
use tree_core::{ArrayNode, Error, Memory, Steps};

/// The number of the one kind: the prices of a good, a range whose size is not known before it is asked for.
pub const PRICES: u16 = 0;

/// The table: `PRICES` takes one value for each argument.
#[derive(Clone, Copy, Debug)]
pub struct PriceKinds;

impl Kinds for PriceKinds {
    ghost table = { λ _. price_table };

    ghost lawful = { λ _. price_table_is_lawful };

    fn knows(&self, id: u16) -> bool {
        id == PRICES
    }

    fn signature(&self, _id: u16, count: usize, index: usize) -> Signature {
        if index < count {
            Signature::Scalar
        } else {
            Signature::Error
        }
    }

    fn value(&self, alloc: Global, id: u16, values: &[Value]) -> Result<Value, Memory> {
        if id != PRICES {
            return Ok(Value::One(ArrayNode::Error(Error::NIMPL)));
        }
        match values {
            [Value::Missing] => Ok(Value::One(ArrayNode::Number(0))),
            [prices] => prices.try_clone(alloc),
            _ => Ok(Value::One(ArrayNode::Error(Error::ERROR))),
        }
    }

    fn unit_class(&self, id: u16) -> UnitClass {
        if id == PRICES {
            UnitClass::Currency
        } else {
            UnitClass::NoUnit
        }
    }
}

impl<L> Asks<L> for PriceKinds {
    fn shape(&self, id: u16, _shapes: &[StaticResult], steps: &mut Steps<L>) -> StaticResult {
        steps.tick();
        if self.knows(id) {
            StaticResult::Unknown
        } else {
            StaticResult::Scalar
        }
    }
}

#[cfg(test)]
mod tests;
