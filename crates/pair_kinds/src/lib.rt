//! A second table of kinds, for tests: with it an `@` in either of two places does the same.
#![tactic(auto)]

ghost use Rattle.std.specs.Prelude.{◌≡◌};
ghost use Rattle.pair_kinds.specs.PairTable.{is_large, pair_table};
ghost use Rattle.pair_kinds.specs.PairLaws.{pair_table_is_lawful};

use call_core::Steps;
use kind_table::{Asks, Kinds, Signature, StaticResult, UnitClass, Value};
use std::alloc::Global;
use value_core::{ArrayNode, Error, Memory};

/// A second table, for tests: it knows the number 0 alone, takes each argument as one value, and its shape is `Unknown`
/// where at least two arguments may have more than one value.
#[derive(Clone, Copy, Debug)]
pub struct PairKinds;

impl Kinds for PairKinds {
    ghost table = { λ _. pair_table };

    ghost lawful = { λ _. pair_table_is_lawful };

    fn knows(&self, id: u16) -> bool {
        id == 0
    }

    fn signature(&self, _id: u16, count: usize, index: usize) -> Signature {
        if index < count {
            Signature::Scalar
        } else {
            Signature::Error
        }
    }

    fn value(&self, _alloc: Global, _id: u16, _values: &[Value]) -> Result<Value, Memory> {
        Ok(Value::One(ArrayNode::Error(Error::NIMPL)))
    }

    fn unit_class(&self, _id: u16) -> UnitClass {
        UnitClass::NoUnit
    }
}

impl<L> Asks<L> for PairKinds {
    fn shape(&self, _id: u16, shapes: &[StaticResult], steps: &mut Steps<L>) -> StaticResult {
        steps.tick();
        if shapes.iter().filter(|shape| is_large(**shape)).count() >= 2 {
            StaticResult::Unknown
        } else {
            StaticResult::Scalar
        }
    }
}

fn is_large(shape: StaticResult) -> bool
    ensures { result ≡ is_large shape }
{
    match shape {
        StaticResult::Scalar => false,
        StaticResult::Array(rows, columns) => rows > 1 || columns > 1,
        StaticResult::Range(rows, columns) => rows > 1 || columns > 1,
        StaticResult::Unknown => true,
    }
}

#[cfg(test)]
mod tests;
