ghost use Rattle.std.specs.Prelude.{◌≡◌};
ghost use Rattle.kind_table.specs.CrateTable.{crate_table, kinds};
ghost use Rattle.kind_table.specs.Lawful.{crate_table_is_lawful};

use crate::asks::Asks;
use crate::kind::Kind;
use crate::kinds::Kinds;
use crate::signature::Signature;
use crate::static_result::StaticResult;
use crate::table::KINDS;
use crate::unit_class::UnitClass;
use call_core::Steps;
use kind_values::{ValueRule, kind_value};
use rectangle_core::Value;
use std::alloc::Global;
use value_core::Memory;

/// The table that comes with this crate: 458 kinds, with their signatures, shapes, values and classes of units.
#[derive(Clone, Copy, Debug)]
pub struct CrateKinds;

impl Kinds for CrateKinds {
    ghost table = { λ _. crate_table };

    ghost lawful = { λ _. crate_table_is_lawful };

    fn knows(&self, id: u16) -> bool {
        usize::from(id) < all_kinds().len()
    }

    fn signature(&self, id: u16, count: usize, index: usize) -> Signature {
        match all_kinds().get(usize::from(id)) {
            Some(kind) => kind.signature.signature(count, index),
            None => Signature::Error,
        }
    }

    fn value(&self, alloc: Global, id: u16, values: &[Value]) -> Result<Value, Memory> {
        match all_kinds().get(usize::from(id)) {
            Some(kind) => kind_value(alloc, kind.value, values),
            None => kind_value(alloc, ValueRule::NotImplemented, values),
        }
    }

    fn unit_class(&self, id: u16) -> UnitClass {
        match all_kinds().get(usize::from(id)) {
            Some(kind) => kind.unit_class,
            None => UnitClass::NoUnit,
        }
    }
}

impl<L> Asks<L> for CrateKinds {
    fn shape(&self, id: u16, shapes: &[StaticResult], steps: &mut Steps<L>) -> StaticResult {
        steps.tick();
        match all_kinds().get(usize::from(id)) {
            Some(kind) => kind.shape.shape(shapes),
            None => StaticResult::Scalar,
        }
    }
}

#[tactic(auto, unfolding(crate::specs::CrateTable::kinds))]
fn all_kinds() -> &'static [Kind]
    ensures { result.now ≡ kinds }
{
    &KINDS
}
