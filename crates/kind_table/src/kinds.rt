ghost use Rattle.std.specs.Prelude.{◌≡◌, IfOk};
ghost use Rattle.kind_table.specs.Table.{IsLawful, Table};

use crate::signature::Signature;
use crate::unit_class::UnitClass;
use rectangle_core::Value;
use std::alloc::Global;
use value_core::Memory;

/// A table of kinds by number: what import and analysis ask of a function that has no rules of its own.
pub trait Kinds {
    ghost table: { Self → Table };

    /// Whether the table has a kind of this number.
    fn knows(&self, id: u16) -> bool
        ensures { result ≡ (table self.now).knows id };

    /// How a call with `count` arguments takes the one at `index`, from 0.
    fn signature(&self, id: u16, count: usize, index: usize) -> Signature
        ensures { result ≡ (table self.now).signature id count index };

    /// The value of a call over arguments of these values: a function of the number and the values alone.
    fn value(&self, alloc: Global, id: u16, values: &[Value]) -> Result<Value, Memory>
        ensures { IfOk result (λ value. value ≡ (table self.now).value id values.now) };

    /// By which rule a call has a display unit.
    fn unit_class(&self, id: u16) -> UnitClass
        ensures { result ≡ (table self.now).unit_class id };

    ghost lawful: { (kinds : Self) → IsLawful (table kinds) };
}
