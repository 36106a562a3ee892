ghost use Rattle.std.specs.Prelude.{◌≡◌, ◌+◌};

use crate::kinds::Kinds;
use crate::static_result::StaticResult;
use call_core::Steps;

/// A table of kinds that is asked for shapes, each time counted in a ledger of the asker's choice.
pub trait Asks<L>: Kinds {
    /// The shape of a call over arguments of these shapes.
    fn shape(&self, id: u16, shapes: &[StaticResult], steps: &mut Steps<L>) -> StaticResult
        ensures value { result ≡ (Self.table self.now).shape id shapes.now }
        ensures counted { steps.new ≡ steps.old + 1 };
}
