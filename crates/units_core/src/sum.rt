ghost use Rattle.std.specs.Prelude.{◌≡◌};
ghost use Rattle.units_core.specs.Product.{sum_unit};

use crate::units::Units;

/// The unit of a sum or a difference: the only one that its sides have; of two the one with more digits behind the point, the left
/// one where both have as many.
pub(crate) fn sum_unit(left: Option<Units>, right: Option<Units>) -> Option<Units>
    ensures { result ≡ sum_unit left right }
{
    match (left, right) {
        (Some(left), Some(right)) => {
            if left.get_precision() < right.get_precision() {
                Some(right)
            } else {
                Some(left)
            }
        }
        (None, right) => right,
        (left, None) => left,
    }
}
