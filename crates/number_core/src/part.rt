ghost use Rattle.std.specs.Prelude.{◌≡◌, ◌*ℤ◌, pos};
ghost use Rattle.std.specs.Int.RustNames.{unsigned_abs};
ghost use Rattle.number_core.specs.Number.{in_range, sign};
ghost use Rattle.number_core.specs.Whole.{floor};

use crate::whole::floor;
use value_core::Error;

/// The number without its sign; `#NUM!` exactly where that is out of range.
pub fn absolute_number(number: i64) -> Result<i64, Error>
    ensures { result ≡ in_range (pos (unsigned_abs number)) }
{
    number.checked_abs().ok_or(Error::NUM)
}

/// -1, 0 or 1, in millionths.
pub fn sign_number(number: i64) -> i64
    ensures { result ≡ sign number }
{
    if number < 0 {
        -1000000
    } else if number == 0 {
        0
    } else {
        1000000
    }
}

/// The greatest whole number that is not above the number, in millionths; `#NUM!` exactly where that is out of range.
pub fn floor_number(number: i64) -> Result<i64, Error>
    ensures { result ≡ in_range (floor number *ℤ pos 1000000) }
{
    floor(number).checked_mul(1000000).ok_or(Error::NUM)
}
