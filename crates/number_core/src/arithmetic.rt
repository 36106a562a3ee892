ghost use Rattle.std.specs.Prelude.{◌≡◌, ◌≢◌, ◌+ℤ◌, ◌-ℤ◌, ◌*ℤ◌, neg_ℤ, pos};
ghost use Rattle.std.specs.Int.RustNames.{int_div};
ghost use Rattle.number_core.specs.Number.{in_range, multiplied, percent, power, product, quotient};

use value_core::Error;

/// The sum; `#NUM!` exactly where it is out of range.
pub fn add_numbers(left: i64, right: i64) -> Result<i64, Error>
    ensures { result ≡ in_range (left +ℤ right) }
{
    left.checked_add(right).ok_or(Error::NUM)
}

/// The difference; `#NUM!` exactly where it is out of range.
pub fn subtract_numbers(left: i64, right: i64) -> Result<i64, Error>
    ensures { result ≡ in_range (left -ℤ right) }
{
    left.checked_sub(right).ok_or(Error::NUM)
}

/// The number with the other sign; `#NUM!` exactly where it is out of range.
pub fn negate_number(number: i64) -> Result<i64, Error>
    ensures { result ≡ in_range (neg_ℤ number) }
{
    number.checked_neg().ok_or(Error::NUM)
}

/// A hundredth, cut toward zero.
pub fn percent_number(number: i64) -> i64
    ensures { result ≡ percent number }
{
    number / 100
}

/// The exact product, cut toward zero; `#NUM!` exactly where that is out of range.
pub fn multiply_numbers(left: i64, right: i64) -> Result<i64, Error>
    ensures { result ≡ product left right }
{
    number_in_range(millionth(exact_product(left, right)))
}

/// The exact quotient, cut toward zero; `#DIV/0!` exactly where the right number is 0, and else `#NUM!` exactly where the quotient is out of range.
pub fn divide_numbers(left: i64, right: i64) -> Result<i64, Error>
    ensures { result ≡ quotient left right }
{
    if right == 0 {
        Err(Error::DIV)
    } else {
        number_in_range(exact_quotient(left, right))
    }
}

/// The left number to the power of the right one, which is a whole number from 0 to 1024; `#NUM!` exactly for any other
/// exponent, for 0 to the power 0, and where a product on the way is out of range.
pub fn power_numbers(left: i64, right: i64) -> Result<i64, Error>
    ensures { result ≡ power left right }
{
    match u64::try_from(right) {
        Ok(exponent) => {
            if exponent % 1000000 != 0 || exponent > 1024000000 || (left == 0 && exponent == 0) {
                return Err(Error::NUM);
            }
            multiply_often(1000000, left, exponent / 1000000)
        }
        Err(_) => Err(Error::NUM),
    }
}

/// The first number, multiplied so often by the base.
#[tactic(auto, using(crate::proofs::Powers::powers))]
fn multiply_often(first: i64, base: i64, count: u64) -> Result<i64, Error>
    ensures { result ≡ multiplied base count first }
{
    let mut value = first;
    for step in 0..count {
        match multiply_numbers(value, base) {
            Ok(next) => value = next,
            Err(error) => return Err(error),
        }
    }
    Ok(value)
}

fn exact_product(left: i64, right: i64) -> i128
    ensures { result ≡ left *ℤ right }
{
    i128::from(left) * i128::from(right)
}

fn exact_quotient(left: i64, right: i64) -> i128
    requires { right ≢ pos 0 }
    ensures { result ≡ int_div (left *ℤ pos 1000000) right }
{
    exact_product(left, 1000000) / i128::from(right)
}

fn millionth(number: i128) -> i128
    ensures { result ≡ int_div number (pos 1000000) }
{
    number / 1000000
}

/// A number of more bits; `#NUM!` exactly where it is out of range.
pub fn number_in_range(number: i128) -> Result<i64, Error>
    ensures { result ≡ in_range number }
{
    match i64::try_from(number) {
        Ok(number) => Ok(number),
        Err(_) => Err(Error::NUM),
    }
}
