ghost use Rattle.std.specs.Prelude.{◌≡◌};
ghost use Rattle.std.specs.Int.{saturate_signed, saturate_unsigned, w32, w64};
ghost use Rattle.number_core.specs.Whole.{floor, trunc};

/// The whole number of a number in millionths, cut toward zero.
pub fn trunc(number: i64) -> i64
    ensures { result ≡ trunc number }
{
    number / 1000000
}

/// The greatest whole number that is not above a number in millionths.
pub fn floor(number: i64) -> i64
    ensures { result ≡ floor number }
{
    number.div_euclid(1000000)
}

/// The number of the smaller type that is nearest to a number.
pub fn saturating_i64_to_i32(number: i64) -> i32
    ensures { result ≡ saturate_signed w32 number }
{
    match i32::try_from(number) {
        Ok(number) => number,
        Err(_) => { if number < 0 { i32::MIN } else { i32::MAX } }
    }
}

/// The number of the unsigned type that is nearest to a number: itself, or 0 where it is negative.
pub fn saturating_i64_to_usize(number: i64) -> usize
    ensures { result ≡ saturate_unsigned w64 number }
{
    match usize::try_from(number) {
        Ok(number) => number,
        Err(_) => 0,
    }
}
