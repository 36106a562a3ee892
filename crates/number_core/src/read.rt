ghost use Rattle.std.specs.Prelude.{◌≡◌, ◌*◌, ◌^◌, ◌-◌, ◌≤◌, length, option_and_then, pos};
ghost use Rattle.std.specs.Char.{is_ascii_digit};
ghost use Rattle.std.specs.List.{list_all};
ghost use Rattle.number_core.specs.NumberText.{digits_number, fraction_millionths, is_digits, magnitude, negative_number, positive_number, read_number, sum_of, unsigned_in_range, whole_millionths, with_zeros};

/// The number that a text says, in millionths: an optional `+` or `-`, one or more ASCII digits, and optionally `.` and one
/// to six digits. `None` exactly for any other text, and where the number is out of range.
pub fn read_number(text: &str) -> Option<i64>
    ensures { result ≡ read_number text.now }
{
    if let Some(rest) = text.strip_prefix('-') {
        return negative_number(magnitude(rest));
    }
    if let Some(rest) = text.strip_prefix('+') {
        return positive_number(magnitude(rest));
    }
    positive_number(magnitude(text))
}

fn positive_number(magnitude: Option<u64>) -> Option<i64>
    ensures { result ≡ option_and_then positive_number magnitude }
{
    match magnitude {
        Some(number) => i64::try_from(number).ok(),
        None => None,
    }
}

fn negative_number(magnitude: Option<u64>) -> Option<i64>
    ensures { result ≡ option_and_then negative_number magnitude }
{
    match magnitude {
        Some(number) => i64::try_from(-i128::from(number)).ok(),
        None => None,
    }
}

fn magnitude(text: &str) -> Option<u64>
    ensures { result ≡ option_and_then unsigned_in_range (magnitude text.now) }
{
    match text.split_once('.') {
        Some((text, fraction)) => with_fraction(text, fraction),
        None => whole_millionths(text),
    }
}

#[tactic(auto, using(crate::proofs::Fits::fits))]
fn with_fraction(text: &str, fraction: &str) -> Option<u64>
    ensures { result ≡ option_and_then unsigned_in_range (sum_of (whole_millionths text.now) (fraction_millionths fraction.now)) }
{
    sum_of(whole_millionths(text), fraction_millionths(fraction))
}

fn whole_millionths(text: &str) -> Option<u64>
    ensures { result ≡ option_and_then unsigned_in_range (whole_millionths text.now) }
{
    with_zeros(digits_number(text), 6)
}

#[tactic(auto, using(crate::proofs::Fits::fits))]
fn fraction_millionths(fraction: &str) -> Option<u64>
    ensures { result ≡ option_and_then unsigned_in_range (fraction_millionths fraction.now) }
{
    if fraction.len() > 6 {
        None
    } else {
        with_zeros(digits_number(fraction), places_left(fraction.len()))
    }
}

fn places_left(count: usize) -> u32
    requires { count ≤ 6 }
    ensures { result ≡ 6 - count }
{
    6 - count as u32
}

fn sum_of(left: Option<u64>, right: Option<u64>) -> Option<u64>
    ensures { result ≡ option_and_then unsigned_in_range (sum_of left right) }
{
    match (left, right) {
        (Some(left), Some(right)) => left.checked_add(right),
        _ => None,
    }
}

fn with_zeros(number: Option<u64>, places: u32) -> Option<u64>
    requires { places ≤ 6 }
    ensures { result ≡ option_and_then unsigned_in_range (with_zeros places number) }
{
    match number {
        Some(number) => number.checked_mul(10u64.pow(places)),
        None => None,
    }
}

#[tactic(auto, using(crate::proofs::Fits::fits))]
fn digits_number(text: &str) -> Option<u64>
    ensures { result ≡ option_and_then unsigned_in_range (digits_number text.now) }
{
    if !is_digits(text) {
        return None;
    }
    match text.parse::<u64>() {
        Ok(number) => Some(number),
        Err(_) => None,
    }
}

fn is_digits(text: &str) -> bool
    ensures { result ≡ is_digits text.now }
{
    !text.is_empty() && are_digits(text)
}

fn are_digits(text: &str) -> bool
    ensures { result ≡ list_all is_ascii_digit text.now }
{
    text.as_bytes().iter().all(|byte| byte.is_ascii_digit())
}
