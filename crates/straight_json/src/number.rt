ghost use Rattle.std.specs.Prelude.{◌≡◌, ◌==◌, ◌<◌, IfSome, IsTrue, Some, true, false, length, option_and_then, slice_index};
ghost use Rattle.serde_json.specs.Data.{unsigned, negative};
ghost use Rattle.serde_json.specs.Find.{as_i64};
ghost use Rattle.serde_json.specs.Read.{number_from, number_of};

use fast_float::Numeral;

/// The whole number that a numeral without a minus is.
#[inline(always)]
fn plain(numeral: &Numeral<'_>) -> Option<u64>
    ensures { IfSome result (λ whole. number_from false numeral.now ≡ Some (unsigned whole)) }
{
    numeral.to_u64()
}

/// The whole number that a numeral behind a minus is. None for 0, which is a float then.
#[inline(always)]
fn below_zero(numeral: &Numeral<'_>) -> Option<i64>
    ensures { IfSome result (λ whole. number_from true numeral.now ≡ Some (negative whole)) }
{
    match numeral.to_i64(true) {
        Some(whole) if whole < 0 => Some(whole),
        _ => None,
    }
}

#[inline(always)]
fn has_minus(bytes: &[u8]) -> bool
    ensures value { result ≡ (slice_index bytes.now 0 == 45) }
    ensures len { IsTrue result → 0 < length bytes.now }
{
    !bytes.is_empty() && bytes[0] == b'-'
}

/// The whole number from 0 to 2^64 - 1 that the text of a number is, if it has no minus.
#[inline(always)]
pub(crate) fn unsigned_whole(text: &str) -> Option<u64>
    ensures { IfSome result (λ whole. number_of text.now ≡ Some (unsigned whole)) }
{
    let bytes = text.as_bytes();
    if has_minus(bytes) {
        None
    } else {
        plain(&Numeral::scan(bytes))
    }
}

/// The whole number below 0 that the text of a number is.
#[inline(always)]
pub(crate) fn negative_whole(text: &str) -> Option<i64>
    ensures { IfSome result (λ whole. number_of text.now ≡ Some (negative whole)) }
{
    let bytes = text.as_bytes();
    if has_minus(bytes) {
        below_zero(&Numeral::scan(&bytes[1..]))
    } else {
        None
    }
}

/// The whole number from -2^63 to 2^63 - 1 that the text of a number is.
#[inline(always)]
pub(crate) fn whole(text: &str) -> Option<i64>
    ensures { IfSome result (λ whole. option_and_then as_i64 (number_of text.now) ≡ Some whole) }
{
    match unsigned_whole(text) {
        Some(whole) if whole <= i64::MAX as u64 => Some(whole as i64),
        Some(_) => None,
        None => negative_whole(text),
    }
}
