ghost use Rattle.std.specs.Prelude.{◌≡◌, fold};
ghost use Rattle.import_core.specs.RangeText.{is_capital, is_digit, is_range_reference};
ghost use Rattle.import_core.specs.Ending.{ends_reference, goes_on, row_or_other};
ghost use Rattle.import_core.specs.declared.range_text.Ending.TheVariants.{Before};

/// What was read of a text, as far as it may still be a reference to a range.
#[derive(Clone, Copy)]
pub(crate) enum Ending {
    /// No colon so far.
    Before,
    /// Behind the last colon, nothing but capital letters.
    Column,
    /// Behind the last colon, capital letters and then digits.
    Row,
    /// Behind the last colon, something else.
    Other,
}

/// Whether a text ends as a reference to a range does: behind its last colon stand none or more of `A` to `Z`, and then none
/// or more of `0` to `9`, and nothing else. A text without a colon does not.
#[tactic(auto, using(crate::proofs::Endings::endings))]
pub fn is_range_reference(text: &str) -> bool
    ensures { result ≡ is_range_reference text.now }
{
    let ending = read_on(text.as_bytes());
    ends_reference(ending)
}

fn read_on(bytes: &[u8]) -> Ending
    ensures { result ≡ fold goes_on Before bytes.now }
{
    bytes
        .iter()
        .fold(Ending::Before, |ending, byte| goes_on(ending, *byte))
}

fn goes_on(ending: Ending, byte: u8) -> Ending
    ensures { result ≡ goes_on ending byte }
{
    if byte == b':' {
        return Ending::Column;
    }
    match ending {
        Ending::Before => Ending::Before,
        Ending::Column if is_capital(byte) => Ending::Column,
        Ending::Column => row_or_other(byte),
        Ending::Row => row_or_other(byte),
        Ending::Other => Ending::Other,
    }
}

fn row_or_other(byte: u8) -> Ending
    ensures { result ≡ row_or_other byte }
{
    if is_digit(byte) {
        Ending::Row
    } else {
        Ending::Other
    }
}

fn is_capital(byte: u8) -> bool
    ensures { result ≡ is_capital byte }
{
    b'A' <= byte && byte <= b'Z'
}

fn is_digit(byte: u8) -> bool
    ensures { result ≡ is_digit byte }
{
    b'0' <= byte && byte <= b'9'
}

fn ends_reference(ending: Ending) -> bool
    ensures { result ≡ ends_reference ending }
{
    match ending {
        Ending::Column | Ending::Row => true,
        Ending::Before | Ending::Other => false,
    }
}
