ghost use Rattle.std.specs.Prelude.{◌≡◌, ◌≤◌, IfSome, IsTrue, drop, length};
ghost use Rattle.std.specs.Str.{bytes_eq, str_eq_ignore_ascii_case};
ghost use Rattle.split_core.specs.Pieces.{IsMatch, begins, matched, none_empty, same_bytes};

use value_core::Text;

/// Whether no delimiter of a list is empty.
pub fn none_empty(delimiters: &[Text]) -> bool
    ensures { result ≡ none_empty delimiters.now }
{
    delimiters
        .iter()
        .all(|delimiter| 1 <= delimiter.as_str().len())
}

/// How long the first delimiter of a list is that matches at a place of a text; `None` exactly where none does.
pub(crate) fn matched(blind: bool, delimiters: &[Text], text: &str, place: usize) -> Option<usize>
    requires within { place ≤ length text.now }
    requires none_empty { IsTrue (none_empty delimiters.now) }
    ensures value { result ≡ matched blind delimiters.now (drop place text.now) }
    ensures whole { IfSome result (λ n. IsMatch text.now place n) }
{
    for delimiter in delimiters {
        let delimiter = delimiter.as_str();
        if begins(blind, text, place, delimiter) {
            return Some(delimiter.len());
        }
    }
    None
}

/// Whether a delimiter matches at a place of a text.
fn begins(blind: bool, text: &str, place: usize, delimiter: &str) -> bool
    requires { place ≤ length text.now }
    ensures value { result ≡ begins blind (drop place text.now) delimiter.now }
    ensures whole { 1 ≤ length delimiter.now → IsTrue result → IsMatch text.now place (length delimiter.now) }
{
    begins_with(blind, &text.as_bytes()[place..], delimiter.as_bytes())
}

/// As `begins`, of bytes.
fn begins_with(blind: bool, text: &[u8], delimiter: &[u8]) -> bool
    ensures { result ≡ begins blind text.now delimiter.now }
{
    delimiter.len() <= text.len() && same_bytes(blind, &text[..delimiter.len()], delimiter)
}

fn same_bytes(blind: bool, left: &[u8], right: &[u8]) -> bool
    ensures { result ≡ same_bytes blind left.now right.now }
{
    if blind {
        are_alike(left, right)
    } else {
        are_equal(left, right)
    }
}

fn are_alike(left: &[u8], right: &[u8]) -> bool
    ensures { result ≡ str_eq_ignore_ascii_case left.now right.now }
{
    left.eq_ignore_ascii_case(right)
}

fn are_equal(left: &[u8], right: &[u8]) -> bool
    ensures { result ≡ bytes_eq left.now right.now }
{
    left == right
}
