ghost use Rattle.std.specs.Prelude.{◌≡◌};
ghost use Rattle.serde_json.specs.View.{view};
ghost use Rattle.value_json.specs.Reading.{Finds};
ghost use Rattle.unit_json.specs.Format.{format_in, kind_in, number_in, word_in};

use crate::field::{i32_at, text_at, truth_at, u32_at};
use serde_json::Value;
use units_core::FirstPart;
use value_json::{FormError, check_keys};

/// The keys of a format of numbers.
pub(crate) static NUMBER_KEYS: [&str; 4] = ["kind", "percent", "precision", "use_thousands"];

/// What is said of a number format: one of the words `date`, `general` and `error`, or an object of the kind `number`, with the
/// count of its percent signs, its digits behind the point, and whether thousands are set apart.
pub(crate) fn read_format(value: &Value) -> Result<FirstPart, FormError>
    ensures { Finds result (format_in (view value.now)) }
{
    match value.as_str() {
        Some(word) => match format_word(word) {
            Some(part) => Ok(part),
            None => Err(FormError::NotOfForm),
        },
        None => {
            let part = read_number(value)?;
            Ok(part)
        }
    }
}

fn format_word(word: &str) -> Option<FirstPart>
    ensures { result ≡ word_in word.now }
{
    if word == "date" {
        Some(FirstPart::Date)
    } else if word == "general" {
        Some(FirstPart::General)
    } else if word == "error" {
        Some(FirstPart::Error)
    } else {
        None
    }
}

#[tactic(auto, unfolding(crate::specs::Format::number_in))]
fn read_number(value: &Value) -> Result<FirstPart, FormError>
    ensures { Finds result (number_in (view value.now)) }
{
    check_keys(value, &NUMBER_KEYS)?;
    check_kind(text_at(value, "kind")?)?;
    let percent = u32_at(value, "percent")?;
    let use_thousands = truth_at(value, "use_thousands")?;
    let precision = i32_at(value, "precision")?;
    Ok(FirstPart::Number {
        percent,
        use_thousands,
        precision,
    })
}

fn check_kind(kind: &str) -> Result<(), FormError>
    ensures { Finds result (kind_in kind.now) }
{
    if kind == "number" {
        Ok(())
    } else {
        Err(FormError::NotOfForm)
    }
}
