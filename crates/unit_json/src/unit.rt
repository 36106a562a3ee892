ghost use Rattle.std.specs.Prelude.{◌≡◌, ◌∷◌, [], codes};
ghost use Rattle.json.specs.Token.{boolean, key, string};
ghost use Rattle.value_json.specs.Piece.{Writes, data_tokens, whole};
ghost use Rattle.unit_json.specs.Unit.{date_data, digits, money_data, plain_data, plain_tokens, unit_data, unit_or_null};

use json::Writer;
use units_core::Units;
use value_core::{Memory, Text};
use value_json::write_whole;

/// Writes a unit, or null where there is none: an object of its kind, its number format, its precision and whether it sets
/// thousands apart, and of an amount of money the sign of its currency. A date has its format alone.
pub fn write_unit(writer: &mut Writer, unit: &Option<Units>) -> Result<(), Memory>
    ensures { Writes result writer.old writer.new (data_tokens (unit_or_null unit.now)) }
{
    match unit {
        Some(unit) => write_some(writer, unit)?,
        None => writer.null()?,
    }
    Ok(())
}

fn write_some(writer: &mut Writer, unit: &Units) -> Result<(), Memory>
    ensures { Writes result writer.old writer.new (data_tokens (unit_data unit.now)) }
{
    match unit {
        Units::Number {
            group_separator,
            precision,
            num_fmt,
        } => {
            let digits = Digits::new(*group_separator, *precision);
            write_plain(writer, "Number", num_fmt, digits)
        }
        Units::Percentage {
            group_separator,
            precision,
            num_fmt,
        } => {
            let digits = Digits::new(*group_separator, *precision);
            write_plain(writer, "Percentage", num_fmt, digits)
        }
        Units::Currency {
            group_separator,
            precision,
            num_fmt,
            currency,
        } => {
            let digits = Digits::new(*group_separator, *precision);
            write_money(writer, currency, num_fmt, digits)
        }
        Units::Date(num_fmt) => write_date(writer, num_fmt),
    }
}

/// How a unit writes the digits of a number.
#[derive(Clone, Copy)]
pub(crate) struct Digits {
    pub(crate) group_separator: bool,
    pub(crate) precision: i32,
}

impl Digits {
    fn new(group_separator: bool, precision: i32) -> Digits
        ensures { result ≡ digits group_separator precision }
    {
        Digits {
            group_separator,
            precision,
        }
    }
}

fn write_plain(
    writer: &mut Writer,
    kind: &str,
    num_fmt: &Text,
    digits: Digits,
) -> Result<(), Memory>
    ensures { Writes result writer.old writer.new (data_tokens (plain_data digits kind.now num_fmt.now)) }
{
    writer.begin_object()?;
    write_parts(writer, kind, num_fmt, digits)?;
    writer.end_object()?;
    Ok(())
}

fn write_money(
    writer: &mut Writer,
    currency: &Text,
    num_fmt: &Text,
    digits: Digits,
) -> Result<(), Memory>
    ensures { Writes result writer.old writer.new (data_tokens (money_data digits currency.now num_fmt.now)) }
{
    writer.begin_object()?;
    write_text(writer, "currency", currency)?;
    write_parts(writer, "Currency", num_fmt, digits)?;
    writer.end_object()?;
    Ok(())
}

fn write_date(writer: &mut Writer, num_fmt: &Text) -> Result<(), Memory>
    ensures { Writes result writer.old writer.new (data_tokens (date_data num_fmt.now)) }
{
    writer.begin_object()?;
    write_kind(writer, "Date")?;
    write_text(writer, "num_fmt", num_fmt)?;
    writer.end_object()?;
    Ok(())
}

/// The members that all units but a date have.
fn write_parts(
    writer: &mut Writer,
    kind: &str,
    num_fmt: &Text,
    digits: Digits,
) -> Result<(), Memory>
    ensures { Writes result writer.old writer.new (plain_tokens digits kind.now num_fmt.now) }
{
    write_separator(writer, digits)?;
    write_kind(writer, kind)?;
    write_text(writer, "num_fmt", num_fmt)?;
    write_precision(writer, digits)?;
    Ok(())
}

fn write_separator(writer: &mut Writer, digits: Digits) -> Result<(), Memory>
    ensures { Writes result writer.old writer.new (key (codes "group_separator") ∷ boolean digits.group_separator ∷ []) }
{
    writer.key("group_separator")?;
    writer.boolean(digits.group_separator)?;
    Ok(())
}

fn write_kind(writer: &mut Writer, kind: &str) -> Result<(), Memory>
    ensures { Writes result writer.old writer.new (key (codes "kind") ∷ string kind.now ∷ []) }
{
    writer.key("kind")?;
    writer.string(kind)?;
    Ok(())
}

fn write_text(writer: &mut Writer, name: &str, text: &Text) -> Result<(), Memory>
    ensures { Writes result writer.old writer.new (key name.now ∷ string text.now ∷ []) }
{
    writer.key(name)?;
    writer.string(text.as_str())?;
    Ok(())
}

fn write_precision(writer: &mut Writer, digits: Digits) -> Result<(), Memory>
    ensures { Writes result writer.old writer.new (key (codes "precision") ∷ data_tokens (whole digits.precision)) }
{
    writer.key("precision")?;
    write_whole(writer, i64::from(digits.precision))?;
    Ok(())
}
