use book_core::{Book, MemoryBook};
use formula_json::read_node;
use kind_table::CrateKinds;
use serde_json::Value;
use std::alloc::Global;
use std::test::Fail;
use tree_core::Node;
use units_core::{FirstPart, Locale, MapFormats, Units, compute_node_units};
use value_core::{ArrayNode, CellReferenceIndex, Memory, Text};

mod calls;
mod from_json;
mod locales;
mod nodes;
mod number_formats;
mod products;
mod read_formats;
mod read_locales;
mod sums;
mod unit_parts;
mod written_units;

/// What a unit says: whether thousands are set apart, the digits behind the point, the number
/// format, and the currency's sign.
#[derive(Clone, Copy, Debug, PartialEq)]
enum Parts<'a> {
    Nothing,
    Number(bool, i32, &'a str),
    Currency(bool, i32, &'a str, &'a str),
    Percentage(bool, i32, &'a str),
    Date(&'a str),
}

fn parts_of(unit: &Option<Units>) -> Parts {
    match unit {
        None => Parts::Nothing,
        Some(
            Units::Number {
                group_separator,
                precision,
                num_fmt,
            },
        ) => Parts::Number(*group_separator, *precision, num_fmt.as_str()),
        Some(
            Units::Currency {
                group_separator,
                precision,
                num_fmt,
                currency,
            },
        ) => Parts::Currency(
            *group_separator,
            *precision,
            num_fmt.as_str(),
            currency.as_str(),
        ),
        Some(
            Units::Percentage {
                group_separator,
                precision,
                num_fmt,
            },
        ) => Parts::Percentage(*group_separator, *precision, num_fmt.as_str()),
        Some(Units::Date(num_fmt)) => Parts::Date(num_fmt.as_str()),
    }
}

/// Number formats, each with the count of its percent signs, whether thousands are set apart, and
/// the digits behind the point. The last six only stand for formats with so many digits.
static NUMBERS: [(&str, u32, bool, i32); 25] = [
    ("0", 0, false, 0),
    ("0.0", 0, false, 1),
    ("0.00", 0, false, 2),
    ("00.00", 0, false, 2),
    ("#,##0", 0, true, 0),
    ("#,##0.00", 0, true, 2),
    ("$0", 0, false, 0),
    ("$#,##0", 0, true, 0),
    ("$0.0", 0, false, 1),
    ("$0.00", 0, false, 2),
    ("$#,##0.00", 0, true, 2),
    ("0.0 €", 0, false, 1),
    ("0.000 €", 0, false, 3),
    ("0%", 1, false, 0),
    ("0.0%", 1, false, 1),
    ("0.00%", 1, false, 2),
    ("00.00%", 1, false, 2),
    ("#,##0.00%", 1, true, 2),
    ("0.000%", 1, false, 3),
    ("least", 0, false, i32::MIN),
    ("greatest", 0, false, i32::MAX),
    ("$ least", 0, false, i32::MIN),
    ("$ greatest", 0, false, i32::MAX),
    ("% least", 1, false, i32::MIN),
    ("% greatest", 1, false, i32::MAX),
];

/// Number formats of dates.
static DATES: [&str; 2] = ["m/d/yy", "yyyy-mm-dd"];

fn formats(alloc: Global) -> Result<MapFormats, Memory> {
    let mut formats = MapFormats::new(alloc);
    for &(num_fmt, percent, use_thousands, precision) in &NUMBERS {
        let part = FirstPart::Number {
            percent,
            use_thousands,
            precision,
        };
        formats.set(Text::from_text(alloc, num_fmt)?, part)?;
    }
    for num_fmt in &DATES {
        formats.set(Text::from_text(alloc, num_fmt)?, FirstPart::Date)?;
    }
    Ok(formats)
}

fn cell(sheet: u32, row: i32, column: i32) -> CellReferenceIndex {
    CellReferenceIndex { sheet, row, column }
}

/// Gives a cell a number format, or none by the empty text.
fn show(
    alloc: Global,
    book: &mut MemoryBook,
    at: CellReferenceIndex,
    num_fmt: &str,
) -> Result<(), Memory> {
    let num_fmt = text_or_none(alloc, num_fmt)?;
    book.set(at, ArrayNode::Number(1000000), num_fmt, None)
}

fn text_or_none(alloc: Global, text: &str) -> Result<Option<Text>, Memory> {
    if text.is_empty() {
        Ok(None)
    } else {
        Ok(Some(Text::from_text(alloc, text)?))
    }
}

/// A book of two sheets without cells.
fn book_of_sheets(alloc: Global) -> Result<MemoryBook, Memory> {
    let mut book = MemoryBook::new(alloc);
    add_sheet(alloc, &mut book, "Sheet1")?;
    add_sheet(alloc, &mut book, "Sheet2")?;
    Ok(book)
}

fn add_sheet(alloc: Global, book: &mut MemoryBook, name: &str) -> Result<(), Memory> {
    if book.sheet_count() < 2 {
        book.add_sheet(Text::from_text(alloc, name)?)
    } else {
        Ok(())
    }
}

/// A book whose cells A1 and B1 have these number formats.
fn book_of_sides(alloc: Global, left: &str, right: &str) -> Result<MemoryBook, Memory> {
    let mut book = book_of_sheets(alloc)?;
    show(alloc, &mut book, cell(0, 1, 1), left)?;
    show(alloc, &mut book, cell(0, 1, 2), right)?;
    Ok(book)
}

/// The formula of a JSON text.
fn formula(alloc: Global, text: &str) -> Result<Node, Fail> {
    let value = Value::from_str(alloc, text)?;
    let node = read_node(alloc, &value)?;
    drop(value);
    Ok(node)
}

/// The unit of a formula in D4.
fn unit_of(
    alloc: Global,
    text: &str,
    book: &MemoryBook,
    formats: &MapFormats,
    locale: &Locale,
) -> Result<Option<Units>, Fail> {
    let node = formula(alloc, text)?;
    let at = cell(0, 4, 4);
    let unit = compute_node_units(alloc, &node, at, &CrateKinds, book, formats, locale)?;
    drop(node);
    Ok(unit)
}

/// Whether a formula of A1 and B1 has a unit, where these cells have these number formats.
fn has_unit(
    alloc: Global,
    text: &str,
    left: &str,
    right: &str,
    wanted: Parts,
) -> Result<bool, Fail> {
    let book = book_of_sides(alloc, left, right)?;
    let formats = formats(alloc)?;
    let locale = Locale::standard(alloc)?;
    let unit = unit_of(alloc, text, &book, &formats, &locale)?;
    Ok(parts_of(&unit) == wanted)
}
