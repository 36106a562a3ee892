use super::Parts::{self, Currency, Date, Nothing, Number, Percentage};
use super::{book_of_sides, parts_of, unit_of};
use std::alloc::Global;
use std::test::Fail;
use units_core::{FirstPart, Formats, Locale, MapFormats};
use value_core::{Memory, Text};

const REFERENCE: &str = r#"["ref",0,null,true,true,1,1]"#;

/// Number formats of numbers: the count of percent signs, whether thousands are set apart, the
/// digits behind the point, and the unit of a cell that is shown so.
static NUMBERS: [(&str, u32, bool, i32, Parts); 22] = [
    ("0", 0, false, 0, Number(false, 0, "0")),
    ("#,##0.00", 0, true, 2, Number(true, 2, "#,##0.00")),
    ("0.0E+0", 0, false, 1, Number(false, 1, "0.0E+0")),
    ("0", 0, false, i32::MIN, Number(false, i32::MIN, "0")),
    ("0", 0, true, i32::MAX, Number(true, i32::MAX, "0")),
    ("0;[Red]-0", 0, false, 0, Number(false, 0, "0;[Red]-0")),
    ("$0", 0, false, 0, Currency(false, 0, "$0", "$")),
    ("0 $;-0 $", 0, true, 0, Currency(true, 0, "0 $;-0 $", "$")),
    (
        "[$-409]0.0",
        0,
        false,
        1,
        Currency(false, 1, "[$-409]0.0", "$"),
    ),
    ("0 €", 0, false, 0, Currency(false, 0, "0 €", "€")),
    ("€#,##0.00", 0, true, 2, Currency(true, 2, "€#,##0.00", "€")),
    ("[$€-2] 0", 0, false, 0, Currency(false, 0, "[$€-2] 0", "$")),
    ("0 €;$0", 0, false, 0, Currency(false, 0, "0 €;$0", "$")),
    ("$", 0, false, i32::MIN, Currency(false, i32::MIN, "$", "$")),
    ("£0", 0, false, 0, Number(false, 0, "£0")),
    ("₨0", 0, false, 0, Number(false, 0, "₨0")),
    ("¤0", 0, false, 0, Number(false, 0, "¤0")),
    ("0%", 1, false, 0, Percentage(false, 0, "0%")),
    ("#,##0.0%%", 2, true, 1, Percentage(true, 1, "#,##0.0%%")),
    ("0", u32::MAX, false, 0, Percentage(false, 0, "0")),
    (
        "$0%",
        1,
        false,
        i32::MAX,
        Percentage(false, i32::MAX, "$0%"),
    ),
    ("0%", 0, false, 0, Number(false, 0, "0%")),
];

#[test]
fn formats_of_numbers_give_units(rt: HostRuntime) -> Result<(), Fail> {
    for &(num_fmt, percent, use_thousands, precision, wanted) in &NUMBERS {
        let part = FirstPart::Number {
            percent,
            use_thousands,
            precision,
        };
        assert!(rt; gives(rt.alloc(), num_fmt, part, wanted)?, "{num_fmt}");
    }
    Ok(())
}

/// Other number formats, what their first part is, and the unit.
static OTHERS: [(&str, FirstPart, Parts); 11] = [
    ("m/d/yy", FirstPart::Date, Date("m/d/yy")),
    (
        "[$-409]m/d/yy h:mm",
        FirstPart::Date,
        Date("[$-409]m/d/yy h:mm"),
    ),
    ("0%", FirstPart::Date, Date("0%")),
    ("d.\u{a0}m.", FirstPart::Date, Date("d.\u{a0}m.")),
    ("General", FirstPart::General, Nothing),
    ("$0", FirstPart::General, Nothing),
    ("[", FirstPart::Error, Nothing),
    ("0%", FirstPart::Error, Nothing),
    ("0 €", FirstPart::None, Nothing),
    ("m/d/yy", FirstPart::None, Nothing),
    ("0", FirstPart::None, Nothing),
];

#[test]
fn other_formats_give_dates_or_none(rt: HostRuntime) -> Result<(), Fail> {
    for &(num_fmt, part, wanted) in &OTHERS {
        assert!(rt; gives(rt.alloc(), num_fmt, part, wanted)?, "{num_fmt}");
    }
    Ok(())
}

/// Whether a cell of a number format has a unit, where this is the format's first part.
fn gives(alloc: Global, num_fmt: &str, part: FirstPart, wanted: Parts) -> Result<bool, Fail> {
    let book = book_of_sides(alloc, num_fmt, "")?;
    let mut formats = MapFormats::new(alloc);
    formats.set(Text::from_text(alloc, num_fmt)?, part)?;
    let locale = Locale::standard(alloc)?;
    let unit = unit_of(alloc, REFERENCE, &book, &formats, &locale)?;
    Ok(parts_of(&unit) == wanted)
}

/// What is said of number formats, one after the other.
static SAID: [(&str, FirstPart); 6] = [
    ("0", FirstPart::Date),
    ("0.0", FirstPart::Error),
    ("", FirstPart::Date),
    ("0", FirstPart::General),
    (
        "0",
        FirstPart::Number {
            percent: 1,
            use_thousands: true,
            precision: -1,
        },
    ),
    ("0.0", FirstPart::None),
];

/// What is known afterwards.
static KNOWN: [(&str, FirstPart); 6] = [
    (
        "0",
        FirstPart::Number {
            percent: 1,
            use_thousands: true,
            precision: -1,
        },
    ),
    ("0.0", FirstPart::None),
    ("", FirstPart::Date),
    ("0.00", FirstPart::None),
    ("00", FirstPart::None),
    (" ", FirstPart::None),
];

#[test]
fn what_is_said_last_of_a_format_counts(rt: HostRuntime) -> Result<(), Fail> {
    for &(num_fmt, part) in &KNOWN {
        assert_eq!(rt; known(rt.alloc(), num_fmt)?, part, "{num_fmt}");
        assert_eq!(rt;
            known_at_first(rt.alloc(), num_fmt),
            FirstPart::None,
            "{num_fmt}"
        );
    }
    Ok(())
}

fn known(alloc: Global, num_fmt: &str) -> Result<FirstPart, Memory> {
    let mut formats = MapFormats::new(alloc);
    for &(said, part) in &SAID {
        formats.set(Text::from_text(alloc, said)?, part)?;
    }
    Ok(formats.first_part(num_fmt))
}

fn known_at_first(alloc: Global, num_fmt: &str) -> FirstPart {
    let formats = MapFormats::new(alloc);
    formats.first_part(num_fmt)
}
