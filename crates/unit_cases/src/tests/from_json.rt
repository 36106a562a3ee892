use super::read_formats::formats_in;
use super::read_locales::locale_in;
use super::written_units::written;
use super::{book_of_sides, unit_of};
use std::alloc::Global;
use std::test::Fail;
use units_core::Units;

const FORMATS: &str =
    r#"{"$#,##0":{"kind":"number","percent":0,"precision":0,"use_thousands":true},"0%":{"kind":"number","percent":1,"precision":0,"use_thousands":false}}"#;

const LOCALE: &str =
    r##"{"currency_symbol":"€","currency_standard":"#,##0.00\u00a0¤","date_short":"dd.MM.yy","time_short":"HH:mm","date_time_short":"{1}, {0}"}"##;

/// Formulas of A1, which holds whole dollars, and B1, which holds a percentage, and what is
/// written of their units.
static FORMULAS: [(&str, &str); 6] = [
    (
        r#"["mul",["ref",0,null,true,true,1,1],["ref",0,null,true,true,1,2]]"#,
        r#"{"currency":"$","group_separator":true,"kind":"Currency","num_fmt":"$#,##0.00","precision":2}"#,
    ),
    (
        r#"["div",["ref",0,null,true,true,1,1],["ref",0,null,true,true,1,2]]"#,
        "null",
    ),
    (
        r#"["call","SUM",["ref",0,null,true,true,1,1]]"#,
        r#"{"currency":"$","group_separator":true,"kind":"Currency","num_fmt":"$#,##0","precision":0}"#,
    ),
    (
        r#"["neg",["ref",0,null,true,true,1,2]]"#,
        r#"{"group_separator":false,"kind":"Percentage","num_fmt":"0%","precision":0}"#,
    ),
    (
        r#"["call","PMT"]"#,
        r##"{"currency":"€","group_separator":true,"kind":"Currency","num_fmt":"#,##0.00 €","precision":2}"##,
    ),
    (
        r#"["call","NOW"]"#,
        r#"{"kind":"Date","num_fmt":"dd.MM.yyyy, HH:mm"}"#,
    ),
];

#[test]
fn units_go_from_json_to_json(rt: HostRuntime) -> Result<(), Fail> {
    for &(text, wanted) in &FORMULAS {
        assert!(rt; is_written(rt.alloc(), text, wanted)?, "{text}");
    }
    Ok(())
}

fn is_written(alloc: Global, text: &str, wanted: &str) -> Result<bool, Fail> {
    let unit = unit(alloc, text)?;
    let bytes = written(alloc, &unit)?;
    Ok(bytes.as_slice() == wanted.as_bytes())
}

fn unit(alloc: Global, text: &str) -> Result<Option<Units>, Fail> {
    let book = book_of_sides(alloc, "$#,##0", "0%")?;
    let formats = formats_in(alloc, FORMATS)?;
    let locale = locale_in(alloc, LOCALE)?;
    unit_of(alloc, text, &book, &formats, &locale)
}
