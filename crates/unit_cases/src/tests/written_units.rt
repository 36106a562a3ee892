use super::Parts::{self, Currency, Date, Nothing, Number, Percentage};
use super::unit_parts::made;
use json::Writer;
use std::alloc::Global;
use std::test::Fail;
use unit_json::write_unit;
use units_core::Units;

/// Units, and what is written of them.
static WRITTEN: [(Parts, &str); 9] = [
    (Nothing, "null"),
    (
        Number(false, 0, "0"),
        r#"{"group_separator":false,"kind":"Number","num_fmt":"0","precision":0}"#,
    ),
    (
        Number(true, -2147483648, ""),
        r#"{"group_separator":true,"kind":"Number","num_fmt":"","precision":-2147483648}"#,
    ),
    (
        Currency(true, 2, "$#,##0.00", "$"),
        r#"{"currency":"$","group_separator":true,"kind":"Currency","num_fmt":"$#,##0.00","precision":2}"#,
    ),
    (
        Currency(false, 2147483647, "0 \"€\"", "€"),
        r#"{"currency":"€","group_separator":false,"kind":"Currency","num_fmt":"0 \"€\"","precision":2147483647}"#,
    ),
    (
        Percentage(false, 2, "0.00%"),
        r#"{"group_separator":false,"kind":"Percentage","num_fmt":"0.00%","precision":2}"#,
    ),
    (
        Percentage(true, -1, "0\\%\n"),
        r#"{"group_separator":true,"kind":"Percentage","num_fmt":"0\\%\n","precision":-1}"#,
    ),
    (
        Date("m/d/yyyy, h:mm AM/PM"),
        r#"{"kind":"Date","num_fmt":"m/d/yyyy, h:mm AM/PM"}"#,
    ),
    (Date(""), r#"{"kind":"Date","num_fmt":""}"#),
];

#[test]
fn units_are_written_as_objects(rt: HostRuntime) -> Result<(), Fail> {
    for &(unit, wanted) in &WRITTEN {
        assert!(rt; is_written(rt.alloc(), unit, wanted)?, "{wanted}");
    }
    Ok(())
}

fn is_written(alloc: Global, unit: Parts, wanted: &str) -> Result<bool, Fail> {
    let unit = made(alloc, unit)?;
    let bytes = written(alloc, &unit)?;
    Ok(bytes.as_slice() == wanted.as_bytes())
}

/// The bytes that are written of a unit.
pub(super) fn written(alloc: Global, unit: &Option<Units>) -> Result<Vec<u8>, Fail> {
    let mut writer = Writer::new(Vec::new(alloc));
    write_unit(&mut writer, unit)?;
    Ok(writer.into_inner())
}
