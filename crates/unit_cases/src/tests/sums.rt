use super::Parts::{self, Currency, Date, Nothing, Number, Percentage};
use super::has_unit;
use std::test::Fail;

const SUM: &str = r#"["add",["ref",0,null,true,true,1,1],["ref",0,null,true,true,1,2]]"#;

const DIFFERENCE: &str = r#"["sub",["ref",0,null,true,true,1,1],["ref",0,null,true,true,1,2]]"#;

/// Two sides, and the unit of their sum, which is that of their difference too.
static SUMS: [(&str, &str, Parts); 54] = [
    // at most one side has a unit
    ("", "", Nothing),
    ("", "0.0", Number(false, 1, "0.0")),
    ("", "$0", Currency(false, 0, "$0", "$")),
    ("", "0%", Percentage(false, 0, "0%")),
    ("", "m/d/yy", Date("m/d/yy")),
    ("", "least", Number(false, i32::MIN, "least")),
    ("0.0", "", Number(false, 1, "0.0")),
    ("$0", "", Currency(false, 0, "$0", "$")),
    ("0%", "", Percentage(false, 0, "0%")),
    ("m/d/yy", "", Date("m/d/yy")),
    ("least", "", Number(false, i32::MIN, "least")),
    // the left side has more digits
    ("0.0", "0", Number(false, 1, "0.0")),
    ("0.00", "$0.0", Number(false, 2, "0.00")),
    ("0.0", "0%", Number(false, 1, "0.0")),
    ("0.0", "m/d/yy", Number(false, 1, "0.0")),
    ("$0.0", "0", Currency(false, 1, "$0.0", "$")),
    ("0.000 €", "$0.00", Currency(false, 3, "0.000 €", "€")),
    ("0.000%", "00.00%", Percentage(false, 3, "0.000%")),
    ("m/d/yy", "least", Date("m/d/yy")),
    ("greatest", "least", Number(false, i32::MAX, "greatest")),
    // the right side has more digits
    ("0", "0.0", Number(false, 1, "0.0")),
    ("0", "$0.00", Currency(false, 2, "$0.00", "$")),
    ("0.0", "#,##0.00%", Percentage(true, 2, "#,##0.00%")),
    ("least", "m/d/yy", Date("m/d/yy")),
    ("$0", "0.0", Number(false, 1, "0.0")),
    ("$0.0", "0.000 €", Currency(false, 3, "0.000 €", "€")),
    ("$0", "0.0%", Percentage(false, 1, "0.0%")),
    ("$ least", "m/d/yy", Date("m/d/yy")),
    ("0%", "#,##0.00", Number(true, 2, "#,##0.00")),
    ("0%", "$0.0", Currency(false, 1, "$0.0", "$")),
    ("0%", "0.0%", Percentage(false, 1, "0.0%")),
    ("% least", "m/d/yy", Date("m/d/yy")),
    ("m/d/yy", "0.0", Number(false, 1, "0.0")),
    ("m/d/yy", "$0.0", Currency(false, 1, "$0.0", "$")),
    ("m/d/yy", "0.0%", Percentage(false, 1, "0.0%")),
    ("least", "greatest", Number(false, i32::MAX, "greatest")),
    // both have as many
    ("0.00", "00.00", Number(false, 2, "0.00")),
    ("0", "$0", Number(false, 0, "0")),
    ("0", "0%", Number(false, 0, "0")),
    ("0", "m/d/yy", Number(false, 0, "0")),
    ("$0", "0", Currency(false, 0, "$0", "$")),
    ("$0.0", "0.0 €", Currency(false, 1, "$0.0", "$")),
    ("$0", "0%", Currency(false, 0, "$0", "$")),
    ("$0", "m/d/yy", Currency(false, 0, "$0", "$")),
    ("0%", "0", Percentage(false, 0, "0%")),
    ("0%", "$0", Percentage(false, 0, "0%")),
    ("#,##0.00%", "00.00%", Percentage(true, 2, "#,##0.00%")),
    ("0%", "m/d/yy", Percentage(false, 0, "0%")),
    ("m/d/yy", "0", Date("m/d/yy")),
    ("m/d/yy", "$0", Date("m/d/yy")),
    ("m/d/yy", "0%", Date("m/d/yy")),
    ("m/d/yy", "yyyy-mm-dd", Date("m/d/yy")),
    ("least", "$ least", Number(false, i32::MIN, "least")),
    (
        "$ greatest",
        "% greatest",
        Currency(false, i32::MAX, "$ greatest", "$"),
    ),
];

#[test]
fn sums_and_differences_have_the_finer_unit(rt: HostRuntime) -> Result<(), Fail> {
    for &(left, right, wanted) in &SUMS {
        assert!(rt;
            has_unit(rt.alloc(), SUM, left, right, wanted)?,
            "{left} + {right}"
        );
        assert!(rt;
            has_unit(rt.alloc(), DIFFERENCE, left, right, wanted)?,
            "{left} - {right}"
        );
    }
    Ok(())
}
