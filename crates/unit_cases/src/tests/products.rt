use super::Parts::{self, Currency, Date, Nothing, Number, Percentage};
use super::has_unit;
use std::test::Fail;

const PRODUCT: &str = r#"["mul",["ref",0,null,true,true,1,1],["ref",0,null,true,true,1,2]]"#;

const QUOTIENT: &str = r#"["div",["ref",0,null,true,true,1,1],["ref",0,null,true,true,1,2]]"#;

const NEW_PERCENTAGE: Parts = Percentage(false, 2, "0.00%");

const NEW_DOLLARS: Parts = Currency(true, 2, "$#,##0.00", "$");

const NEW_EUROS: Parts = Currency(true, 2, "€#,##0.00", "€");

/// Two percentages, and the unit of their product, which is that of their quotient too.
static PERCENTAGES: [(&str, &str, Parts); 13] = [
    ("0.000%", "0.00%", Percentage(false, 3, "0.000%")),
    ("0.0%", "0%", Percentage(false, 1, "0.0%")),
    ("0%", "% least", Percentage(false, 0, "0%")),
    (
        "% greatest",
        "% least",
        Percentage(false, i32::MAX, "% greatest"),
    ),
    ("00.00%", "#,##0.00%", Percentage(true, 2, "#,##0.00%")),
    ("#,##0.00%", "00.00%", Percentage(false, 2, "00.00%")),
    ("0%", "0.000%", Percentage(false, 3, "0.000%")),
    ("0%", "00.00%", Percentage(false, 2, "00.00%")),
    (
        "% least",
        "% greatest",
        Percentage(false, i32::MAX, "% greatest"),
    ),
    ("0%", "0.0%", NEW_PERCENTAGE),
    ("0.0%", "0.0%", NEW_PERCENTAGE),
    ("0%", "0%", NEW_PERCENTAGE),
    ("% least", "% least", NEW_PERCENTAGE),
];

#[test]
fn percentages_give_the_finer_one_or_one_of_two_digits(rt: HostRuntime) -> Result<(), Fail> {
    for &(left, right, wanted) in &PERCENTAGES {
        assert!(rt;
            has_unit(rt.alloc(), PRODUCT, left, right, wanted)?,
            "{left} * {right}"
        );
        assert!(rt;
            has_unit(rt.alloc(), QUOTIENT, left, right, wanted)?,
            "{left} / {right}"
        );
    }
    Ok(())
}

/// Two sides, and the units of their product and of their quotient.
static PRODUCTS: [(&str, &str, Parts, Parts); 46] = [
    // money and a percentage
    ("$#,##0", "0%", NEW_DOLLARS, Nothing),
    ("$0.0", "0.000%", NEW_DOLLARS, Nothing),
    ("$ least", "0%", NEW_DOLLARS, Nothing),
    ("0.0 €", "0%", NEW_EUROS, Nothing),
    ("$0.00", "0.000%", Currency(false, 2, "$0.00", "$"), Nothing),
    ("0.000 €", "0%", Currency(false, 3, "0.000 €", "€"), Nothing),
    (
        "$ greatest",
        "0%",
        Currency(false, i32::MAX, "$ greatest", "$"),
        Nothing,
    ),
    ("0%", "$#,##0", NEW_DOLLARS, Nothing),
    ("0.000%", "$0.0", NEW_DOLLARS, Nothing),
    ("0%", "$ least", NEW_DOLLARS, Nothing),
    ("0.000%", "0.0 €", NEW_EUROS, Nothing),
    ("0.000%", "$0.00", Currency(false, 2, "$0.00", "$"), Nothing),
    ("0%", "0.000 €", Currency(false, 3, "0.000 €", "€"), Nothing),
    (
        "0%",
        "$ greatest",
        Currency(false, i32::MAX, "$ greatest", "$"),
        Nothing,
    ),
    // a percentage, and any other or none
    ("0%", "", Nothing, Nothing),
    ("0.000%", "0", Number(false, 0, "0"), Number(false, 0, "0")),
    (
        "0%",
        "#,##0.00",
        Number(true, 2, "#,##0.00"),
        Number(true, 2, "#,##0.00"),
    ),
    ("0.00%", "m/d/yy", Date("m/d/yy"), Date("m/d/yy")),
    ("", "0%", Nothing, Nothing),
    ("0", "0.000%", Number(false, 0, "0"), Nothing),
    ("#,##0.00", "0%", Number(true, 2, "#,##0.00"), Nothing),
    ("m/d/yy", "0.00%", Date("m/d/yy"), Nothing),
    // a side without a unit
    ("", "", Nothing, Nothing),
    ("", "0.0", Number(false, 1, "0.0"), Nothing),
    ("", "$0", Currency(false, 0, "$0", "$"), Nothing),
    ("", "m/d/yy", Date("m/d/yy"), Nothing),
    (
        "#,##0",
        "",
        Number(true, 0, "#,##0"),
        Number(true, 0, "#,##0"),
    ),
    (
        "$0",
        "",
        Currency(false, 0, "$0", "$"),
        Currency(false, 0, "$0", "$"),
    ),
    ("m/d/yy", "", Date("m/d/yy"), Date("m/d/yy")),
    // numbers
    ("0.0", "0", Number(false, 1, "0.0"), Number(false, 1, "0.0")),
    ("0", "0.0", Number(false, 1, "0.0"), Number(false, 1, "0.0")),
    (
        "0.00",
        "00.00",
        Number(false, 2, "00.00"),
        Number(false, 2, "00.00"),
    ),
    (
        "#,##0.00",
        "0.00",
        Number(false, 2, "0.00"),
        Number(false, 2, "0.00"),
    ),
    ("least", "0", Number(false, 0, "0"), Number(false, 0, "0")),
    (
        "least",
        "greatest",
        Number(false, i32::MAX, "greatest"),
        Number(false, i32::MAX, "greatest"),
    ),
    (
        "greatest",
        "least",
        Number(false, i32::MAX, "greatest"),
        Number(false, i32::MAX, "greatest"),
    ),
    // a number, and money or a date
    ("0.00", "$0", Currency(false, 0, "$0", "$"), Nothing),
    ("0.00", "m/d/yy", Date("m/d/yy"), Nothing),
    (
        "$0",
        "0.00",
        Currency(false, 0, "$0", "$"),
        Currency(false, 0, "$0", "$"),
    ),
    ("m/d/yy", "0.00", Date("m/d/yy"), Date("m/d/yy")),
    // money and dates
    ("$0", "$0.00", Nothing, Nothing),
    ("$0.00", "$0.00", Nothing, Nothing),
    ("0.0 €", "$0", Nothing, Nothing),
    ("$0", "m/d/yy", Nothing, Nothing),
    ("m/d/yy", "$0", Nothing, Nothing),
    ("m/d/yy", "yyyy-mm-dd", Nothing, Nothing),
];

#[test]
fn products_and_quotients_have_the_units_of_the_table(rt: HostRuntime) -> Result<(), Fail> {
    for &(left, right, times, divided) in &PRODUCTS {
        assert!(rt;
            has_unit(rt.alloc(), PRODUCT, left, right, times)?,
            "{left} * {right}"
        );
        assert!(rt;
            has_unit(rt.alloc(), QUOTIENT, left, right, divided)?,
            "{left} / {right}"
        );
    }
    Ok(())
}
