use super::Parts::{self, Currency, Date, Nothing, Percentage};
use super::has_unit;
use std::alloc::Global;
use std::test::Fail;

/// Kinds of functions, and the unit of a call in the standard locale, whatever its argument.
static KINDS: [(&str, Parts); 18] = [
    ("PMT", Currency(true, 2, "$#,##0.00", "$")),
    ("FV", Currency(true, 2, "$#,##0.00", "$")),
    ("NPER", Currency(true, 2, "$#,##0.00", "$")),
    ("NPV", Currency(true, 2, "$#,##0.00", "$")),
    ("SLN", Currency(true, 2, "$#,##0.00", "$")),
    ("SYD", Currency(true, 2, "$#,##0.00", "$")),
    ("DB", Currency(true, 2, "$#,##0.00", "$")),
    ("DDB", Currency(true, 2, "$#,##0.00", "$")),
    ("CUMIPMT", Currency(true, 2, "$#,##0.00", "$")),
    ("CUMPRINC", Currency(true, 2, "$#,##0.00", "$")),
    ("TBILLPRICE", Currency(true, 2, "$#,##0.00", "$")),
    ("IRR", Percentage(false, 0, "0%")),
    ("MIRR", Percentage(false, 0, "0%")),
    ("TBILLEQ", Percentage(false, 2, "0.00%")),
    ("TBILLYIELD", Percentage(false, 2, "0.00%")),
    ("DATE", Date("m/d/yyyy")),
    ("TODAY", Date("m/d/yyyy")),
    ("NOW", Date("m/d/yyyy, h:mm AM/PM")),
];

#[test]
fn kinds_have_the_units_of_their_classes(rt: HostRuntime) -> Result<(), Fail> {
    for &(name, wanted) in &KINDS {
        assert!(rt; call_has(rt.alloc(), name, wanted)?, "{name}");
    }
    for &name in &WITHOUT {
        assert!(rt; call_has(rt.alloc(), name, Nothing)?, "{name}");
    }
    Ok(())
}

/// Whether calls of a kind, without arguments, over A1 and over A1 and B1, have a unit. These
/// cells hold euros and a percentage.
fn call_has(alloc: Global, name: &str, wanted: Parts) -> Result<bool, Fail> {
    Ok(
        call_over(alloc, name, "", wanted)?
            && call_over(alloc, name, ONE, wanted)?
            && call_over(alloc, name, TWO, wanted)?,
    )
}

const ONE: &str = r#",["ref",0,null,true,true,1,1]"#;

const TWO: &str = r#",["ref",0,null,true,true,1,1],["ref",0,null,true,true,1,2]"#;

fn call_over(alloc: Global, name: &str, args: &str, wanted: Parts) -> Result<bool, Fail> {
    let text = format!(in alloc; "[\"call\",\"{name}\"{args}]")?;
    has_unit(alloc, text.as_str(), "0.000 €", "0.00%", wanted)
}

/// Kinds whose calls have no unit: those with rules of their own, and some others.
static WITHOUT: [&str; 67] = [
    "UNIQUE",
    "FILTER",
    "TAKE",
    "DROP",
    "EXPAND",
    "HSTACK",
    "VSTACK",
    "CHOOSECOLS",
    "CHOOSEROWS",
    "TOCOL",
    "TOROW",
    "TRANSPOSE",
    "TRIMRANGE",
    "WRAPCOLS",
    "WRAPROWS",
    "SEQUENCE",
    "INDEX",
    "OFFSET",
    "CHOOSE",
    "ROW",
    "ROWS",
    "COLUMN",
    "COLUMNS",
    "INDIRECT",
    "ADDRESS",
    "AREAS",
    "FORMULATEXT",
    "ARRAYTOTEXT",
    "TEXTSPLIT",
    "SORT",
    "SORTBY",
    "LET",
    "LAMBDA",
    "MAP",
    "REDUCE",
    "SCAN",
    "BYROW",
    "BYCOL",
    "MAKEARRAY",
    "FALSE",
    "MAX",
    "MIN",
    "PRODUCT",
    "SUMIFS",
    "AVERAGEA",
    "AVERAGEIF",
    "COUNT",
    "SUMPRODUCT",
    "NOT",
    "EDATE",
    "DAYS",
    "EFFECT",
    "TIME",
    "RRI",
    "ISPMT",
    "DOLLAR",
    "FIXED",
    "PV",
    "RATE",
    "IPMT",
    "PPMT",
    "XNPV",
    "XIRR",
    "ABS",
    "ROUND",
    "IF",
    "DATEVALUE",
];

/// Calls over A1 and B1, which hold euros and a percentage, whose unit is that of their first
/// argument or comes of it.
static FIRST_ARGUMENTS: [(&str, Parts); 22] = [
    (
        r#"["call","SUM",["ref",0,null,true,true,1,1]]"#,
        Currency(false, 3, "0.000 €", "€"),
    ),
    (
        r#"["call","AVERAGE",["ref",0,null,true,true,1,1]]"#,
        Currency(false, 3, "0.000 €", "€"),
    ),
    (
        r#"["call","SUM",["ref",0,null,true,true,1,1],["ref",0,null,true,true,1,2]]"#,
        Currency(false, 3, "0.000 €", "€"),
    ),
    (
        r#"["call","AVERAGE",["ref",0,null,true,true,1,2],["ref",0,null,true,true,1,1]]"#,
        Percentage(false, 2, "0.00%"),
    ),
    (
        r#"["call","SUM",["range",0,null,true,true,1,2,true,true,1,1]]"#,
        Percentage(false, 2, "0.00%"),
    ),
    (
        r#"["call","SUM",["neg",["ref",0,null,true,true,1,1]]]"#,
        Currency(false, 3, "0.000 €", "€"),
    ),
    (
        r#"["call","SUM",["call","AVERAGE",["call","SUM",["ref",0,null,true,true,1,2]]]]"#,
        Percentage(false, 2, "0.00%"),
    ),
    (
        r#"["call","SUM",["call","PMT"]]"#,
        Currency(true, 2, "$#,##0.00", "$"),
    ),
    (r#"["call","AVERAGE",["call","TODAY"]]"#, Date("m/d/yyyy")),
    (r#"["call","SUM"]"#, Nothing),
    (r#"["call","AVERAGE"]"#, Nothing),
    (
        r#"["call","SUM",["num",1000000],["ref",0,null,true,true,1,1]]"#,
        Nothing,
    ),
    (
        r#"["call","AVERAGE",["empty"],["ref",0,null,true,true,1,1]]"#,
        Nothing,
    ),
    (
        r#"["call","SUM",["at",true,["ref",0,null,true,true,1,1]]]"#,
        Nothing,
    ),
    (
        r#"["call","SUM",["call","MAX",["ref",0,null,true,true,1,1]]]"#,
        Nothing,
    ),
    (
        r#"["at",false,["call","SUM",["ref",0,null,true,true,1,1]]]"#,
        Nothing,
    ),
    // -PMT()%, PMT()*B1, IRR()*IRR(), IRR()*PMT(), TODAY()-IRR(), NOW()+A1
    (
        r#"["neg",["percent",["call","PMT"]]]"#,
        Currency(true, 2, "$#,##0.00", "$"),
    ),
    (
        r#"["mul",["call","PMT"],["ref",0,null,true,true,1,2]]"#,
        Currency(true, 2, "$#,##0.00", "$"),
    ),
    (
        r#"["mul",["call","IRR"],["call","IRR"]]"#,
        Percentage(false, 2, "0.00%"),
    ),
    (
        r#"["mul",["call","IRR"],["call","PMT"]]"#,
        Currency(true, 2, "$#,##0.00", "$"),
    ),
    (
        r#"["sub",["call","TODAY"],["call","IRR"]]"#,
        Date("m/d/yyyy"),
    ),
    (
        r#"["add",["call","NOW"],["ref",0,null,true,true,1,1]]"#,
        Currency(false, 3, "0.000 €", "€"),
    ),
];

#[test]
fn sums_and_averages_have_the_unit_of_their_first_argument(rt: HostRuntime) -> Result<(), Fail> {
    for &(text, wanted) in &FIRST_ARGUMENTS {
        assert!(rt;
            has_unit(rt.alloc(), text, "0.000 €", "0.00%", wanted)?,
            "{text}"
        );
    }
    Ok(())
}

#[test]
fn twenty_kinds_have_a_unit(rt: HostRuntime) -> Result<(), Fail> {
    let alloc = rt.alloc();
    let mut without: u32 = 0;
    for id in 0..458 {
        if is_without(alloc, id)? {
            without = without.saturating_add(1);
        }
    }
    assert_eq!(rt; without, 438);
    assert!(rt; is_without(alloc, 458)?);
    assert!(rt; is_without(alloc, 65535)?);
    Ok(())
}

/// Whether a call of the kind of this number has no unit, where its argument has one.
fn is_without(alloc: Global, id: u32) -> Result<bool, Fail> {
    let text = format!(in alloc; "[\"call\",{id},[\"ref\",0,null,true,true,1,1]]")?;
    has_unit(alloc, text.as_str(), "0.00", "", Nothing)
}
