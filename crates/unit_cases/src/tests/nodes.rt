use super::Parts::{self, Currency, Date, Nothing, Number, Percentage};
use super::{book_of_sheets, cell, formats, parts_of, show, unit_of};
use book_core::MemoryBook;
use std::alloc::Global;
use std::test::Fail;
use units_core::Locale;
use value_core::Memory;

/// The number formats of some cells, each by its sheet, row and column. Of the one in A2 nothing
/// is known; the last four cells lie beside the sheet.
static CELLS: [(u32, i32, i32, &str); 13] = [
    (0, 1, 1, "$#,##0"),
    (0, 1, 2, "0%"),
    (0, 1, 3, "0.0"),
    (0, 1, 4, "m/d/yy"),
    (0, 2, 1, "unknown"),
    (0, 3, 1, ""),
    (0, 4, 1, "0.00"),
    (0, 1048576, 16384, "0.000 €"),
    (1, 1, 1, "0.000%"),
    (0, 0, 1, "0"),
    (0, 1048577, 1, "0"),
    (0, 1, 0, "0"),
    (0, 1, 16385, "0"),
];

fn book(alloc: Global) -> Result<MemoryBook, Memory> {
    let mut book = book_of_sheets(alloc)?;
    for &(sheet, row, column, num_fmt) in &CELLS {
        show(alloc, &mut book, cell(sheet, row, column), num_fmt)?;
    }
    Ok(book)
}

const A1: Parts = Currency(true, 0, "$#,##0", "$");

const B1: Parts = Percentage(false, 0, "0%");

const C1: Parts = Number(false, 1, "0.0");

const D1: Parts = Date("m/d/yy");

const A4: Parts = Number(false, 2, "0.00");

/// References and ranges in D4, and their units.
static REFERENCES: [(&str, Parts); 35] = [
    (r#"["ref",0,null,true,true,1,1]"#, A1),
    (r#"["ref",0,null,true,true,1,2]"#, B1),
    (r#"["ref",0,null,true,true,1,4]"#, D1),
    (r#"["ref",0,null,false,false,-3,-3]"#, A1),
    (r#"["ref",0,"Sheet1",true,false,1,-2]"#, B1),
    (r#"["ref",0,null,false,true,-3,3]"#, C1),
    (
        r#"["ref",1,"Sheet2",true,true,1,1]"#,
        Percentage(false, 3, "0.000%"),
    ),
    (
        r#"["ref",0,null,true,true,1048576,16384]"#,
        Currency(false, 3, "0.000 €", "€"),
    ),
    // nothing is known of the number format
    (r#"["ref",0,null,true,true,2,1]"#, Nothing),
    // no number format
    (r#"["ref",0,null,true,true,3,1]"#, Nothing),
    // cells that the book doesn't hold
    (r#"["ref",0,null,true,true,9,9]"#, Nothing),
    (r#"["ref",1,"Sheet2",true,true,1,2]"#, Nothing),
    (r#"["ref",2,null,true,true,1,1]"#, Nothing),
    // off the sheet
    (r#"["ref",0,null,true,true,0,1]"#, Nothing),
    (r#"["ref",0,null,true,true,1048577,1]"#, Nothing),
    (r#"["ref",0,null,true,true,1,0]"#, Nothing),
    (r#"["ref",0,null,true,true,1,16385]"#, Nothing),
    (r#"["ref",0,null,true,true,-3,-3]"#, Nothing),
    (r#"["ref",0,null,false,true,-4,1]"#, Nothing),
    (r#"["ref",0,null,false,true,1048573,1]"#, Nothing),
    (r#"["ref",0,null,true,false,1,-4]"#, Nothing),
    (r#"["ref",0,null,true,false,1,16381]"#, Nothing),
    (
        r#"["ref",0,null,false,false,2147483647,2147483647]"#,
        Nothing,
    ),
    (
        r#"["ref",0,null,false,false,-2147483648,-2147483648]"#,
        Nothing,
    ),
    // A1:A4, A4:A1, A1:D4, C:C, C1:A1 and A2:A1
    (r#"["range",0,null,true,true,1,1,true,true,4,1]"#, A1),
    (r#"["range",0,null,true,true,4,1,true,true,1,1]"#, A4),
    (r#"["range",0,null,false,false,-3,-3,false,false,0,0]"#, A1),
    (r#"["range",0,null,true,true,1,3,true,true,1048576,3]"#, C1),
    (r#"["range",0,null,true,true,1,3,true,true,1,1]"#, C1),
    (r#"["range",0,null,true,true,2,1,true,true,1,1]"#, Nothing),
    // the first written end is off the sheet, and the last one
    (r#"["range",0,null,true,true,0,1,true,true,4,1]"#, Nothing),
    (r#"["range",0,null,false,true,-4,1,true,true,1,1]"#, Nothing),
    (r#"["range",0,null,true,true,1,1,true,true,1048577,1]"#, A1),
    // sheets that aren't there
    (r#"["wrongref","Sheet3",true,true,1,1]"#, Nothing),
    (
        r#"["wrongrange","Sheet3",true,true,1,1,true,true,4,1]"#,
        Nothing,
    ),
];

#[test]
fn references_have_the_unit_of_a_cell(rt: HostRuntime) -> Result<(), Fail> {
    for &(text, wanted) in &REFERENCES {
        assert!(rt; shows(rt.alloc(), text, wanted)?, "{text}");
    }
    Ok(())
}

/// Whether a formula in D4 has a unit.
fn shows(alloc: Global, text: &str, wanted: Parts) -> Result<bool, Fail> {
    let book = book(alloc)?;
    let formats = formats(alloc)?;
    let locale = Locale::standard(alloc)?;
    let unit = unit_of(alloc, text, &book, &formats, &locale)?;
    Ok(parts_of(&unit) == wanted)
}

/// Literals, names, a named call and a lambda, which have no unit.
static OTHER_NODES: [&str; 14] = [
    r#"["bool",true]"#,
    r#"["num",1000000]"#,
    r#"["text","$1"]"#,
    r##"["error","#N/A"]"##,
    r#"["empty"]"#,
    r#"["array",[[1000000,"$1"]]]"#,
    r#"["name","N",null,"A1"]"#,
    r#"["name","N",0,"Sheet1!$A$1:$A$4"]"#,
    r#"["table","T"]"#,
    r#"["var","x",null]"#,
    r#"["var","x",3]"#,
    r#"["parseerror","=$","Unexpected end",2]"#,
    r#"["named","F",null]"#,
    r#"["lambda",["x"],["var","x",0]]"#,
];

#[test]
fn other_nodes_have_none(rt: HostRuntime) -> Result<(), Fail> {
    for &text in &OTHER_NODES {
        assert!(rt; shows(rt.alloc(), text, Nothing)?, "{text}");
    }
    for &tag in &OTHER_TAGS {
        assert!(rt; is_without(rt.alloc(), tag)?, "{tag}");
    }
    Ok(())
}

/// The beginnings of nodes of two children without a unit, whatever theirs are.
static OTHER_TAGS: [&str; 13] = [
    r#""concat""#,
    r#""pow""#,
    r#""oprange""#,
    r#""lt""#,
    r#""gt""#,
    r#""eq""#,
    r#""le""#,
    r#""ge""#,
    r#""ne""#,
    r#""named","F",null"#,
    r#""lambdacall""#,
    r#""call","INDEX""#,
    r#""call","IF""#,
];

/// Whether a node over A1 and B1 has no unit.
fn is_without(alloc: Global, tag: &str) -> Result<bool, Fail> {
    let text = format!(in alloc;
        "[{tag},[\"ref\",0,null,true,true,1,1],[\"ref\",0,null,true,true,1,2]]"
    )?;
    shows(alloc, text.as_str(), Nothing)
}

/// Operators over one operand, and formulas of several operators.
static OPERATORS: [(&str, Parts); 21] = [
    (r#"["neg",["ref",0,null,true,true,1,1]]"#, A1),
    (r#"["percent",["ref",0,null,true,true,1,1]]"#, A1),
    (r#"["percent",["ref",0,null,true,true,1,2]]"#, B1),
    (
        r#"["neg",["percent",["neg",["ref",0,null,true,true,1,4]]]]"#,
        D1,
    ),
    (
        r#"["neg",["range",0,null,true,true,1,1,true,true,4,1]]"#,
        A1,
    ),
    (r#"["neg",["num",1000000]]"#, Nothing),
    (r#"["percent",["num",1000000]]"#, Nothing),
    (r#"["spill",["ref",0,null,true,true,1,1]]"#, Nothing),
    (r#"["lambda",["x"],["ref",0,null,true,true,1,1]]"#, Nothing),
    // @ leaves none
    (r#"["at",false,["ref",0,null,true,true,1,1]]"#, Nothing),
    (
        r#"["at",true,["range",0,null,true,true,1,1,true,true,4,1]]"#,
        Nothing,
    ),
    (
        r#"["neg",["at",true,["ref",0,null,true,true,1,1]]]"#,
        Nothing,
    ),
    (
        r#"["at",false,["add",["ref",0,null,true,true,1,1],["ref",0,null,true,true,1,3]]]"#,
        Nothing,
    ),
    (
        r#"["add",["at",false,["ref",0,null,true,true,4,1]],["ref",0,null,true,true,1,1]]"#,
        A1,
    ),
    (
        r#"["mul",["at",true,["ref",0,null,true,true,1,1]],["ref",0,null,true,true,1,2]]"#,
        Nothing,
    ),
    // A1*B1*B1, A1*B1/C1, D1-(A1-C1), (D1-A1)-C1, A4^2+A1, -A1*B1%
    (
        r#"["mul",["mul",["ref",0,null,true,true,1,1],["ref",0,null,true,true,1,2]],["ref",0,null,true,true,1,2]]"#,
        Currency(true, 2, "$#,##0.00", "$"),
    ),
    (
        r#"["div",["mul",["ref",0,null,true,true,1,1],["ref",0,null,true,true,1,2]],["ref",0,null,true,true,1,3]]"#,
        Currency(true, 2, "$#,##0.00", "$"),
    ),
    (
        r#"["sub",["ref",0,null,true,true,1,4],["sub",["ref",0,null,true,true,1,1],["ref",0,null,true,true,1,3]]]"#,
        C1,
    ),
    (
        r#"["sub",["sub",["ref",0,null,true,true,1,4],["ref",0,null,true,true,1,1]],["ref",0,null,true,true,1,1]]"#,
        D1,
    ),
    (
        r#"["add",["pow",["ref",0,null,true,true,4,1],["num",2000000]],["ref",0,null,true,true,1,1]]"#,
        A1,
    ),
    (
        r#"["mul",["neg",["ref",0,null,true,true,1,1]],["percent",["ref",0,null,true,true,1,2]]]"#,
        Currency(true, 2, "$#,##0.00", "$"),
    ),
];

#[test]
fn operators_take_the_units_of_their_operands(rt: HostRuntime) -> Result<(), Fail> {
    for &(text, wanted) in &OPERATORS {
        assert!(rt; shows(rt.alloc(), text, wanted)?, "{text}");
    }
    Ok(())
}
