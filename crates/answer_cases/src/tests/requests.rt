use super::{COLUMN_ANSWER, answers, answers_in, runs};
use std::test::Fail;

/// A sheet in which A1 is an amount of dollars, B1 a percentage and A2 a date, and what is known of their number formats.
const SHOWN: &str =
    r##""sheets":["Sheet1"],"cells":[[0,1,1,2000000,"$#,##0"],[0,1,2,500000,"0%"],[0,2,1,1000000,"d.m.yyyy"]],"cell":[0,1,5],"formats":{"$#,##0":{"kind":"number","percent":0,"precision":0,"use_thousands":true},"0%":{"kind":"number","percent":1,"precision":0,"use_thousands":false},"d.m.yyyy":"date"}"##;

const GERMAN: &str =
    r##","locale":{"currency_symbol":"€","currency_standard":"#,##0.00 ¤","date_short":"dd.MM.yy","time_short":"HH:mm","date_time_short":"{1} {0}"}"##;

/// Formulas in E1 over that sheet, the locale, and their units.
static UNITS: [(&str, &str, &str); 14] = [
    // A1*B1
    (
        r#"["mul",["ref",0,null,true,true,1,1],["ref",0,null,true,true,1,2]]"#,
        "",
        r##"{"currency":"$","group_separator":true,"kind":"Currency","num_fmt":"$#,##0.00","precision":2}"##,
    ),
    // A1/B1
    (
        r#"["div",["ref",0,null,true,true,1,1],["ref",0,null,true,true,1,2]]"#,
        "",
        "null",
    ),
    // SUM(A1)
    (
        r#"["call","SUM",["ref",0,null,true,true,1,1]]"#,
        "",
        r##"{"currency":"$","group_separator":true,"kind":"Currency","num_fmt":"$#,##0","precision":0}"##,
    ),
    // B1
    (
        r#"["ref",0,null,true,true,1,2]"#,
        "",
        r#"{"group_separator":false,"kind":"Percentage","num_fmt":"0%","precision":0}"#,
    ),
    // -B1
    (
        r#"["neg",["ref",0,null,true,true,1,2]]"#,
        "",
        r#"{"group_separator":false,"kind":"Percentage","num_fmt":"0%","precision":0}"#,
    ),
    // A2
    (
        r#"["ref",0,null,true,true,2,1]"#,
        "",
        r#"{"kind":"Date","num_fmt":"d.m.yyyy"}"#,
    ),
    // A2:B1, by its first written end
    (
        r#"["range",0,null,true,true,2,1,true,true,1,2]"#,
        "",
        r#"{"kind":"Date","num_fmt":"d.m.yyyy"}"#,
    ),
    // the cell above E1, off the sheet
    (r#"["ref",0,null,false,false,-1,0]"#, "", "null"),
    // @A1
    (r#"["at",false,["ref",0,null,true,true,1,1]]"#, "", "null"),
    // INDEX(A1:A2,1)
    (
        r#"["call","INDEX",["range",0,null,true,true,1,1,true,true,2,1],["num",1000000]]"#,
        "",
        "null",
    ),
    // PMT()
    (
        r#"["call","PMT"]"#,
        "",
        r##"{"currency":"$","group_separator":true,"kind":"Currency","num_fmt":"$#,##0.00","precision":2}"##,
    ),
    (
        r#"["call","PMT"]"#,
        GERMAN,
        r##"{"currency":"€","group_separator":true,"kind":"Currency","num_fmt":"#,##0.00 €","precision":2}"##,
    ),
    // NOW()
    (
        r#"["call","NOW"]"#,
        "",
        r#"{"kind":"Date","num_fmt":"m/d/yyyy, h:mm AM/PM"}"#,
    ),
    (
        r#"["call","NOW"]"#,
        GERMAN,
        r#"{"kind":"Date","num_fmt":"dd.MM.yyyy HH:mm"}"#,
    ),
];

#[test]
fn formulas_have_their_units(rt: HostRuntime) -> Result<(), Fail> {
    let alloc = rt.alloc();
    for &(formula, locale, unit) in &UNITS {
        let request = format!(in alloc; "{{{SHOWN}{locale},\"formula\":{formula}}}")?;
        let end = format!(in alloc; ",\"unit\":{unit}}}\n")?;
        assert!(rt;
            answers_in(alloc, request.as_str(), end.as_str())?,
            "{formula}"
        );
    }
    Ok(())
}

/// ABS(A1:A3-5) in B2, where A1 to A3 are 1 to 3.
const ABSOLUTE: &str =
    r#""sheets":["Sheet1"],"cells":[[0,1,1,1000000],[0,2,1,2000000],[0,3,1,3000000]],"cell":[0,2,2],"formula":["call","ABS",["sub",["range",0,null,true,true,1,1,true,true,3,1],["num",5000000]]]"#;

/// ROWS(SEQUENCE(1000,1001)).
const LARGE: &str =
    r#""sheets":["Sheet1"],"cells":[],"cell":[0,1,1],"formula":["call","ROWS",["call","SEQUENCE",["num",1000000000],["num",1001000000]]]"#;

/// Requests, the keys that say how they are answered, and how the answer ends.
static OPTIONS: [(&str, &str, &str); 7] = [
    (
        ABSOLUTE,
        "",
        r#""legacy":[[4000000],[3000000],[2000000]],"spilled":[[4000000],[3000000],[2000000]],"unit":null}"#,
    ),
    (
        ABSOLUTE,
        r#","version":2"#,
        r#""legacy":[[4000000],[3000000],[2000000]],"spilled":[[4000000],[3000000],[2000000]],"unit":null}"#,
    ),
    (
        ABSOLUTE,
        r#","version":2,"rule":"every-scalar""#,
        r#""legacy":[[3000000]],"spilled":[[4000000],[3000000],[2000000]],"unit":null}"#,
    ),
    (
        LARGE,
        "",
        r##""spilled":[[{"error":"#ERROR!"}]],"unit":null}"##,
    ),
    (
        LARGE,
        r#","version":2,"limit":2000000"#,
        r#""spilled":[[1000000000]],"unit":null}"#,
    ),
    (
        LARGE,
        r#","version":2,"limit":1001000"#,
        r#""spilled":[[1000000000]],"unit":null}"#,
    ),
    (
        LARGE,
        r#","version":2,"limit":1000999"#,
        r##""spilled":[[{"error":"#ERROR!"}]],"unit":null}"##,
    ),
];

#[test]
fn rules_and_limits_are_those_of_the_request(rt: HostRuntime) -> Result<(), Fail> {
    let alloc = rt.alloc();
    for &(asked, options, end) in &OPTIONS {
        let request = format!(in alloc; "{{{asked}{options}}}")?;
        let end = format!(in alloc; "{end}\n")?;
        assert!(rt;
            answers_in(alloc, request.as_str(), end.as_str())?,
            "{options}"
        );
    }
    Ok(())
}

/// Keys of no request.
static OTHER_OPTIONS: [&str; 5] = [
    r#","version":2,"rule":"every-scalar","limit":0"#,
    r#","version":2,"rule":"every-scalar","limit":16777217"#,
    r#","version":3,"rule":"every-scalar""#,
    r#","rule":"every-scalar""#,
    r#","locale":{}"#,
];

#[test]
fn other_keys_are_refused(rt: HostRuntime) -> Result<(), Fail> {
    let alloc = rt.alloc();
    for &options in &OTHER_OPTIONS {
        let request = format!(in alloc; "{{{ABSOLUTE}{options}}}")?;
        assert!(rt;
            runs(alloc, &["answer"], request.as_str(), "bad json\n", 3)?,
            "{options}"
        );
    }
    Ok(())
}

/// A1:A5 in C3, by version 1.
const COLUMN_ONE: &str =
    r#"{"version":1,"sheets":["Sheet1"],"cells":[[0,1,1,1000000],[0,2,1,2000000],[0,3,1,3000000],[0,4,1,4000000],[0,5,1,5000000]],"cell":[0,3,3],"formula":["range",0,null,false,false,-2,-2,false,false,2,-2]}"#;

#[test]
fn the_first_version_is_the_default(rt: HostRuntime) -> Result<(), Fail> {
    assert!(rt; answers(rt.alloc(), COLUMN_ONE, COLUMN_ANSWER)?);
    Ok(())
}
