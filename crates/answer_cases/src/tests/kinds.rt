use super::answers_in;
use std::alloc::Global;
use std::test::Fail;

/// The forms of an argument: a number, a truth value, a text, a blank cell, a missing argument, an error, a range of 3 and the
/// text 4, and an array of 1, TRUE, 0 and a text.
static FORMS: [&str; 8] = [
    r#"["num",-1500000]"#,
    r#"["bool",true]"#,
    r#"["text","2"]"#,
    r#"["ref",0,null,true,true,9,9]"#,
    r#"["empty"]"#,
    r##"["error","#DIV/0!"]"##,
    r#"["range",0,null,true,true,1,1,true,true,2,1]"#,
    r#"["array",[[1000000,true],[0,"x"]]]"#,
];

/// Each kind that has a value, the arguments behind its first one, and the rows of its value for each form of that.
static KINDS: [(&str, &str, [&str; 8]); 13] = [
    (
        "SUM",
        "",
        [
            "-1500000",
            "1000000",
            "2000000",
            "0",
            "0",
            r##"{"error":"#DIV/0!"}"##,
            "3000000",
            "1000000",
        ],
    ),
    (
        "MIN",
        "",
        [
            "-1500000",
            "1000000",
            "2000000",
            "0",
            "0",
            r##"{"error":"#DIV/0!"}"##,
            "3000000",
            "0",
        ],
    ),
    (
        "MAX",
        "",
        [
            "-1500000",
            "1000000",
            "2000000",
            "0",
            "0",
            r##"{"error":"#DIV/0!"}"##,
            "3000000",
            "1000000",
        ],
    ),
    (
        "COUNT",
        "",
        [
            "1000000", "1000000", "1000000", "0", "0", "0", "1000000", "2000000",
        ],
    ),
    (
        "COUNTA",
        "",
        [
            "1000000", "1000000", "1000000", "0", "0", "1000000", "2000000", "4000000",
        ],
    ),
    (
        "AND",
        "",
        [
            "true",
            "true",
            r##"{"error":"#VALUE!"}"##,
            r##"{"error":"#VALUE!"}"##,
            r##"{"error":"#VALUE!"}"##,
            r##"{"error":"#DIV/0!"}"##,
            "true",
            "false",
        ],
    ),
    (
        "OR",
        "",
        [
            "true",
            "true",
            r##"{"error":"#VALUE!"}"##,
            r##"{"error":"#VALUE!"}"##,
            r##"{"error":"#VALUE!"}"##,
            r##"{"error":"#DIV/0!"}"##,
            "true",
            "true",
        ],
    ),
    (
        "TRUE",
        "",
        [
            r##"{"error":"#ERROR!"}"##,
            r##"{"error":"#ERROR!"}"##,
            r##"{"error":"#ERROR!"}"##,
            r##"{"error":"#ERROR!"}"##,
            r##"{"error":"#ERROR!"}"##,
            r##"{"error":"#ERROR!"}"##,
            r##"{"error":"#ERROR!"}"##,
            r##"{"error":"#ERROR!"}"##,
        ],
    ),
    (
        "FALSE",
        "",
        [
            r##"{"error":"#ERROR!"}"##,
            r##"{"error":"#ERROR!"}"##,
            r##"{"error":"#ERROR!"}"##,
            r##"{"error":"#ERROR!"}"##,
            r##"{"error":"#ERROR!"}"##,
            r##"{"error":"#ERROR!"}"##,
            r##"{"error":"#ERROR!"}"##,
            r##"{"error":"#ERROR!"}"##,
        ],
    ),
    (
        "ABS",
        "",
        [
            "1500000",
            "1000000",
            "2000000",
            "0",
            "0",
            r##"{"error":"#DIV/0!"}"##,
            "3000000],[4000000",
            r##"1000000,1000000],[0,{"error":"#VALUE!"}"##,
        ],
    ),
    (
        "SIGN",
        "",
        [
            "-1000000",
            "1000000",
            "1000000",
            "0",
            "0",
            r##"{"error":"#DIV/0!"}"##,
            "1000000],[1000000",
            r##"1000000,1000000],[0,{"error":"#VALUE!"}"##,
        ],
    ),
    (
        "INT",
        "",
        [
            "-2000000",
            "1000000",
            "2000000",
            "0",
            "0",
            r##"{"error":"#DIV/0!"}"##,
            "3000000],[4000000",
            r##"1000000,1000000],[0,{"error":"#VALUE!"}"##,
        ],
    ),
    (
        "IF",
        r#",["num",10000000],["num",20000000]"#,
        [
            "10000000",
            "10000000",
            r##"{"error":"#VALUE!"}"##,
            "20000000",
            "20000000",
            r##"{"error":"#DIV/0!"}"##,
            r##"10000000],[{"error":"#VALUE!"}"##,
            r##"10000000,10000000],[20000000,{"error":"#VALUE!"}"##,
        ],
    ),
];

#[test]
fn thirteen_kinds_take_eight_forms(rt: HostRuntime) -> Result<(), Fail> {
    for (kind, behind, values) in &KINDS {
        assert!(rt; has_values(rt.alloc(), kind, behind, values)?, "{kind}");
    }
    Ok(())
}

/// Whether a call of a kind has a value for each form of its first argument.
fn has_values(alloc: Global, kind: &str, behind: &str, values: &[&str; 8]) -> Result<bool, Fail> {
    let mut has_all = true;
    for (form, rows) in FORMS.iter().zip(values) {
        has_all = has_all && has_value(alloc, kind, form, behind, rows)?;
    }
    Ok(has_all)
}

fn has_value(
    alloc: Global,
    kind: &str,
    form: &str,
    behind: &str,
    rows: &str,
) -> Result<bool, Fail> {
    let request = format!(in alloc;
        "{{\"sheets\":[\"Sheet1\"],\"cells\":[[0,1,1,3000000],[0,2,1,\"4\"]],\"cell\":[0,1,6],\"formula\":[\"call\",\"{kind}\",{form}{behind}]}}"
    )?;
    let end = format!(in alloc; "\"spilled\":[[{rows}]],\"unit\":null}}\n")?;
    answers_in(alloc, request.as_str(), end.as_str())
}
