use super::answers_in;
use std::test::Fail;

/// A sheet of numbers, in which C1 is 3 and D1 is 6, and formulas in cells of it with their spilled and legacy values.
pub(super) const NUMBERS: &str =
    "[[0,1,1,1000000],[0,1,2,2000000],[0,1,3,3000000],[0,2,1,4000000],[0,2,2,5000000],[0,2,3,6000000],[0,1,4,6000000,null,\"=SUM(A1:C1)\"]]";

static VALUES: [(&str, &str, &str, &str); 22] = [
    (
        "[0,1,6]",
        r#"["add",["array",[[1000000,2000000]]],["array",[[10000000],[20000000]]]]"#,
        "[[11000000,12000000],[21000000,22000000]]",
        "[[11000000,12000000],[21000000,22000000]]",
    ),
    (
        "[0,1,6]",
        r#"["add",["array",[[1000000,2000000]]],["array",[[1000000,2000000,3000000]]]]"#,
        r##"[[2000000,4000000,{"error":"#N/A"}]]"##,
        r##"[[2000000,4000000,{"error":"#N/A"}]]"##,
    ),
    (
        "[0,1,6]",
        r#"["div",["num",1000000],["num",0]]"#,
        r##"[[{"error":"#DIV/0!"}]]"##,
        r##"[[{"error":"#DIV/0!"}]]"##,
    ),
    (
        "[0,1,6]",
        r#"["pow",["num",2000000],["num",500000]]"#,
        r##"[[{"error":"#NUM!"}]]"##,
        r##"[[{"error":"#NUM!"}]]"##,
    ),
    (
        "[0,1,6]",
        r#"["div",["neg",["num",7000000]],["num",3000000]]"#,
        "[[-2333333]]",
        "[[-2333333]]",
    ),
    (
        "[0,1,6]",
        r#"["percent",["num",50000000]]"#,
        "[[500000]]",
        "[[500000]]",
    ),
    (
        "[0,1,6]",
        r#"["concat",["num",1000000],["text","x"]]"#,
        r#"[["1x"]]"#,
        r#"[["1x"]]"#,
    ),
    (
        "[0,1,6]",
        r#"["eq",["text","a"],["text","A"]]"#,
        "[[true]]",
        "[[true]]",
    ),
    (
        "[0,1,6]",
        r#"["call","IF",["array",[[1000000],[0]]],["range",0,null,true,true,1,1,true,true,2,1],["num",9000000]]"#,
        "[[1000000],[9000000]]",
        "[[1000000],[9000000]]",
    ),
    (
        "[0,1,6]",
        r#"["call","COUNTA",["range",0,null,true,true,1,1,true,true,2,4]]"#,
        "[[7000000]]",
        "[[7000000]]",
    ),
    (
        "[0,1,6]",
        r#"["call","INT",["neg",["num",1500000]]]"#,
        "[[-2000000]]",
        "[[-2000000]]",
    ),
    // a row of four cells, in B2 and in B5
    (
        "[0,2,2]",
        r#"["range",0,null,true,true,2,1,true,true,2,4]"#,
        "[[4000000,5000000,6000000,null]]",
        r##"[[{"error":"#REF!"}]]"##,
    ),
    (
        "[0,5,2]",
        r#"["range",0,null,true,true,2,1,true,true,2,4]"#,
        "[[4000000,5000000,6000000,null]]",
        "[[5000000]]",
    ),
    // A$1:A2 in B2
    (
        "[0,2,2]",
        r#"["range",0,null,true,false,1,-1,false,false,0,-1]"#,
        "[[1000000],[4000000]]",
        "[[4000000]]",
    ),
    // A2:A1 in C2
    (
        "[0,2,3]",
        r#"["range",0,null,true,true,2,1,true,true,1,1]"#,
        "[[1000000],[4000000]]",
        "[[4000000]]",
    ),
    // a row above the sheet, in A1
    (
        "[0,1,1]",
        r#"["ref",0,null,false,true,-1,1]"#,
        r##"[[{"error":"#REF!"}]]"##,
        r##"[[{"error":"#REF!"}]]"##,
    ),
    // blanks: alone, under an operator, as an argument of COUNTA
    (
        "[0,1,6]",
        r#"["ref",0,null,true,true,9,9]"#,
        "[[null]]",
        "[[null]]",
    ),
    (
        "[0,1,6]",
        r#"["add",["ref",0,null,true,true,9,9],["num",1000000]]"#,
        "[[1000000]]",
        "[[1000000]]",
    ),
    ("[0,1,6]", r#"["empty"]"#, "[[null]]", "[[null]]"),
    // A1:B1 by the range operator, and its sum
    (
        "[0,1,6]",
        r#"["call","SUM",["oprange",["ref",0,null,true,true,1,2],["ref",0,null,true,true,1,1]]]"#,
        "[[3000000]]",
        "[[3000000]]",
    ),
    // elements: the left cast's error; a whole side: its own
    (
        "[0,1,6]",
        r##"["add",["array",[["x"]]],["array",[[{"error":"#N/A"}]]]]"##,
        r##"[[{"error":"#VALUE!"}]]"##,
        r##"[[{"error":"#VALUE!"}]]"##,
    ),
    (
        "[0,1,6]",
        r##"["add",["text","x"],["error","#N/A"]]"##,
        r##"[[{"error":"#N/A"}]]"##,
        r##"[[{"error":"#N/A"}]]"##,
    ),
];

#[test]
fn formulas_have_their_values(rt: HostRuntime) -> Result<(), Fail> {
    let alloc = rt.alloc();
    for &(cell, formula, spilled, legacy) in &VALUES {
        let request = format!(in alloc;
            "{{\"sheets\":[\"Sheet1\"],\"cells\":{NUMBERS},\"cell\":{cell},\"formula\":{formula}}}"
        )?;
        let end = format!(in alloc; "\"legacy\":{legacy},\"spilled\":{spilled},\"unit\":null}}\n")?;
        assert!(rt;
            answers_in(alloc, request.as_str(), end.as_str())?,
            "{formula}"
        );
    }
    Ok(())
}
