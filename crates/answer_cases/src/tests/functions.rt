use super::answers_in;
use super::values::NUMBERS;
use std::test::Fail;

/// Formulas of functions of arrays in F1 over a sheet of numbers, and their spilled values.
static FUNCTIONS: [(&str, &str); 41] = [
    // TAKE(A1:C2,1,-2)
    (
        r#"["call","TAKE",["range",0,null,true,true,1,1,true,true,2,3],["num",1000000],["neg",["num",2000000]]]"#,
        "[[2000000,3000000]]",
    ),
    // TAKE(A1:C2,0)
    (
        r#"["call","TAKE",["range",0,null,true,true,1,1,true,true,2,3],["num",0]]"#,
        r##"[[{"error":"#CALC!"}]]"##,
    ),
    // TAKE(A1:C2,9)
    (
        r#"["call","TAKE",["range",0,null,true,true,1,1,true,true,2,3],["num",9000000]]"#,
        "[[1000000,2000000,3000000],[4000000,5000000,6000000]]",
    ),
    // TAKE(A1:C2,0,#N/A)
    (
        r##"["call","TAKE",["range",0,null,true,true,1,1,true,true,2,3],["num",0],["error","#N/A"]]"##,
        r##"[[{"error":"#CALC!"}]]"##,
    ),
    // DROP(A1:C2,1)
    (
        r#"["call","DROP",["range",0,null,true,true,1,1,true,true,2,3],["num",1000000]]"#,
        "[[4000000,5000000,6000000]]",
    ),
    // DROP(A1:C2,2)
    (
        r#"["call","DROP",["range",0,null,true,true,1,1,true,true,2,3],["num",2000000]]"#,
        r##"[[{"error":"#CALC!"}]]"##,
    ),
    // DROP(A1:C2,-1,1)
    (
        r#"["call","DROP",["range",0,null,true,true,1,1,true,true,2,3],["neg",["num",1000000]],["num",1000000]]"#,
        "[[2000000,3000000]]",
    ),
    // EXPAND(A1:A2,3,2,0)
    (
        r#"["call","EXPAND",["range",0,null,true,true,1,1,true,true,2,1],["num",3000000],["num",2000000],["num",0]]"#,
        "[[1000000,0],[4000000,0],[0,0]]",
    ),
    // EXPAND(A1:C2,1)
    (
        r#"["call","EXPAND",["range",0,null,true,true,1,1,true,true,2,3],["num",1000000]]"#,
        r##"[[{"error":"#VALUE!"}]]"##,
    ),
    // EXPAND(A1:A2,4)
    (
        r#"["call","EXPAND",["range",0,null,true,true,1,1,true,true,2,1],["num",4000000]]"#,
        r##"[[1000000],[4000000],[{"error":"#N/A"}],[{"error":"#N/A"}]]"##,
    ),
    // HSTACK(A1:A2,C1:C1)
    (
        r#"["call","HSTACK",["range",0,null,true,true,1,1,true,true,2,1],["range",0,null,true,true,1,3,true,true,1,3]]"#,
        r##"[[1000000,3000000],[4000000,{"error":"#N/A"}]]"##,
    ),
    // VSTACK(A1:B1,A2:A2)
    (
        r#"["call","VSTACK",["range",0,null,true,true,1,1,true,true,1,2],["range",0,null,true,true,2,1,true,true,2,1]]"#,
        r##"[[1000000,2000000],[4000000,{"error":"#N/A"}]]"##,
    ),
    // HSTACK()
    (r#"["call","HSTACK"]"#, r##"[[{"error":"#ERROR!"}]]"##),
    // CHOOSECOLS(A1:C2,1,3)
    (
        r#"["call","CHOOSECOLS",["range",0,null,true,true,1,1,true,true,2,3],["num",1000000],["num",3000000]]"#,
        "[[1000000,3000000],[4000000,6000000]]",
    ),
    // CHOOSEROWS(A1:C2,-1)
    (
        r#"["call","CHOOSEROWS",["range",0,null,true,true,1,1,true,true,2,3],["neg",["num",1000000]]]"#,
        "[[4000000,5000000,6000000]]",
    ),
    // CHOOSEROWS(A1:A2,5)
    (
        r#"["call","CHOOSEROWS",["range",0,null,true,true,1,1,true,true,2,1],["num",5000000]]"#,
        r##"[[{"error":"#VALUE!"}]]"##,
    ),
    // CHOOSECOLS(A1:C2,9,#N/A)
    (
        r##"["call","CHOOSECOLS",["range",0,null,true,true,1,1,true,true,2,3],["num",9000000],["error","#N/A"]]"##,
        r##"[[{"error":"#VALUE!"}]]"##,
    ),
    // TOCOL(A1:B2,0,TRUE)
    (
        r#"["call","TOCOL",["range",0,null,true,true,1,1,true,true,2,2],["num",0],["bool",true]]"#,
        "[[1000000],[4000000],[2000000],[5000000]]",
    ),
    // TOROW(A1:D2,1)
    (
        r#"["call","TOROW",["range",0,null,true,true,1,1,true,true,2,4],["num",1000000]]"#,
        "[[1000000,2000000,3000000,6000000,4000000,5000000,6000000]]",
    ),
    // TRANSPOSE(A1:C2)
    (
        r#"["call","TRANSPOSE",["range",0,null,true,true,1,1,true,true,2,3]]"#,
        "[[1000000,4000000],[2000000,5000000],[3000000,6000000]]",
    ),
    // TRANSPOSE(TRANSPOSE(A1:C2))
    (
        r#"["call","TRANSPOSE",["call","TRANSPOSE",["range",0,null,true,true,1,1,true,true,2,3]]]"#,
        "[[1000000,2000000,3000000],[4000000,5000000,6000000]]",
    ),
    // TRIMRANGE(A1:D3)
    (
        r#"["call","TRIMRANGE",["range",0,null,true,true,1,1,true,true,3,4]]"#,
        "[[1000000,2000000,3000000,6000000],[4000000,5000000,6000000,null]]",
    ),
    // TRIMRANGE(A8:A9)
    (
        r#"["call","TRIMRANGE",["range",0,null,true,true,8,1,true,true,9,1]]"#,
        r##"[[{"error":"#REF!"}]]"##,
    ),
    // TRIMRANGE(A8:A9,0,0)
    (
        r#"["call","TRIMRANGE",["range",0,null,true,true,8,1,true,true,9,1],["num",0],["num",0]]"#,
        "[[null],[null]]",
    ),
    // WRAPCOLS(A1:C1,2,0)
    (
        r#"["call","WRAPCOLS",["range",0,null,true,true,1,1,true,true,1,3],["num",2000000],["num",0]]"#,
        "[[1000000,3000000],[2000000,0]]",
    ),
    // WRAPROWS(A1:B2,2)
    (
        r#"["call","WRAPROWS",["range",0,null,true,true,1,1,true,true,2,2],["num",2000000]]"#,
        r##"[[{"error":"#VALUE!"}]]"##,
    ),
    // WRAPROWS({1,2,3,4,5},3,0)
    (
        r#"["call","WRAPROWS",["array",[[1000000,2000000,3000000,4000000,5000000]]],["num",3000000],["num",0]]"#,
        "[[1000000,2000000,3000000],[4000000,5000000,0]]",
    ),
    // UNIQUE({1;2;1},FALSE,TRUE)
    (
        r#"["call","UNIQUE",["array",[[1000000],[2000000],[1000000]]],["bool",false],["bool",true]]"#,
        "[[2000000]]",
    ),
    // UNIQUE({"North";"south";"East";"SOUTH"})
    (
        r#"["call","UNIQUE",["array",[["North"],["south"],["East"],["SOUTH"]]]]"#,
        r#"[["North"],["south"],["East"]]"#,
    ),
    // UNIQUE({"Straße";"STRASSE"})
    (
        r#"["call","UNIQUE",["array",[["Straße"],["STRASSE"]]]]"#,
        r#"[["Straße"]]"#,
    ),
    // FILTER({1;2;3},{0;0;0},A1:A2)
    (
        r#"["call","FILTER",["array",[[1000000],[2000000],[3000000]]],["array",[[0],[0],[0]]],["range",0,null,true,true,1,1,true,true,2,1]]"#,
        "[[1000000],[4000000]]",
    ),
    // FILTER({1;2;3},{0;0;0})
    (
        r#"["call","FILTER",["array",[[1000000],[2000000],[3000000]]],["array",[[0],[0],[0]]]]"#,
        r##"[[{"error":"#CALC!"}]]"##,
    ),
    // FILTER({1;2;3},{0;0;0},)
    (
        r#"["call","FILTER",["array",[[1000000],[2000000],[3000000]]],["array",[[0],[0],[0]]],["empty"]]"#,
        r##"[[{"error":"#CALC!"}]]"##,
    ),
    // FILTER({1;2;3},{1})
    (
        r#"["call","FILTER",["array",[[1000000],[2000000],[3000000]]],["array",[[1000000]]]]"#,
        "[[1000000],[2000000],[3000000]]",
    ),
    // FILTER(A1:C2,A1:C1=2)
    (
        r#"["call","FILTER",["range",0,null,true,true,1,1,true,true,2,3],["eq",["range",0,null,true,true,1,1,true,true,1,3],["num",2000000]]]"#,
        "[[2000000],[5000000]]",
    ),
    // SEQUENCE(1000,1001)
    (
        r#"["call","SEQUENCE",["num",1000000000],["num",1001000000]]"#,
        r##"[[{"error":"#ERROR!"}]]"##,
    ),
    // SEQUENCE(1,16385)
    (
        r#"["call","SEQUENCE",["num",1000000],["num",16385000000]]"#,
        r##"[[{"error":"#VALUE!"}]]"##,
    ),
    // SEQUENCE(0)
    (
        r#"["call","SEQUENCE",["num",0]]"#,
        r##"[[{"error":"#CALC!"}]]"##,
    ),
    // SEQUENCE(2,2,10,-3)
    (
        r#"["call","SEQUENCE",["num",2000000],["num",2000000],["num",10000000],["neg",["num",3000000]]]"#,
        "[[10000000,7000000],[4000000,1000000]]",
    ),
    // SEQUENCE(1,3,-9223372036854,9223372036854)
    (
        r#"["call","SEQUENCE",["num",1000000],["num",3000000],["neg",["num",9223372036854000000]],["num",9223372036854000000]]"#,
        "[[-9223372036854000000,0,9223372036854000000]]",
    ),
    // SUM(FILTER(A1:C2,{TRUE;FALSE}))
    (
        r#"["call","SUM",["call","FILTER",["range",0,null,true,true,1,1,true,true,2,3],["array",[[true],[false]]]]]"#,
        "[[6000000]]",
    ),
];

#[test]
fn functions_of_arrays_have_their_values(rt: HostRuntime) -> Result<(), Fail> {
    let alloc = rt.alloc();
    for &(formula, spilled) in &FUNCTIONS {
        let request = format!(in alloc;
            "{{\"sheets\":[\"Sheet1\"],\"cells\":{NUMBERS},\"cell\":[0,1,6],\"formula\":{formula}}}"
        )?;
        let end = format!(in alloc; "\"spilled\":{spilled},\"unit\":null}}\n")?;
        assert!(rt;
            answers_in(alloc, request.as_str(), end.as_str())?,
            "{formula}"
        );
    }
    Ok(())
}
