use super::answers_in;
use super::values::NUMBERS;
use std::test::Fail;

/// Formulas of functions of references and texts in cells over a sheet of numbers, and their spilled values.
static REFERENCES: [(&str, &str, &str); 45] = [
    // INDEX(A1:C2,0,2)
    (
        "[0,1,6]",
        r#"["call","INDEX",["range",0,null,true,true,1,1,true,true,2,3],["num",0],["num",2000000]]"#,
        "[[2000000],[5000000]]",
    ),
    // INDEX(A1:C1,3)
    (
        "[0,1,6]",
        r#"["call","INDEX",["range",0,null,true,true,1,1,true,true,1,3],["num",3000000]]"#,
        "[[3000000]]",
    ),
    // INDEX(A1:C2,3,1)
    (
        "[0,1,6]",
        r#"["call","INDEX",["range",0,null,true,true,1,1,true,true,2,3],["num",3000000],["num",1000000]]"#,
        r##"[[{"error":"#REF!"}]]"##,
    ),
    // INDEX(A1:C2,-1,1)
    (
        "[0,1,6]",
        r#"["call","INDEX",["range",0,null,true,true,1,1,true,true,2,3],["neg",["num",1000000]],["num",1000000]]"#,
        r##"[[{"error":"#VALUE!"}]]"##,
    ),
    // INDEX(A1:C2,1,1,2)
    (
        "[0,1,6]",
        r#"["call","INDEX",["range",0,null,true,true,1,1,true,true,2,3],["num",1000000],["num",1000000],["num",2000000]]"#,
        r##"[[{"error":"#REF!"}]]"##,
    ),
    // INDEX({1,2;3,4},2,0)
    (
        "[0,1,6]",
        r#"["call","INDEX",["array",[[1000000,2000000],[3000000,4000000]]],["num",2000000],["num",0]]"#,
        "[[3000000,4000000]]",
    ),
    // INDEX(A1,1)
    (
        "[0,1,6]",
        r#"["call","INDEX",["ref",0,null,true,true,1,1],["num",1000000]]"#,
        r##"[[{"error":"#VALUE!"}]]"##,
    ),
    // OFFSET(A1,1,1,1,2)
    (
        "[0,1,6]",
        r#"["call","OFFSET",["ref",0,null,true,true,1,1],["num",1000000],["num",1000000],["num",1000000],["num",2000000]]"#,
        "[[5000000,6000000]]",
    ),
    // OFFSET(A1,0,0,0.5)
    (
        "[0,1,6]",
        r#"["call","OFFSET",["ref",0,null,true,true,1,1],["num",0],["num",0],["num",500000]]"#,
        "[[1000000]]",
    ),
    // OFFSET(A1,0,0,0)
    (
        "[0,1,6]",
        r#"["call","OFFSET",["ref",0,null,true,true,1,1],["num",0],["num",0],["num",0]]"#,
        r##"[[{"error":"#REF!"}]]"##,
    ),
    // OFFSET(A1,0,0,-1)
    (
        "[0,1,6]",
        r#"["call","OFFSET",["ref",0,null,true,true,1,1],["num",0],["num",0],["neg",["num",1000000]]]"#,
        r##"[[{"error":"#VALUE!"}]]"##,
    ),
    // OFFSET(A1,-1,0)
    (
        "[0,1,6]",
        r#"["call","OFFSET",["ref",0,null,true,true,1,1],["neg",["num",1000000]],["num",0]]"#,
        r##"[[{"error":"#REF!"}]]"##,
    ),
    // ROW(A1:A2)
    (
        "[0,1,6]",
        r#"["call","ROW",["range",0,null,true,true,1,1,true,true,2,1]]"#,
        "[[1000000],[2000000]]",
    ),
    // COLUMN(A1:C1)
    (
        "[0,1,6]",
        r#"["call","COLUMN",["range",0,null,true,true,1,1,true,true,1,3]]"#,
        "[[1000000,2000000,3000000]]",
    ),
    // ROW()
    ("[0,1,6]", r#"["call","ROW"]"#, "[[1000000]]"),
    // COLUMN()
    ("[0,1,6]", r#"["call","COLUMN"]"#, "[[6000000]]"),
    // ROW(@A7)
    (
        "[0,1,6]",
        r#"["call","ROW",["at",false,["ref",0,null,true,true,7,1]]]"#,
        "[[7000000]]",
    ),
    // ROWS(A1:C2)
    (
        "[0,1,6]",
        r#"["call","ROWS",["range",0,null,true,true,1,1,true,true,2,3]]"#,
        "[[2000000]]",
    ),
    // COLUMNS(A1:C2)
    (
        "[0,1,6]",
        r#"["call","COLUMNS",["range",0,null,true,true,1,1,true,true,2,3]]"#,
        "[[3000000]]",
    ),
    // AREAS(A1:C2)
    (
        "[0,1,6]",
        r#"["call","AREAS",["range",0,null,true,true,1,1,true,true,2,3]]"#,
        "[[1000000]]",
    ),
    // COLUMNS(@A1:C1)
    (
        "[0,5,2]",
        r#"["call","COLUMNS",["at",false,["range",0,null,true,true,1,1,true,true,1,3]]]"#,
        "[[1000000]]",
    ),
    // INDIRECT("A1:B1")
    (
        "[0,1,6]",
        r#"["call","INDIRECT",["text","A1:B1"]]"#,
        "[[1000000,2000000]]",
    ),
    // INDIRECT("R1C[-3]",FALSE)
    (
        "[0,1,6]",
        r#"["call","INDIRECT",["text","R1C[-3]"],["bool",false]]"#,
        "[[3000000]]",
    ),
    // INDIRECT("A0")
    (
        "[0,1,6]",
        r#"["call","INDIRECT",["text","A0"]]"#,
        r##"[[{"error":"#REF!"}]]"##,
    ),
    // INDIRECT("A1",)
    (
        "[0,1,6]",
        r#"["call","INDIRECT",["text","A1"],["empty"]]"#,
        r##"[[{"error":"#REF!"}]]"##,
    ),
    // FORMULATEXT($D$1)
    (
        "[0,1,6]",
        r#"["call","FORMULATEXT",["ref",0,null,true,true,1,4]]"#,
        r#"[["=SUM(A1:C1)"]]"#,
    ),
    // FORMULATEXT($A$1)
    (
        "[0,1,6]",
        r#"["call","FORMULATEXT",["ref",0,null,true,true,1,1]]"#,
        r##"[[{"error":"#N/A"}]]"##,
    ),
    // FORMULATEXT($A$1:$A$2)
    (
        "[0,1,6]",
        r#"["call","FORMULATEXT",["range",0,null,true,true,1,1,true,true,2,1]]"#,
        r##"[[{"error":"#NIMPL!"}]]"##,
    ),
    // FORMULATEXT(1)
    (
        "[0,1,6]",
        r#"["call","FORMULATEXT",["num",1000000]]"#,
        r##"[[{"error":"#ERROR!"}]]"##,
    ),
    // ARRAYTOTEXT(A1:B2)
    (
        "[0,1,6]",
        r#"["call","ARRAYTOTEXT",["range",0,null,true,true,1,1,true,true,2,2]]"#,
        r#"[["1, 2, 4, 5"]]"#,
    ),
    // ARRAYTOTEXT({"a",TRUE;1.5,2},1)
    (
        "[0,1,6]",
        r#"["call","ARRAYTOTEXT",["array",[["a",true],[1500000,2000000]]],["num",1000000]]"#,
        r#"[["{\"a\",TRUE;1.5,2}"]]"#,
    ),
    // TEXTSPLIT("a,b;c",",",";")
    (
        "[0,1,6]",
        r#"["call","TEXTSPLIT",["text","a,b;c"],["text",","],["text",";"]]"#,
        r##"[["a","b"],["c",{"error":"#N/A"}]]"##,
    ),
    // TEXTSPLIT("a","")
    (
        "[0,1,6]",
        r#"["call","TEXTSPLIT",["text","a"],["text",""]]"#,
        r##"[[{"error":"#VALUE!"}]]"##,
    ),
    // TEXTSPLIT("aXéxc","x",,FALSE,1)
    (
        "[0,1,6]",
        r#"["call","TEXTSPLIT",["text","aXéxc"],["text","x"],["empty"],["bool",false],["num",1000000]]"#,
        r#"[["a","é","c"]]"#,
    ),
    // ADDRESS(1,1,1,TRUE,"")
    (
        "[0,1,6]",
        r#"["call","ADDRESS",["num",1000000],["num",1000000],["num",1000000],["bool",true],["text",""]]"#,
        r#"[["!$A$1"]]"#,
    ),
    // ADDRESS(3,5,4,FALSE)
    (
        "[0,1,6]",
        r#"["call","ADDRESS",["num",3000000],["num",5000000],["num",4000000],["bool",false]]"#,
        r#"[["R[3]C[5]"]]"#,
    ),
    // ADDRESS(1,16385)
    (
        "[0,1,6]",
        r#"["call","ADDRESS",["num",1000000],["num",16385000000]]"#,
        r##"[[{"error":"#VALUE!"}]]"##,
    ),
    // ADDRESS(1,1,)
    (
        "[0,1,6]",
        r#"["call","ADDRESS",["num",1000000],["num",1000000],["empty"]]"#,
        r##"[[{"error":"#VALUE!"}]]"##,
    ),
    // CHOOSE(1,{7},2)
    (
        "[0,1,6]",
        r#"["call","CHOOSE",["num",1000000],["array",[[7000000]]],["num",2000000]]"#,
        "[[7000000]]",
    ),
    // CHOOSE(A1:B1,5,6)
    (
        "[0,1,6]",
        r#"["call","CHOOSE",["range",0,null,true,true,1,1,true,true,1,2],["num",5000000],["num",6000000]]"#,
        "[[5000000,6000000]]",
    ),
    // CHOOSE(C1,5,6)
    (
        "[0,1,6]",
        r#"["call","CHOOSE",["ref",0,null,true,true,1,3],["num",5000000],["num",6000000]]"#,
        r##"[[{"error":"#VALUE!"}]]"##,
    ),
    // ROWS(CHOOSE(2,A1,A1:A2))
    (
        "[0,1,6]",
        r#"["call","ROWS",["call","CHOOSE",["num",2000000],["ref",0,null,true,true,1,1],["range",0,null,true,true,1,1,true,true,2,1]]]"#,
        "[[2000000]]",
    ),
    // CHOOSE(1,)
    (
        "[0,1,6]",
        r#"["call","CHOOSE",["num",1000000],["empty"]]"#,
        "[[null]]",
    ),
    // SORT(A1:A2)
    (
        "[0,1,6]",
        r#"["call","SORT",["range",0,null,true,true,1,1,true,true,2,1]]"#,
        r##"[[{"error":"#NIMPL!"}]]"##,
    ),
    // ROWS(SEQUENCE(3,2))
    (
        "[0,1,6]",
        r#"["call","ROWS",["call","SEQUENCE",["num",3000000],["num",2000000]]]"#,
        "[[3000000]]",
    ),
];

#[test]
fn functions_of_references_and_texts_have_their_values(rt: HostRuntime) -> Result<(), Fail> {
    let alloc = rt.alloc();
    for &(cell, formula, spilled) in &REFERENCES {
        let request = format!(in alloc;
            "{{\"sheets\":[\"Sheet1\"],\"cells\":{NUMBERS},\"cell\":{cell},\"formula\":{formula}}}"
        )?;
        let end = format!(in alloc; "\"spilled\":{spilled},\"unit\":null}}\n")?;
        assert!(rt;
            answers_in(alloc, request.as_str(), end.as_str())?,
            "{formula}"
        );
    }
    Ok(())
}
