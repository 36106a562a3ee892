use super::answers;
use std::test::Fail;

/// Formulas by the rules, in C3 of an empty sheet: each as it is given, its export, its shape, its import, the shape of that, and
/// its values as the answer has them.
static FORMULAS: [(&str, &str, &str, &str, &str, &str); 13] = [
    // SIN(A1:A5+1)
    (
        r#"["call","SIN",["add",["range",0,null,true,true,1,1,true,true,5,1],["num",1000000]]]"#,
        r#"["call","SIN",["add",["range",0,null,true,true,1,1,true,true,5,1],["num",1000000]]]"#,
        "Array(5,1)",
        r#"["call","SIN",["add",["range",0,null,true,true,1,1,true,true,5,1],["num",1000000]]]"#,
        "Array(5,1)",
        r##""legacy":[[{"error":"#NIMPL!"}]],"spilled":[[{"error":"#NIMPL!"}]]"##,
    ),
    // SIN(@A1:A3+1)
    (
        r#"["call","SIN",["add",["at",false,["range",0,null,true,true,1,1,true,true,3,1]],["num",1000000]]]"#,
        r#"["call","SIN",["add",["at",false,["range",0,null,true,true,1,1,true,true,3,1]],["num",1000000]]]"#,
        "Scalar",
        r#"["call","SIN",["add",["at",false,["range",0,null,true,true,1,1,true,true,3,1]],["num",1000000]]]"#,
        "Scalar",
        r##""legacy":[[{"error":"#NIMPL!"}]],"spilled":[[{"error":"#NIMPL!"}]]"##,
    ),
    // @SIN(@A1:A5)
    (
        r#"["at",false,["call","SIN",["at",false,["range",0,null,true,true,1,1,true,true,5,1]]]]"#,
        r#"["at",false,["call","SIN",["at",false,["range",0,null,true,true,1,1,true,true,5,1]]]]"#,
        "Scalar",
        r#"["at",false,["call","SIN",["at",false,["range",0,null,true,true,1,1,true,true,5,1]]]]"#,
        "Scalar",
        r##""legacy":[[{"error":"#NIMPL!"}]],"spilled":[[{"error":"#NIMPL!"}]]"##,
    ),
    // SUM(A1,B1,@J:J)
    (
        r#"["call","SUM",["ref",0,null,true,true,1,1],["ref",0,null,true,true,1,2],["at",false,["range",0,null,true,true,1,10,true,true,1048576,10]]]"#,
        r#"["call","SUM",["ref",0,null,true,true,1,1],["ref",0,null,true,true,1,2],["at",false,["range",0,null,true,true,1,10,true,true,1048576,10]]]"#,
        "Scalar",
        r#"["call","SUM",["ref",0,null,true,true,1,1],["ref",0,null,true,true,1,2],["at",false,["range",0,null,true,true,1,10,true,true,1048576,10]]]"#,
        "Scalar",
        r#""legacy":[[0]],"spilled":[[0]]"#,
    ),
    // @@@INDEX(A1:A5,B1:B3)
    (
        r#"["at",false,["at",false,["at",false,["call","INDEX",["range",0,null,true,true,1,1,true,true,5,1],["range",0,null,true,true,1,2,true,true,3,2]]]]]"#,
        r#"["call","INDEX",["range",0,null,true,true,1,1,true,true,5,1],["range",0,null,true,true,1,2,true,true,3,2]]"#,
        "Scalar",
        r#"["at",true,["call","INDEX",["range",0,null,true,true,1,1,true,true,5,1],["at",true,["range",0,null,true,true,1,2,true,true,3,2]]]]"#,
        "Scalar",
        r#""legacy":[[null]],"spilled":[[null]]"#,
    ),
    // SIN(A1:A3+INDEX(B1:B3,1))
    (
        r#"["call","SIN",["add",["range",0,null,true,true,1,1,true,true,3,1],["call","INDEX",["range",0,null,true,true,1,2,true,true,3,2],["num",1000000]]]]"#,
        r#"["call","SIN",["add",["range",0,null,true,true,1,1,true,true,3,1],["call","INDEX",["range",0,null,true,true,1,2,true,true,3,2],["num",1000000]]]]"#,
        "Unknown",
        r#"["call","SIN",["add",["at",true,["range",0,null,true,true,1,1,true,true,3,1]],["at",true,["call","INDEX",["range",0,null,true,true,1,2,true,true,3,2],["num",1000000]]]]]"#,
        "Scalar",
        r##""legacy":[[{"error":"#NIMPL!"}]],"spilled":[[{"error":"#NIMPL!"}]]"##,
    ),
    // CHOOSE(A1:A5,1,2)
    (
        r#"["call","CHOOSE",["range",0,null,true,true,1,1,true,true,5,1],["num",1000000],["num",2000000]]"#,
        r#"["call","CHOOSE",["range",0,null,true,true,1,1,true,true,5,1],["num",1000000],["num",2000000]]"#,
        "Range(5,1)",
        r#"["call","CHOOSE",["at",true,["range",0,null,true,true,1,1,true,true,5,1]],["num",1000000],["num",2000000]]"#,
        "Scalar",
        r##""legacy":[[{"error":"#VALUE!"}]],"spilled":[[{"error":"#VALUE!"}],[{"error":"#VALUE!"}],[{"error":"#VALUE!"}],[{"error":"#VALUE!"}],[{"error":"#VALUE!"}]]"##,
    ),
    // CHOOSE(1,{7},2)
    (
        r#"["call","CHOOSE",["num",1000000],["array",[[7000000]]],["num",2000000]]"#,
        r#"["call","CHOOSE",["num",1000000],["array",[[7000000]]],["num",2000000]]"#,
        "Scalar",
        r#"["call","CHOOSE",["num",1000000],["array",[[7000000]]],["num",2000000]]"#,
        "Scalar",
        r#""legacy":[[7000000]],"spilled":[[7000000]]"#,
    ),
    // LET(x,1,x)
    (
        r#"["call","LET",["var","x",null],["num",1000000],["var","x",null]]"#,
        r#"["call","LET",["var","x",null],["num",1000000],["var","x",null]]"#,
        "Unknown",
        r#"["call","LET",["var","x",null],["num",1000000],["var","x",null]]"#,
        "Unknown",
        r##""legacy":[[{"error":"#NIMPL!"}]],"spilled":[[{"error":"#NIMPL!"}]]"##,
    ),
    // x
    (
        r#"["var","x",null]"#,
        r#"["var","x",null]"#,
        "Scalar",
        r#"["at",true,["var","x",null]]"#,
        "Scalar",
        r##""legacy":[[{"error":"#NIMPL!"}]],"spilled":[[{"error":"#NIMPL!"}]]"##,
    ),
    // a name of a range
    (
        r#"["name","data",null,"Sheet1!A1:B3"]"#,
        r#"["name","data",null,"Sheet1!A1:B3"]"#,
        "Unknown",
        r#"["at",true,["name","data",null,"Sheet1!A1:B3"]]"#,
        "Scalar",
        r##""legacy":[[{"error":"#NIMPL!"}]],"spilled":[[{"error":"#NIMPL!"}]]"##,
    ),
    // a name of an absolute range
    (
        r#"["name","data",null,"Sheet1!$A$1:$A$5"]"#,
        r#"["name","data",null,"Sheet1!$A$1:$A$5"]"#,
        "Unknown",
        r#"["name","data",null,"Sheet1!$A$1:$A$5"]"#,
        "Unknown",
        r##""legacy":[[{"error":"#NIMPL!"}]],"spilled":[[{"error":"#NIMPL!"}]]"##,
    ),
    // a lambda
    (
        r#"["lambda",["x"],["num",0]]"#,
        r#"["lambda",["x"],["num",0]]"#,
        "Unknown",
        r#"["lambda",["x"],["num",0]]"#,
        "Unknown",
        r##""legacy":[[{"error":"#NIMPL!"}]],"spilled":[[{"error":"#NIMPL!"}]]"##,
    ),
];

#[test]
fn formulas_are_imported_and_exported_to_the_byte(rt: HostRuntime) -> Result<(), Fail> {
    let alloc = rt.alloc();
    for &(formula, exported, given_shape, imported, imported_shape, values) in &FORMULAS {
        let request = format!(in alloc;
            "{{\"sheets\":[\"Sheet1\"],\"cells\":[],\"cell\":[0,3,3],\"formula\":{formula}}}"
        )?;
        let line = format!(in alloc;
            "{{\"exported\":{exported},\"given_shape\":\"{given_shape}\",\"imported\":{imported},\"imported_shape\":\"{imported_shape}\",{values},\"unit\":null}}\n"
        )?;
        assert!(rt;
            answers(alloc, request.as_str(), line.as_str())?,
            "{formula}"
        );
    }
    Ok(())
}
