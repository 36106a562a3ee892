use super::*;
use std::test::Fail;

/// Formulas alone, whether every place of one value gets an `@`, and the status and the line of each. `A1:A3+1` is an array, of which
/// SIN wants one value by one of the rules alone.
static FORMULAS: [(&str, bool, u32, &str); 3] = [
    (
        r#"["call","SIN",["add",["range",0,null,true,true,1,1,true,true,3,1],["num",1000000]]]"#,
        false,
        0,
        concat!(
            r#"{"exported":["call","SIN",["add",["range",0,null,true,true,1,1,true,true,3,1],["num",1000000]]],"#,
            r#""imported":["call","SIN",["add",["range",0,null,true,true,1,1,true,true,3,1],["num",1000000]]]}"#,
            "\n"
        ),
    ),
    (
        r#"["call","SIN",["add",["range",0,null,true,true,1,1,true,true,3,1],["num",1000000]]]"#,
        true,
        0,
        concat!(
            r#"{"exported":["call","SIN",["add",["range",0,null,true,true,1,1,true,true,3,1],["num",1000000]]],"#,
            r#""imported":["call","SIN",["add",["at",true,["range",0,null,true,true,1,1,true,true,3,1]],["num",1000000]]]}"#,
            "\n"
        ),
    ),
    (r#"["num"]"#, false, 3, "bad json\n"),
];

static REQUEST: &str =
    r#"{"sheets":["Sheet1"],"cells":[],"cell":[0,3,3],"formula":["num",1000000]}"#;

/// Words for this request, and the status and the line of each.
static WORDS: [(&str, u32, &str); 4] = [
    (
        "answer",
        0,
        concat!(
            r#"{"exported":["num",1000000],"given_shape":"Scalar","imported":["num",1000000],"#,
            r#""imported_shape":"Scalar","legacy":[[1000000]],"spilled":[[1000000]],"unit":null}"#,
            "\n"
        ),
    ),
    ("cell 1 1", 0, "1000000\n"),
    ("cell 2 1", 0, "none\n"),
    (
        "cell  1 1",
        2,
        "usage: answer, cell ROW COLUMN or generate N\n",
    ),
];

#[test]
fn formulas_are_imported_and_exported(rt: HostRuntime) -> Result<(), Fail> {
    for &(formula, every_scalar, wanted, line) in &FORMULAS {
        let mut room = [b'.'; 512];
        let mut length = 0;
        let bytes = formula.as_bytes();
        let status = hencredenza_formula(rt.alloc(), bytes, every_scalar, &mut room, &mut length);
        assert!(rt;
            status == wanted && is_handed(&room, length, line),
            "{formula}"
        );
    }
    Ok(())
}

#[test]
fn requests_are_answered(rt: HostRuntime) -> Result<(), Fail> {
    for &(words, wanted, line) in &WORDS {
        let mut room = [b'.'; 512];
        let mut length = 0;
        let (words, request) = (words.as_bytes(), REQUEST.as_bytes());
        let status = hencredenza_run(rt.alloc(), words, request, &mut room, &mut length);
        assert!(rt;
            status == wanted && is_handed(&room, length, line),
            "{line}"
        );
    }
    Ok(())
}

#[test]
fn a_line_without_room_is_not_begun(rt: HostRuntime) -> Result<(), Fail> {
    let mut room = [b'.'; 7];
    let mut length = 0;
    let (words, request) = (b"cell 1 1", REQUEST.as_bytes());
    let status = hencredenza_run(rt.alloc(), words, request, &mut room, &mut length);
    assert!(rt; status == 1 && length == 8 && room == [b'.'; 7]);
    Ok(())
}

/// Whether the line stands at the front of the room, and nothing behind it.
fn is_handed(room: &[u8], length: usize, line: &str) -> bool {
    length == line.len()
        && room.starts_with(line.as_bytes())
        && room.get(length).copied() == Some(b'.')
}
