use super::*;
use formula_json::read_node as read_by_value;
use json::{Reader, Scratch};
use serde_json::Value;
use std::alloc::Global;
use std::test::Fail;
use tree_core::Node;

/// Texts that are read straight, as the formulas that their JSON values are.
static STRAIGHT: [&str; 34] = [
    r#"["bool",true]"#,
    r#"["num",-9223372036854775808]"#,
    r#"["num",9223372036854775807]"#,
    r#"["num",0]"#,
    r#" [ "num" , 7 ] "#,
    r#"["t\u0065xt","a\"b\\c\nd\té\u0001"]"#,
    r##"["error","#N/A"]"##,
    r#"["empty"]"#,
    r#"["ref",4294967295,"A",true,false,2147483647,-2147483648]"#,
    r#"["range",7,null,true,false,1,2,false,true,3,-4]"#,
    r#"["range",7,"It's",true,false,1,2,false,true,3,-4]"#,
    r#"["wrongref",null,false,true,5,-6]"#,
    r#"["wrongrange","B",true,false,1,2,false,true,3,4]"#,
    r#"["oprange",["num",1],["num",2]]"#,
    r#"["concat",["num",1],["num",2]]"#,
    r#"["pow",["num",1],["num",2]]"#,
    r#"["sub",["num",1],["num",2]]"#,
    r#"["div",["num",1],["num",2]]"#,
    r#"["le",["num",1],["num",2]]"#,
    r#"["neg",["num",1]]"#,
    r#"["percent",["num",1]]"#,
    r#"["spill",["num",1]]"#,
    r#"["call","PI"]"#,
    r#"["call","SUM",["num",1],["empty"]]"#,
    r#"["named","F",4294967295,["num",1],["num",2]]"#,
    r##"["array",[[1,"A",true],[null,2,{"error":"#N/A","error":"#NULL!"}]]]"##,
    r#"["name","N",null,"A1"]"#,
    r#"["name","N",0,""]"#,
    r#"["table","T"]"#,
    r#"["var","x",3]"#,
    r#"["at",true,["at",false,["num",1]]]"#,
    r#"["lambda",["x","y"],["num",1]]"#,
    r#"["lambdacall",["num",1],["num",2],["num",3]]"#,
    r#"["parseerror","=(","Unexpected end",2]"#,
];

/// Texts of formulas that are left to the reader of JSON values.
static LEFT: [&str; 2] = [r#"["call",2]"#, r#"["call",13,["call",458]]"#];

/// Texts of no formula.
static NONE: [&str; 18] = [
    "",
    "[",
    "{}",
    r#"["num"]"#,
    r#"["num",1"#,
    r#"["num",1,2]"#,
    r#"["num",1.0]"#,
    r#"["num",1e0]"#,
    r#"["num",-0]"#,
    r#"["num",9223372036854775808]"#,
    r#"["num",-9223372036854775809]"#,
    r#"["ref",4294967296,"A",true,false,1,1]"#,
    r#"["ref",0,"A",true,false,2147483648,1]"#,
    r#"["ref",0,"A",true,false,1,-2147483649]"#,
    r#"["nothing",1]"#,
    r#"["add",["num",1]]"#,
    r#"["call","NO SUCH FUNCTION"]"#,
    r#"["at",1,["num",1]]"#,
];

#[test]
fn texts_are_read_straight(rt: HostRuntime) -> Result<(), Fail> {
    for &text in &STRAIGHT {
        let right = both_ways(rt.alloc(), text)? == Ways::Agree;
        assert!(rt; right, "{text}");
    }
    Ok(())
}

#[test]
fn others_are_left_alone(rt: HostRuntime) -> Result<(), Fail> {
    for &text in &LEFT {
        let right = both_ways(rt.alloc(), text)? == Ways::Left;
        assert!(rt; right, "{text}");
    }
    for &text in &NONE {
        let right = both_ways(rt.alloc(), text)? == Ways::NoFormula;
        assert!(rt; right, "{text}");
    }
    Ok(())
}

/// An array nests so deep that one more is too deep.
#[test]
fn nests_are_read_to_their_depth(rt: HostRuntime) -> Result<(), Fail> {
    let text = r#"["neg",["neg",["num",1]]]"#;
    let deep = read_straight(rt.alloc(), text, 3)?;
    let right = deep.is_some();
    drop(deep);
    let shallow = read_straight(rt.alloc(), text, 2)?;
    let too_deep = shallow.is_none();
    drop(shallow);
    assert!(rt; right && too_deep);
    Ok(())
}

#[test]
fn a_value_is_read(rt: HostRuntime) -> Result<(), Fail> {
    let alloc = rt.alloc();
    let text = r#"{"a":[1,-2,{"b":null}],"a":"last"}"#;
    let mut scratch = Scratch::new(alloc);
    let mut reader = Reader::new(text, &mut scratch)?;
    let value = read_value(alloc, &mut reader, 3);
    let wanted = Value::from_str(alloc, text)?;
    let same = is_value(&value, &wanted);
    drop(value);
    drop(wanted);
    assert!(rt; same);
    Ok(())
}

fn is_value(found: &Result<Value, Unread>, wanted: &Value) -> bool {
    match found {
        Ok(value) => value == wanted,
        Err(_) => false,
    }
}

/// What the two ways of reading a formula make of a text.
#[derive(Clone, Copy, PartialEq, Eq)]
enum Ways {
    /// The same formula.
    Agree,
    /// A formula by its JSON value alone.
    Left,
    /// No formula by either.
    NoFormula,
    /// Two formulas, or one read straight that is none.
    Differ,
}

fn both_ways(alloc: Global, text: &str) -> Result<Ways, Fail> {
    let straight = read_straight(alloc, text, 127)?;
    let by_value = read_whole(alloc, text);
    let found = compared(&straight, &by_value);
    drop(straight);
    drop(by_value);
    Ok(found)
}

fn compared(straight: &Option<Node>, by_value: &Option<Node>) -> Ways {
    match (straight, by_value) {
        (Some(node), Some(other)) if *node == *other => Ways::Agree,
        (None, Some(_)) => Ways::Left,
        (None, None) => Ways::NoFormula,
        _ => Ways::Differ,
    }
}

fn read_straight(alloc: Global, text: &str, depth: usize) -> Result<Option<Node>, Fail> {
    let mut scratch = Scratch::new(alloc);
    let mut reader = Reader::new(text, &mut scratch)?;
    match read_node(alloc, &mut reader, depth) {
        Ok(node) => Ok(Some(node)),
        Err(Unread::Other) => Ok(None),
        Err(Unread::Memory) => Err("want of memory".into()),
    }
}

/// The formula that a text is by its JSON value.
fn read_whole(alloc: Global, text: &str) -> Option<Node> {
    let value = Value::from_str(alloc, text).ok()?;
    let node = read_by_value(alloc, &value).ok();
    drop(value);
    node
}
