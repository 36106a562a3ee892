use crate::written_formula_reads_back;
use formula_json::{read_node, write_node};
use json::Writer;
use serde_json::Value;
use std::alloc::Global;
use std::test::Fail;
use tree_core::{Function, Memory, Node, Nodes, OpSum, Operator, Text, Texts};
use value_json::FormError;

/// Forms of formulas, at least one for each tag. Each is what is written of the formula that it is read as.
static FORMS: [&str; 44] = [
    r#"["bool",true]"#,
    r#"["bool",false]"#,
    r#"["num",-9223372036854775808]"#,
    r#"["num",9223372036854775807]"#,
    r#"["text","a\"b\\c\nd\té\u0001"]"#,
    r##"["error","#N/A"]"##,
    r##"["error","#DIV/0!"]"##,
    r#"["empty"]"#,
    r#"["ref",4294967295,"A",true,false,2147483647,-2147483648]"#,
    r#"["range",7,null,true,false,1,2,false,true,3,-4]"#,
    r#"["range",7,"It's",true,false,1,2,false,true,3,-4]"#,
    r#"["wrongref",null,false,true,5,-6]"#,
    r#"["wrongrange","B",true,false,1,2,false,true,3,4]"#,
    r#"["oprange",["num",1],["num",2]]"#,
    r#"["concat",["num",1],["num",2]]"#,
    r#"["pow",["num",1],["num",2]]"#,
    r#"["add",["num",1],["num",2]]"#,
    r#"["sub",["num",1],["num",2]]"#,
    r#"["mul",["num",1],["num",2]]"#,
    r#"["div",["num",1],["num",2]]"#,
    r#"["lt",["num",1],["num",2]]"#,
    r#"["gt",["num",1],["num",2]]"#,
    r#"["eq",["num",1],["num",2]]"#,
    r#"["le",["num",1],["num",2]]"#,
    r#"["ge",["num",1],["num",2]]"#,
    r#"["ne",["num",1],["num",2]]"#,
    r#"["neg",["num",1]]"#,
    r#"["percent",["num",1]]"#,
    r#"["spill",["num",1]]"#,
    r#"["call","PI"]"#,
    r#"["call","SUM",["num",1],["empty"]]"#,
    r#"["call","UNIQUE",["call",65535]]"#,
    r#"["named","F",4294967295,["num",1],["num",2]]"#,
    r##"["array",[[1,"A",true],[],[null,{"error":"#NULL!"}]]]"##,
    r#"["array",[]]"#,
    r#"["name","N",null,"A1"]"#,
    r#"["name","N",0,""]"#,
    r#"["table","T"]"#,
    r#"["var","x",3]"#,
    r#"["at",true,["at",false,["num",1]]]"#,
    r#"["lambda",["x","y"],["num",1]]"#,
    r#"["lambda",[],["num",1]]"#,
    r#"["lambdacall",["num",1],["num",2],["num",3]]"#,
    r#"["parseerror","=(","Unexpected end",2]"#,
];

/// Forms that are read, and what is written of the formula.
static OTHER_FORMS: [(&str, &str); 3] = [
    (r#" [ "t\u0065xt" , "Z\u0061" ] "#, r#"["text","Za"]"#),
    (r#"["call",2]"#, r#"["call","PI"]"#),
    (
        r#"["call",13,["call",458]]"#,
        r#"["call","SUM",["call",458]]"#,
    ),
];

fn written(alloc: Global, node: &Node) -> Result<Vec<u8>, Fail> {
    let mut writer = Writer::new(Vec::new(alloc));
    write_node(&mut writer, node)?;
    Ok(writer.into_inner())
}

#[test]
fn each_form_is_read_and_written(rt: HostRuntime) -> Result<(), Fail> {
    for &form in &FORMS {
        assert!(rt; is_rewritten(rt.alloc(), form, form)?, "{form}");
    }
    for &(form, other) in &OTHER_FORMS {
        assert!(rt; is_rewritten(rt.alloc(), form, other)?, "{form}");
    }
    Ok(())
}

/// Whether a form is read as a formula that is written as another form.
fn is_rewritten(alloc: Global, form: &str, other: &str) -> Result<bool, Fail> {
    let value = Value::from_str(alloc, form)?;
    let node = read_node(alloc, &value)?;
    drop(value);
    let bytes = written(alloc, &node)?;
    drop(node);
    Ok(bytes.as_slice() == other.as_bytes())
}

/// A lambda of one parameter over the difference of a reference and a call, made by hand.
fn lambda(alloc: Global) -> Result<Node, Fail> {
    let difference = difference(alloc)?;
    let lambda = Node::lambda(alloc, parameters(alloc)?, difference)?;
    Ok(lambda)
}

fn parameters(alloc: Global) -> Result<Texts, Memory> {
    let mut parameters = Texts::new(alloc);
    let parameter = Text::from_text(alloc, "x")?;
    if let Err(_) = parameters.push(parameter) {
        return Err(Memory);
    }
    Ok(parameters)
}

fn difference(alloc: Global) -> Result<Node, Memory> {
    let reference = reference(alloc)?;
    let call = call(alloc)?;
    let difference = Node::binary(alloc, Operator::Sum(OpSum::Minus), reference, call)?;
    Ok(difference)
}

fn reference(alloc: Global) -> Result<Node, Memory> {
    Ok(Node::ReferenceKind {
        sheet_name: Some(Text::from_text(alloc, "S")?),
        sheet_index: 1,
        absolute_row: true,
        absolute_column: false,
        row: 3,
        column: -4,
    })
}

fn call(alloc: Global) -> Result<Node, Memory> {
    let mut args = Nodes::new(alloc);
    args.add(Node::intersection(alloc, true, Node::NumberKind(5))?)?;
    Ok(Node::call(Function::Take, args))
}

fn is_written_as(alloc: Global, form: &str) -> Result<bool, Fail> {
    let node = lambda(alloc)?;
    let bytes = written(alloc, &node)?;
    drop(node);
    Ok(bytes.as_slice() == form.as_bytes())
}

fn is_read_from(alloc: Global, form: &str) -> Result<bool, Fail> {
    let value = Value::from_str(alloc, form)?;
    let read = read_node(alloc, &value)?;
    drop(value);
    let node = lambda(alloc)?;
    let same = read == node;
    drop(read);
    Ok(same)
}

#[test]
fn a_form_is_that_of_its_formula(rt: HostRuntime) -> Result<(), Fail> {
    let alloc = rt.alloc();
    let form =
        r#"["lambda",["x"],["sub",["ref",1,"S",true,false,3,-4],["call","TAKE",["at",true,["num",5]]]]]"#;
    assert!(rt; is_written_as(alloc, form)?);
    assert!(rt; is_read_from(alloc, form)?);
    written_formula_reads_back();
    Ok(())
}

/// Values that are no formula.
static OTHER_VALUES: [&str; 62] = [
    "null",
    "true",
    "1",
    r#""num""#,
    r#"{"num":1}"#,
    "[]",
    r#"[1,"num"]"#,
    r#"["Num",1]"#,
    r#"["nums",1]"#,
    r#"["bool"]"#,
    r#"["bool",1]"#,
    r#"["bool",true,true]"#,
    r#"["num",-0]"#,
    r#"["num",1.5]"#,
    r#"["num",1e3]"#,
    r#"["num",9223372036854775808]"#,
    r#"["num",-9223372036854775809]"#,
    r#"["text",null]"#,
    r##"["error","#n/a"]"##,
    r##"["error","N/A"]"##,
    r#"["error",5]"#,
    r#"["empty",null]"#,
    r#"["ref",4294967296,null,true,true,0,0]"#,
    r#"["ref",-1,null,true,true,0,0]"#,
    r#"["ref",0,null,true,true,2147483648,0]"#,
    r#"["ref",null,true,true,0,0]"#,
    r#"["range",null,true,true,0,0,true,true,0,0]"#,
    r#"["range",0,7,true,true,0,0,true,true,0,0]"#,
    r#"["wrongref",0,null,true,true,0,0]"#,
    r#"["wrongref",null,true,true,0,-2147483649]"#,
    r#"["wrongrange",0,null,true,true,0,0,true,true,0,0]"#,
    r#"["wrongrange",null,true,true,0,0,true,true,0]"#,
    r#"["concat",["num",1]]"#,
    r#"["le",["num",1],["num",2],["num",3]]"#,
    r#"["pow",["num",1],2]"#,
    r#"["spill"]"#,
    r#"["neg",["nun",1]]"#,
    r#"["call"]"#,
    r#"["call","unique"]"#,
    r#"["call","SUMS"]"#,
    r#"["call",""]"#,
    r#"["call",65536]"#,
    r#"["call",-1]"#,
    r#"["call",null]"#,
    r#"["call","SUM",1]"#,
    r#"["call","SUM",["num",1],null]"#,
    r#"["named","F"]"#,
    r#"["named","F",4294967296]"#,
    r#"["named","F","1"]"#,
    r#"["array",[1]]"#,
    r#"["array",[[1.5]]]"#,
    r#"["array",[[[]]]]"#,
    r##"["array",[[{"error":"#NULL!","more":1}]]]"##,
    r##"["array",[[{"errors":"#NULL!"}]]]"##,
    r##"["array",[[{"error":"NULL"}]]]"##,
    r#"["name","N",null]"#,
    r#"["var","x"]"#,
    r#"["at",["num",1],true]"#,
    r#"["lambda",["x",1],["num",1]]"#,
    r#"["lambda","x",["num",1]]"#,
    r#"["lambdacall"]"#,
    r#"["parseerror","=(","Unexpected end",-1]"#,
];

#[test]
fn other_values_are_refused(rt: HostRuntime) -> Result<(), Fail> {
    let alloc = rt.alloc();
    for &text in &OTHER_VALUES {
        let value = Value::from_str(alloc, text)?;
        let refused = read_node(alloc, &value).err();
        assert_eq!(rt; refused, Some(FormError::NotOfForm), "{text}");
    }
    Ok(())
}
