use super::exports::exports;
use formula_words::formula;
use intersect::{ImportRule, import_counted};
use kind_table::{CrateKinds, StaticResult, function_named};
use shape_core::analyse_all;
use std::alloc::{AllocError, Global};
use std::test::Fail;
use tree_core::{Node, Nodes, Plain, Steps};

/// A hundred calls of ABS in one another, around the formula of some words.
fn nested(alloc: Global, words: &str) -> Result<Node, Fail> {
    let mut node = formula(alloc, words)?;
    for _ in 0..100 {
        let mut args = Nodes::new(alloc);
        args.add(node)?;
        node = Node::call(function_named("ABS").ok_or("no kind")?, args);
    }
    Ok(node)
}

#[test]
fn nested_calls_are_imported_and_exported(rt: HostRuntime) -> Result<(), Fail> {
    let alloc = rt.alloc();
    for &rule in &[ImportRule::AsCrate, ImportRule::EveryScalar] {
        assert!(rt; imports_nested(alloc, rule)?);
        assert!(rt; exports_nested(alloc, rule)?);
    }
    Ok(())
}

fn imports_nested(alloc: Global, rule: ImportRule) -> Result<bool, Fail> {
    let mut node = nested(alloc, "A1:A3")?;
    let mut steps = Steps::new(Plain);
    import_counted(alloc, &mut node, true, &CrateKinds, rule, &mut steps)?;
    let right = is_nested(alloc, &node, "A1:A3 ~")?;
    drop(node);
    Ok(right)
}

/// Whether the import of the nested calls is exported as they are given.
fn exports_nested(alloc: Global, rule: ImportRule) -> Result<bool, Fail> {
    let given = nested_words(alloc, "A1:A3 ~")?;
    let wanted = nested_words(alloc, "A1:A3")?;
    let both = [wanted.as_str(), wanted.as_str()];
    exports(alloc, &CrateKinds, rule, true, given.as_str(), both)
}

fn nested_words(alloc: Global, words: &str) -> Result<String, AllocError> {
    let mut nested = String::from_str(alloc, words)?;
    for _ in 0..100 {
        nested.push_str(" ABS/1")?;
    }
    Ok(nested)
}

fn is_nested(alloc: Global, node: &Node, words: &str) -> Result<bool, Fail> {
    let wanted = nested(alloc, words)?;
    let same = *node == wanted;
    drop(wanted);
    Ok(same)
}

#[test]
fn all_parts_have_their_shapes(rt: HostRuntime) -> Result<(), Fail> {
    let alloc = rt.alloc();
    let mut steps = Steps::new(Plain);
    let node = nested(alloc, "A1:A3")?;
    let shapes = analyse_all(alloc, &node, &CrateKinds, &mut steps)?;
    for index in 0..100 {
        assert_eq!(rt; shapes.get(index), Some(StaticResult::Array(3, 1)));
    }
    assert_eq!(rt; shapes.get(100), Some(StaticResult::Range(3, 1)));
    assert_eq!(rt; shapes.get(101), None);
    Ok(())
}
