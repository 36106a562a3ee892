use super::*;
use StaticResult::{Array, Range, Scalar, Unknown};
use formula_words::{cell, formula, range};
use kind_table::{CrateKinds, StaticResult};
use std::alloc::Global;
use std::test::Fail;
use tree_core::{ArrayNode, Corner, Function, Memory, Node, Nodes, Plain, Rows, Steps};

/// Where an end of a range lies: whether its row and its column are absolute, the row and the column.
type End = (bool, bool, i32, i32);

const IN_COLUMN: (End, End) = ((false, false, -2, -2), (false, false, 2, -2));

const IN_ROW: (End, End) = ((true, true, 1, 5), (true, true, 1, 1));

/// Formulas in words, and the shape of each.
static WORDS: [(&str, StaticResult); 3] = [
    ("A1:A5 @", Scalar),
    ("A1:A5 1 + SIN/1", Array(5, 1)),
    ("A1 A1 :", Unknown),
];

/// A formula in words, and the shapes of its parts by number.
static PARTS: [(&str, &[StaticResult]); 4] = [
    ("1", &[Scalar]),
    (
        "A1:A3 @ @ 1 CHOOSE/2",
        &[Scalar, Scalar, Scalar, Range(3, 1), Scalar],
    ),
    (
        "A1:A3 B1:B3 : # 1 +",
        &[Unknown, Unknown, Unknown, Range(3, 1), Range(3, 1), Scalar],
    ),
    (
        "A1:A3 SIN/1 lambda A1:A5 % apply/1",
        &[
            Unknown,
            Unknown,
            Array(3, 1),
            Range(3, 1),
            Range(5, 1),
            Range(5, 1),
        ],
    ),
];

/// The ends of a range, and its shape.
static RANGES: [((End, End), StaticResult); 6] = [
    (IN_COLUMN, Range(5, 1)),
    (IN_ROW, Range(1, 5)),
    (((true, true, 9, 3), (true, true, 1, 4)), Range(9, 2)),
    (
        ((true, false, 1, 0), (false, false, 0, 2)),
        Range(1048576, 3),
    ),
    (((false, true, 0, 1), (false, false, 0, 1)), Range(1, 16384)),
    (
        (
            (true, true, -2147483648, 1),
            (true, true, 2147483647, 16384),
        ),
        Range(1048576, 16384),
    ),
];

/// Which argument, as far as calls of own kinds ask.
#[derive(Clone, Copy, Debug)]
enum First {
    Row,
    Column,
    Cell,
    AtCell,
}

/// The kind of a call, its first argument, the numbers that follow, in millionths, and the shape of the call.
static CALLS: [(Function, First, &[i64], StaticResult); 12] = [
    (Function::Row, First::Row, &[], Scalar),
    (Function::Row, First::Column, &[], Unknown),
    (Function::Row, First::Cell, &[], Scalar),
    (Function::Column, First::Row, &[], Unknown),
    (Function::Column, First::Column, &[], Scalar),
    (Function::Column, First::AtCell, &[], Scalar),
    (Function::Offset, First::Column, &[0], Scalar),
    (Function::Offset, First::Column, &[0, 0], Unknown),
    (Function::Offset, First::Cell, &[0, 0], Scalar),
    (Function::Offset, First::AtCell, &[0, 0], Unknown),
    (
        Function::Offset,
        First::Cell,
        &[0, 0, 1000000, 1000000],
        Scalar,
    ),
    (
        Function::Offset,
        First::Cell,
        &[0, 0, 1000000, 2000000],
        Unknown,
    ),
];

fn corner(end: End) -> Corner {
    Corner::new(end.0, end.1, end.2, end.3)
}

fn range_between((left, right): (End, End)) -> Node {
    range(corner(left), corner(right))
}

fn argument(alloc: Global, which: First) -> Result<Node, Memory> {
    let first = cell(Corner::new(true, true, 1, 1));
    match which {
        First::Row => Ok(range_between(IN_ROW)),
        First::Column => Ok(range_between(IN_COLUMN)),
        First::Cell => Ok(first),
        First::AtCell => Node::intersection(alloc, false, first),
    }
}

fn call(alloc: Global, kind: Function, first: Node, numbers: &[i64]) -> Result<Node, Memory> {
    let mut args = Nodes::new(alloc);
    args.add(first)?;
    for &number in numbers {
        args.add(Node::NumberKind(number))?;
    }
    Ok(Node::call(kind, args))
}

fn literal(alloc: Global, rows: &[&[i64]]) -> Result<Node, Memory> {
    let mut literal = Rows::new(alloc);
    for &row in rows {
        let mut elements = Vec::new(alloc);
        for &number in row {
            elements.push(ArrayNode::Number(number))?;
        }
        if literal.push(elements).is_err() {
            return Err(Memory);
        }
    }
    Ok(Node::ArrayKind(literal))
}

fn shape_of(alloc: Global, node: &Node) -> Result<StaticResult, Memory> {
    let mut steps = Steps::new(Plain);
    run_static_analysis_on_node(alloc, node, &CrateKinds, &mut steps)
}

#[test]
fn the_parts_of_a_formula_have_theirs(rt: HostRuntime) -> Result<(), Fail> {
    let alloc = rt.alloc();
    let mut steps = Steps::new(Plain);
    for &(words, wanted) in &PARTS {
        let all = analyse_all(alloc, &formula(alloc, words)?, &CrateKinds, &mut steps)?;
        for (index, shape) in wanted.iter().enumerate() {
            assert_eq!(rt; all.get(index), Some(*shape), "{words}: {index}");
        }
        assert_eq!(rt; all.get(wanted.len()), None, "{words}");
    }
    Ok(())
}

#[test]
fn whole_formulas_have_their_shapes(rt: HostRuntime) -> Result<(), Fail> {
    let alloc = rt.alloc();
    for &(ends, wanted) in &RANGES {
        assert_eq!(rt; shape_of(alloc, &range_between(ends))?, wanted);
    }
    let literal_rows: [&[i64]; 2] = [&[1, 2, 3], &[4, 5, 6]];
    assert_eq!(rt;
        shape_of(alloc, &literal(alloc, &literal_rows)?)?,
        Array(2, 3)
    );
    assert_eq!(rt; shape_of(alloc, &literal(alloc, &[])?)?, Array(1, 1));
    for &(words, wanted) in &WORDS {
        assert_eq!(rt;
            shape_of(alloc, &formula(alloc, words)?)?,
            wanted,
            "{words}"
        );
    }
    Ok(())
}

#[test]
fn calls_ask_what_bare_arguments_show(rt: HostRuntime) -> Result<(), Fail> {
    let alloc = rt.alloc();
    for &(kind, which, numbers, wanted) in &CALLS {
        let call = call(alloc, kind, argument(alloc, which)?, numbers)?;
        assert_eq!(rt;
            shape_of(alloc, &call)?,
            wanted,
            "{kind:?} {which:?} {numbers:?}"
        );
    }
    Ok(())
}
