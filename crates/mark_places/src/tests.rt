use super::*;
use formula_words::formula;
use import_core::ImportRule;
use kind_table::{CrateKinds, Shown, StaticResult, function_named};
use mark_core::{Form, Known, Mark};
use own_items::Items;
use std::alloc::Global;
use std::test::Fail;
use tree_core::Function;

/// A node with these parts, with an `@` over it or bare; a range-like one is a leaf.
fn node(alloc: Global, form: Form, bare: bool, parts: Items<Mark>) -> Mark {
    let known = Known {
        form,
        bare,
        range_like: matches!(form, Form::Whole(StaticResult::Range(..))),
        settles: false,
        alone: Shown::Nothing,
        shape: StaticResult::Scalar,
        shapes: Items::new(alloc),
        shows: Items::new(alloc),
    };
    Mark { known, parts }
}

fn range(alloc: Global, bare: bool) -> Mark {
    let form = Form::Whole(StaticResult::Range(3, 1));
    node(alloc, form, bare, Items::new(alloc))
}

fn over(alloc: Global, form: Form, part: Mark) -> Result<Mark, Fail> {
    let mut parts = Items::new(alloc);
    parts.add(part)?;
    Ok(node(alloc, form, true, parts))
}

fn between(alloc: Global, left: Mark, right: Mark) -> Result<Mark, Fail> {
    let mut parts = Items::new(alloc);
    parts.add(left)?;
    parts.add(right)?;
    Ok(node(alloc, Form::Passing, true, parts))
}

/// A call of a function over a range with an `@`, or a bare one.
fn call(alloc: Global, kind: Function, bare: bool) -> Result<Mark, Fail> {
    over(alloc, Form::Call(kind), range(alloc, bare))
}

/// `@A1:A3+ABS(..)+SUM(@A1:A3)`, with a range in the call of ABS.
fn sums(alloc: Global, bare: bool) -> Result<Mark, Fail> {
    let (Some(abs), Some(sum)) = (function_named("ABS"), function_named("SUM")) else {
        return Err("no such function".into());
    };
    let first = between(alloc, range(alloc, false), call(alloc, abs, bare)?)?;
    between(alloc, first, call(alloc, sum, false)?)
}

/// Each place as its numbers, and a `;` behind it.
fn shown(alloc: Global, mark: &Mark, add: bool) -> Result<String, Fail> {
    let places = candidates(alloc, mark, add, &CrateKinds, ImportRule::AsCrate)?;
    let mut text = String::new(alloc);
    for place in &places {
        for index in place.as_slice() {
            text.push(if *index == 0 { '0' } else { '1' })?;
        }
        text.push(';')?;
    }
    Ok(text)
}

#[test]
fn an_at_may_go_where_one_value_may_be_wanted(rt: HostRuntime) -> Result<(), Fail> {
    let alloc = rt.alloc();
    let text = shown(alloc, &sums(alloc, false)?, true)?;
    assert_eq!(rt; text.as_str(), "00;010;");
    let text = shown(alloc, &sums(alloc, false)?, false)?;
    assert_eq!(rt; text.as_str(), "010;");
    let text = shown(alloc, &sums(alloc, true)?, true)?;
    assert_eq!(rt; text.as_str(), "00;");
    Ok(())
}

#[test]
fn bare_nodes_lose_their_ats(rt: HostRuntime) -> Result<(), Fail> {
    let given = "A1:A3 ~ A1:A3 @ @ ABS/1 + A1:A3 @ SUM/1 +";
    let wanted = "A1:A3 ~ A1:A3 ABS/1 + A1:A3 @ SUM/1 +";
    assert!(rt; leaves(rt.alloc(), given, wanted)?);
    Ok(())
}

fn leaves(alloc: Global, given: &str, wanted: &str) -> Result<bool, Fail> {
    let given = formula(alloc, given)?;
    let mark = sums(alloc, true)?;
    let left = left_of(alloc, &given, &mark)?;
    drop(given);
    drop(mark);
    let wanted = formula(alloc, wanted)?;
    let same = left == wanted;
    drop(left);
    drop(wanted);
    Ok(same)
}
