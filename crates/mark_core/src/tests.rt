use super::*;
use crate::trial::try_drop;
use Form::{Call, Passing, Whole};
use StaticResult::{Array, Range, Scalar};
use import_core::ImportRule;
use kind_table::{CrateKinds, Shown, StaticResult, function_named};
use own_items::Items;
use std::alloc::Global;
use std::test::Fail;
use tree_core::{Function, Plain, Steps};

const IN_COLUMN: Shown = Shown::Range {
    same_row: false,
    same_column: true,
};

/// What is known of a node beside its parts.
#[derive(Clone, Copy)]
struct Given {
    form: Form,
    bare: bool,
    range_like: bool,
    settles: bool,
    alone: Shown,
    shape: StaticResult,
}

/// A node that isn't range-like, and is its own import where one value is wanted.
fn plain(form: Form, shape: StaticResult) -> Given {
    Given {
        form,
        bare: true,
        range_like: false,
        settles: true,
        alone: Shown::Nothing,
        shape,
    }
}

fn marked(alloc: Global, given: Given, parts: Items<Mark>) -> Result<Mark, Fail> {
    let mut shapes = Items::new(alloc);
    let mut shows = Items::new(alloc);
    for part in parts.as_slice() {
        shapes.add(part.known.shape)?;
        shows.add(part.known.shown())?;
    }
    let known = Known {
        form: given.form,
        bare: given.bare,
        range_like: given.range_like,
        settles: given.settles,
        alone: given.alone,
        shape: given.shape,
        shapes,
        shows,
    };
    Ok(Mark { known, parts })
}

/// `A1:A3`, or `@A1:A3`.
fn range(alloc: Global, bare: bool) -> Result<Mark, Fail> {
    let given = Given {
        form: Whole(Range(3, 1)),
        bare,
        range_like: true,
        settles: !bare,
        alone: IN_COLUMN,
        shape: if bare { Range(3, 1) } else { Scalar },
    };
    marked(alloc, given, Items::new(alloc))
}

/// `1`.
fn one(alloc: Global) -> Result<Mark, Fail> {
    let given = Given {
        alone: Shown::One,
        ..plain(Whole(Scalar), Scalar)
    };
    marked(alloc, given, Items::new(alloc))
}

/// `@INDEX(A1:A3,1)`.
fn index(alloc: Global) -> Result<Mark, Fail> {
    let given = Given {
        bare: false,
        range_like: true,
        ..plain(Call(Function::Index), Scalar)
    };
    over_two(alloc, given, range(alloc, true)?, one(alloc)?)
}

fn over_two(alloc: Global, given: Given, left: Mark, right: Mark) -> Result<Mark, Fail> {
    let mut parts = Items::new(alloc);
    parts.add(left)?;
    parts.add(right)?;
    marked(alloc, given, parts)
}

/// A call of a function of this name over one argument.
fn over_one(alloc: Global, name: &str, shape: StaticResult, part: Mark) -> Result<Mark, Fail> {
    let kind = function_named(name).ok_or("no kind")?;
    let mut parts = Items::new(alloc);
    parts.add(part)?;
    marked(alloc, plain(Call(kind), shape), parts)
}

/// Whether the `@` at a place goes, in a formula of which one value is not wanted.
fn goes(mark: &mut Mark, path: &[usize], rule: ImportRule) -> bool {
    let mut steps = Steps::new(Plain);
    try_drop(mark, path, false, rule, &CrateKinds, &mut steps)
}

fn is_bare(mark: &Mark, path: &[usize]) -> Option<bool> {
    let mut at = mark;
    for index in path {
        at = at.parts.get(*index)?;
    }
    Some(at.known.bare)
}

#[test]
fn an_at_goes_that_import_puts_back(rt: HostRuntime) -> Result<(), Fail> {
    let alloc = rt.alloc();
    let mut mark = over_one(alloc, "SIN", Scalar, range(alloc, false)?)?;
    assert!(rt; goes(&mut mark, &[0], ImportRule::AsCrate));
    assert_eq!(rt; is_bare(&mark, &[0]), Some(true));
    assert_eq!(rt; mark.known.shape, Array(3, 1));
    assert!(rt; !goes(&mut mark, &[0], ImportRule::AsCrate));
    Ok(())
}

#[test]
fn an_at_stays_where_one_value_is_not_wanted(rt: HostRuntime) -> Result<(), Fail> {
    let alloc = rt.alloc();
    let mut mark = over_one(alloc, "SUM", Scalar, range(alloc, false)?)?;
    assert!(rt; !goes(&mut mark, &[0], ImportRule::AsCrate));
    assert!(rt; !goes(&mut mark, &[1], ImportRule::AsCrate));
    assert!(rt; !goes(&mut mark, &[], ImportRule::AsCrate));
    assert_eq!(rt; is_bare(&mark, &[0]), Some(false));
    Ok(())
}

/// `SIN(@INDEX(A1:A3,1)+A1:A3)`: without the `@`, import would put one over `A1:A3` too.
#[test]
fn an_at_stays_where_a_context_would_turn(rt: HostRuntime) -> Result<(), Fail> {
    let alloc = rt.alloc();
    let given = Given {
        settles: false,
        ..plain(Passing, Array(3, 1))
    };
    let sum = over_two(alloc, given, index(alloc)?, range(alloc, true)?)?;
    let mut mark = over_one(alloc, "SIN", Array(3, 1), sum)?;
    assert!(rt; !goes(&mut mark, &[0, 0], ImportRule::AsCrate));
    assert_eq!(rt; is_bare(&mark, &[0, 0]), Some(false));
    assert_eq!(rt; mark.known.shape, Array(3, 1));
    Ok(())
}

/// `SIN(@A1:A3+1)`, of which the ported crate's import would leave `SIN(A1:A3+1)` as it is.
#[test]
fn the_rule_tells_what_is_wanted(rt: HostRuntime) -> Result<(), Fail> {
    let alloc = rt.alloc();
    let given = plain(Passing, Scalar);
    let sum = over_two(alloc, given, range(alloc, false)?, one(alloc)?)?;
    let mut mark = over_one(alloc, "SIN", Scalar, sum)?;
    assert!(rt; !goes(&mut mark, &[0, 0], ImportRule::AsCrate));
    assert!(rt; goes(&mut mark, &[0, 0], ImportRule::EveryScalar));
    Ok(())
}

/// `SIN(@A1:A3+@INDEX(A1:A3,1))`: the first `@` can go once the second is gone.
#[test]
fn sweeps_are_repeated(rt: HostRuntime) -> Result<(), Fail> {
    let alloc = rt.alloc();
    let given = plain(Passing, Scalar);
    let sum = over_two(alloc, given, range(alloc, false)?, index(alloc)?)?;
    let mut mark = over_one(alloc, "SIN", Scalar, sum)?;
    let places = two_places(alloc)?;
    let mut steps = Steps::new(Plain);
    let rule = ImportRule::AsCrate;
    drop_what_can(
        &mut mark,
        places.as_slice(),
        false,
        rule,
        &CrateKinds,
        &mut steps,
    );
    assert_eq!(rt; is_bare(&mark, &[0, 0]), Some(true));
    assert_eq!(rt; is_bare(&mark, &[0, 1]), Some(true));
    Ok(())
}

fn two_places(alloc: Global) -> Result<Items<Items<usize>>, Fail> {
    let mut places = Items::new(alloc);
    for number in 0..2_usize {
        let mut place = Items::new(alloc);
        place.add(0)?;
        place.add(number)?;
        places.add(place)?;
    }
    Ok(places)
}
