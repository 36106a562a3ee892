use super::*;
use formula_words::formula;
use import_core::ImportRule;
use import_marks::marks_of;
use kind_table::{CrateKinds, StaticResult};
use mark_core::Mark;
use std::alloc::Global;
use std::test::Fail;
use tree_core::{Plain, Steps};

/// Imported formulas, and whether no `@` stands over their roots: at first, without what import put, and again.
static ROOTS: [(&str, [bool; 3]); 5] = [
    ("A1:A5 B1:B3 ~ INDEX/2 ~", [false, true, false]),
    ("A1:A5 @", [false, false, false]),
    ("A1:A5 SUM/1 ~", [false, true, false]),
    ("A1:A5 1 + @", [false, false, false]),
    ("A1:A5 ~ x ~ +", [true, true, true]),
];

#[test]
fn what_import_put_goes_and_stands_again(rt: HostRuntime) -> Result<(), Fail> {
    for &(words, wanted) in &ROOTS {
        let found = roots(rt.alloc(), words)?;
        assert!(rt; found == wanted, "{words}");
    }
    Ok(())
}

fn roots(alloc: Global, words: &str) -> Result<[bool; 3], Fail> {
    let mut steps = Steps::new(Plain);
    let import = formula(alloc, words)?;
    let mut mark = marks_of(alloc, &import, &CrateKinds, ImportRule::AsCrate, &mut steps)?;
    let first = mark.known.bare;
    leave_out_put(&mut mark, &import, &CrateKinds, &mut steps);
    let without = mark.known.bare;
    put_again(&mut mark, &import, &CrateKinds, &mut steps);
    let again = mark.known.bare;
    drop(mark);
    drop(import);
    Ok([first, without, again])
}

/// `@A1:A5+1` has one value, and `A1:A5+1` has five.
#[test]
fn shapes_above_follow(rt: HostRuntime) -> Result<(), Fail> {
    let mut steps = Steps::new(Plain);
    let import = formula(rt.alloc(), "A1:A5 ~ 1 +")?;
    let mut mark = marks_of(
        rt.alloc(),
        &import,
        &CrateKinds,
        ImportRule::AsCrate,
        &mut steps,
    )?;
    let first = is_one(&mark);
    leave_out_put(&mut mark, &import, &CrateKinds, &mut steps);
    let without = is_one(&mark);
    put_again(&mut mark, &import, &CrateKinds, &mut steps);
    let again = is_one(&mark);
    drop(mark);
    drop(import);
    assert!(rt; first && !without && again);
    Ok(())
}

fn is_one(mark: &Mark) -> bool {
    matches!(mark.known.shape, StaticResult::Scalar)
}
