use crate::returns::returns;
use formula_words::formula;
use import_core::ImportRule;
use import_marks::marks_of;
use kind_table::CrateKinds;
use std::alloc::Global;
use std::test::Fail;
use tree_core::{Plain, Steps};

/// An imported formula, the same without the `@`s that import puts, whether one value is wanted of it, and whether it comes back by
/// the crate's rule.
static AS_CRATE: [(&str, &str, bool, bool); 10] = [
    (
        "A1:A3 ~ B1:B3 1 INDEX/2 ~ + SIN/1",
        "A1:A3 B1:B3 1 INDEX/2 + SIN/1",
        true,
        true,
    ),
    // without the `@` over INDEX one value is wanted of its sum, and import puts one over A1:A3 too
    (
        "A1:A3 B1:B3 1 INDEX/2 ~ + SIN/1",
        "A1:A3 B1:B3 1 INDEX/2 + SIN/1",
        true,
        false,
    ),
    (
        "A1:A3 @ B1:B3 1 INDEX/2 ~ + SIN/1",
        "A1:A3 @ B1:B3 1 INDEX/2 + SIN/1",
        true,
        true,
    ),
    ("A1:A5 ~ 1 + SIN/1", "A1:A5 1 + SIN/1", true, false),
    // where one value is wanted import goes in below the `@`, and puts one over B1:B3
    (
        "A1:A5 B1:B3 INDEX/2 @",
        "A1:A5 B1:B3 INDEX/2 @",
        true,
        false,
    ),
    (
        "A1:A5 B1:B3 INDEX/2 @",
        "A1:A5 B1:B3 INDEX/2 @",
        false,
        true,
    ),
    ("A1:A3 @ @ SIN/1", "A1:A3 @ @ SIN/1", true, false),
    ("x ~", "x", true, true),
    ("x ~", "x", false, false),
    ("x ~ lambda", "x ~ lambda", true, true),
];

/// So where every argument taken as one value wants one.
static EVERY: [(&str, &str, bool, bool); 3] = [
    ("A1:A5 ~ 1 + SIN/1", "A1:A5 1 + SIN/1", true, true),
    ("A1:A5 1 + SIN/1", "A1:A5 1 + SIN/1", true, false),
    ("x 1 x LET/3", "x 1 x LET/3", true, true),
];

#[test]
fn what_import_puts_comes_back(rt: HostRuntime) -> Result<(), Fail> {
    let alloc = rt.alloc();
    for &(import, left, wanted, expected) in &AS_CRATE {
        let found = comes(alloc, ImportRule::AsCrate, import, left, wanted)?;
        assert_eq!(rt; found, expected, "{import}");
    }
    for &(import, left, wanted, expected) in &EVERY {
        let found = comes(alloc, ImportRule::EveryScalar, import, left, wanted)?;
        assert_eq!(rt; found, expected, "{import}");
    }
    Ok(())
}

fn comes(
    alloc: Global,
    rule: ImportRule,
    import: &str,
    left: &str,
    wanted: bool,
) -> Result<bool, Fail> {
    let mut steps = Steps::new(Plain);
    let left = formula(alloc, left)?;
    let mark = marks_of(alloc, &left, &CrateKinds, rule, &mut steps)?;
    drop(left);
    let import = formula(alloc, import)?;
    let found = returns(&mark, &import, wanted, rule, &CrateKinds);
    drop(import);
    drop(mark);
    Ok(found)
}
