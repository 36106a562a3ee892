ghost use Rattle.std.specs.Prelude.{◌≤◌, IfOk};
ghost use Rattle.tree_core.specs.Count.{size_of};
ghost use Rattle.tree_core.specs.Formula.{tree_of};
ghost use Rattle.import_core.specs.ComesBack.{ComesBack};

use super::is;
use formula_words::formula;
use intersect::{
    ImportRule, export_counted, exported, imported, remove_redundant_implicit_intersection,
};
use kind_table::{Asks, CrateKinds};
use pair_kinds::PairKinds;
use std::alloc::Global;
use std::test::Fail;
use tree_core::{Node, Plain, Steps};

/// Formulas that are imported by the crate's rule, of which one value is wanted, and the only formula that each is exported as.
pub(super) static WANTED: [(&str, &str); 12] = [
    ("A1:A3 @ 1 + SIN/1", "A1:A3 @ 1 + SIN/1"),
    ("A1:A5 @ SIN/1 @", "A1:A5 @ SIN/1 @"),
    ("A1:A5 B1:B3 ~ INDEX/2 ~", "A1:A5 B1:B3 INDEX/2"),
    (
        "A1:A3 ~ B1:B3 1 INDEX/2 ~ + SIN/1",
        "A1:A3 B1:B3 1 INDEX/2 + SIN/1",
    ),
    ("A1:A5 ~ 1 2 CHOOSE/3", "A1:A5 1 2 CHOOSE/3"),
    ("x ~", "x"),
    ("Sheet1!A1:B3 ~", "Sheet1!A1:B3"),
    ("A1:A5 B1:B3 SUM/2", "A1:A5 B1:B3 SUM/2"),
    ("A1:A3 ~ % #", "A1:A3 % #"),
    ("x ~ lambda", "x ~ lambda"),
    ("A1:A3 @ @ f/1 x ~ +", "A1:A3 @ @ f/1 x +"),
    ("A1:A3 x @ ~ : ~", "A1:A3 x @ ~ :"),
];

/// Imported formulas of which no one value is wanted.
pub(super) static NOT_WANTED: [(&str, &str); 2] = [
    ("x ~", "x ~"),
    ("A1:A5 B1:B3 ~ INDEX/2", "A1:A5 B1:B3 INDEX/2"),
];

/// So where every argument taken as one value wants one.
pub(super) static EVERY: [(&str, &str); 5] = [
    ("A1:A5 ~ 1 + SIN/1", "A1:A5 1 + SIN/1"),
    ("A1:A3 ~ 5 - ABS/1", "A1:A3 5 - ABS/1"),
    ("x ~ SIN/1", "x SIN/1"),
    ("x 1 x LET/3", "x 1 x LET/3"),
    ("A1:A5 @ SIN/1 @", "A1:A5 @ SIN/1 @"),
];

#[test]
fn formulas_are_exported(rt: HostRuntime) -> Result<(), Fail> {
    let alloc = rt.alloc();
    for &(given, wanted) in &WANTED {
        let right = exports(
            alloc,
            &CrateKinds,
            ImportRule::AsCrate,
            true,
            given,
            [wanted, wanted],
        )?;
        assert!(rt; right, "{given}");
        assert!(rt;
            exports_in_place(alloc, true, given, wanted)?,
            "{given} in place"
        );
    }
    for &(given, wanted) in &NOT_WANTED {
        let right = exports(
            alloc,
            &CrateKinds,
            ImportRule::AsCrate,
            false,
            given,
            [wanted, wanted],
        )?;
        assert!(rt; right, "{given}");
        assert!(rt;
            exports_in_place(alloc, false, given, wanted)?,
            "{given} in place"
        );
    }
    for &(given, wanted) in &EVERY {
        let right = exports(
            alloc,
            &CrateKinds,
            ImportRule::EveryScalar,
            true,
            given,
            [wanted, wanted],
        )?;
        assert!(rt; right, "{given}");
    }
    Ok(())
}

/// Either `@` can go, but not both, since one value would then be wanted of the whole argument.
#[test]
fn one_of_two_exports_is_given(rt: HostRuntime) -> Result<(), Fail> {
    let right = exports(
        rt.alloc(),
        &PairKinds,
        ImportRule::AsCrate,
        true,
        "A1:A3 @ B1:B3 @ 0/2 C1:C3 + FORMULATEXT/1",
        [
            "A1:A3 B1:B3 @ 0/2 C1:C3 + FORMULATEXT/1",
            "A1:A3 @ B1:B3 0/2 C1:C3 + FORMULATEXT/1",
        ],
    )?;
    assert!(rt; right);
    Ok(())
}

/// Whether a formula is exported as one of two, as a new formula and counted in its place.
pub(super) fn exports<K: Asks<Plain>>(
    alloc: Global,
    kinds: &K,
    rule: ImportRule,
    add: bool,
    given: &str,
    wanted: [&str; 2],
) -> Result<bool, Fail> {
    Ok(
        exports_as_new(alloc, kinds, rule, add, given, wanted)?
            && exports_counted(alloc, kinds, rule, add, given, wanted)?,
    )
}

fn exports_as_new<K: Asks<Plain>>(
    alloc: Global,
    kinds: &K,
    rule: ImportRule,
    add: bool,
    given: &str,
    wanted: [&str; 2],
) -> Result<bool, Fail> {
    let node = own_import(alloc, kinds, rule, add, given)?;
    let mut steps = Steps::new(Plain);
    let export = exported(alloc, &node, add, kinds, rule, &mut steps)?;
    drop(node);
    let right = is_one_of(alloc, &export, wanted)?;
    drop(export);
    Ok(right)
}

fn exports_counted<K: Asks<Plain>>(
    alloc: Global,
    kinds: &K,
    rule: ImportRule,
    add: bool,
    given: &str,
    wanted: [&str; 2],
) -> Result<bool, Fail> {
    let mut node = own_import(alloc, kinds, rule, add, given)?;
    let mut steps = Steps::new(Plain);
    export_counted(alloc, &mut node, add, kinds, rule, &mut steps)?;
    let right = is_one_of(alloc, &node, wanted)?;
    drop(node);
    Ok(right)
}

fn exports_in_place(alloc: Global, add: bool, given: &str, wanted: &str) -> Result<bool, Fail> {
    let mut node = own_import(alloc, &CrateKinds, ImportRule::AsCrate, add, given)?;
    remove_redundant_implicit_intersection(alloc, &mut node, add, &CrateKinds)?;
    let right = is(alloc, &node, wanted)?;
    drop(node);
    Ok(right)
}

/// The formula of some words, which has to be its own import.
pub(super) fn own_import<K: Asks<Plain>>(
    alloc: Global,
    kinds: &K,
    rule: ImportRule,
    add: bool,
    words: &str,
) -> Result<Node, Fail>
    ensures own_import { IfOk result (λ node. ComesBack rule (K.table kinds.now) add (tree_of node) (tree_of node)) }
    ensures size { IfOk result (λ node. size_of (tree_of node) ≤ 200) }
{
    let node = formula(alloc, words)?;
    let mut steps = Steps::new(Plain);
    let import = imported(alloc, &node, add, kinds, rule, &mut steps)?;
    let own = import == node && import.has_at_most(200);
    drop(node);
    if own {
        Ok(import)
    } else {
        drop(import);
        Err("no import of its own".into())
    }
}

fn is_one_of(alloc: Global, node: &Node, wanted: [&str; 2]) -> Result<bool, Fail> {
    Ok(is(alloc, node, wanted[0])? || is(alloc, node, wanted[1])?)
}
