use formula_words::formula;
use intersect::{
    ImportRule, add_implicit_intersection, exports_come_back, import_counted, import_is_a_function,
    import_settles, imported, is_range_reference,
};
use kind_table::CrateKinds;
use std::alloc::Global;
use std::test::Fail;
use tree_core::{Node, Plain, Steps};

mod by_definition;
mod exports;
mod nested;

/// Formulas of which one value is wanted, and what they are imported as by the crate's rule.
static WANTED: [(&str, &str); 25] = [
    ("A1:A5 1 + SIN/1", "A1:A5 1 + SIN/1"),
    ("A1:A3 @ 1 + SIN/1", "A1:A3 @ 1 + SIN/1"),
    ("A1:A5 @ SIN/1 @", "A1:A5 @ SIN/1 @"),
    ("A1:A3 B1:B3 J:J @ SUM/3", "A1:A3 B1:B3 J:J @ SUM/3"),
    ("A1:A5 B1:B3 INDEX/2 @ @ @", "A1:A5 B1:B3 ~ INDEX/2 ~"),
    (
        "A1:A3 B1:B3 1 INDEX/2 + SIN/1",
        "A1:A3 ~ B1:B3 1 INDEX/2 ~ + SIN/1",
    ),
    ("A1:A5 1 2 CHOOSE/3", "A1:A5 ~ 1 2 CHOOSE/3"),
    ("A1:A3 @ @ SIN/1", "A1:A3 @ SIN/1"),
    ("x 1 x LET/3", "x 1 x LET/3"),
    ("x", "x ~"),
    ("Sheet1!A1:B3", "Sheet1!A1:B3 ~"),
    ("Sheet1!$A$1:$A$5", "Sheet1!$A$1:$A$5"),
    ("A1:A3 % #", "A1:A3 ~ % #"),
    ("1 ~ @", "1 ~"),
    ("1 @ ~", "1 @"),
    ("A1:A3 1 @ ~ + @", "A1:A3 1 @ ~ + @"),
    ("A1:A3 x @ ~ :", "A1:A3 x @ ~ : ~"),
    ("A1:A3 @ @ lambda", "A1:A3 @ @ lambda"),
    ("x lambda A1:A3 @ @ apply/1", "x lambda A1:A3 @ @ apply/1"),
    ("A1:A3 @ @ f/1", "A1:A3 @ @ f/1"),
    ("x SIN/1", "x SIN/1"),
    ("A1:A3 5 - ABS/1", "A1:A3 5 - ABS/1"),
    ("A1:A3 @ @ @ SIN/1 @ @ ABS/1", "A1:A3 @ @ @ SIN/1 @ ABS/1"),
    ("A1:A3 f/1 @ @", "A1:A3 f/1 @"),
    ("A1:A3 1 @ ~ + f/1 x +", "A1:A3 1 @ ~ + f/1 x ~ +"),
];

/// Formulas of which no one value is wanted.
static NOT_WANTED: [(&str, &str); 3] = [
    ("A1:A3 @ ~", "A1:A3 @"),
    ("x A1:A3 +", "x A1:A3 +"),
    ("A1:A5 B1:B3 INDEX/2", "A1:A5 B1:B3 ~ INDEX/2"),
];

/// Formulas of which one value is wanted, and what they are imported as where every argument taken as one value wants one.
static EVERY: [(&str, &str); 7] = [
    ("A1:A5 1 + SIN/1", "A1:A5 ~ 1 + SIN/1"),
    ("A1:A3 @ 1 + SIN/1", "A1:A3 ~ 1 + SIN/1"),
    ("A1:A3 5 - ABS/1", "A1:A3 ~ 5 - ABS/1"),
    ("x SIN/1", "x ~ SIN/1"),
    ("x 1 x LET/3", "x 1 x LET/3"),
    ("A1:A5 @ SIN/1 @", "A1:A5 @ SIN/1 @"),
    ("A1:A5 B1:B3 SUM/2", "A1:A5 B1:B3 SUM/2"),
];

static TEXTS: [(&str, bool); 12] = [
    ("Sheet1!A1:B3", true),
    ("Sheet1!$A$1:$A$5", false),
    ("A:B", true),
    ("1:3", true),
    (":", true),
    ("$A$1:B3", true),
    ("A1:B3:C", true),
    ("A1:B3:c1", false),
    ("A1:3B", false),
    ("A1:B3 ", false),
    ("A1", false),
    ("", false),
];

#[test]
fn formulas_are_imported(rt: HostRuntime) -> Result<(), Fail> {
    let alloc = rt.alloc();
    for &(given, wanted) in &WANTED {
        assert!(rt;
            imports(alloc, ImportRule::AsCrate, true, given, wanted)?,
            "{given}"
        );
        assert!(rt;
            imports_in_place(alloc, true, given, wanted)?,
            "{given} in place"
        );
    }
    for &(given, wanted) in &NOT_WANTED {
        assert!(rt;
            imports(alloc, ImportRule::AsCrate, false, given, wanted)?,
            "{given}"
        );
        assert!(rt;
            imports_in_place(alloc, false, given, wanted)?,
            "{given} in place"
        );
    }
    for &(given, wanted) in &EVERY {
        assert!(rt;
            imports(alloc, ImportRule::EveryScalar, true, given, wanted)?,
            "{given}"
        );
    }
    import_is_a_function();
    import_settles();
    exports_come_back();
    Ok(())
}

/// Whether a formula is imported as another one, as a new formula and counted in its place.
fn imports(
    alloc: Global,
    rule: ImportRule,
    add: bool,
    given: &str,
    wanted: &str,
) -> Result<bool, Fail> {
    Ok(
        imports_as_new(alloc, rule, add, given, wanted)?
            && imports_counted(alloc, rule, add, given, wanted)?,
    )
}

fn imports_as_new(
    alloc: Global,
    rule: ImportRule,
    add: bool,
    given: &str,
    wanted: &str,
) -> Result<bool, Fail> {
    let import = imported_as_new(alloc, rule, add, given)?;
    let right = is(alloc, &import, wanted)?;
    drop(import);
    Ok(right)
}

fn imported_as_new(alloc: Global, rule: ImportRule, add: bool, given: &str) -> Result<Node, Fail> {
    let node = formula(alloc, given)?;
    let mut steps = Steps::new(Plain);
    let import = imported(alloc, &node, add, &CrateKinds, rule, &mut steps)?;
    drop(node);
    Ok(import)
}

fn imports_counted(
    alloc: Global,
    rule: ImportRule,
    add: bool,
    given: &str,
    wanted: &str,
) -> Result<bool, Fail> {
    let mut node = formula(alloc, given)?;
    let mut steps = Steps::new(Plain);
    import_counted(alloc, &mut node, add, &CrateKinds, rule, &mut steps)?;
    let right = is(alloc, &node, wanted)?;
    drop(node);
    Ok(right)
}

/// Whether a formula is imported as another one, in its place and by the crate's rule.
fn imports_in_place(alloc: Global, add: bool, given: &str, wanted: &str) -> Result<bool, Fail> {
    let mut node = formula(alloc, given)?;
    add_implicit_intersection(alloc, &mut node, add, &CrateKinds)?;
    let right = is(alloc, &node, wanted)?;
    drop(node);
    Ok(right)
}

/// Whether a formula is that of some words.
fn is(alloc: Global, node: &Node, words: &str) -> Result<bool, Fail> {
    let wanted = formula(alloc, words)?;
    let same = *node == wanted;
    drop(wanted);
    Ok(same)
}

#[test]
fn texts_end_as_a_range_does(rt: HostRuntime) {
    for &(text, wanted) in &TEXTS {
        assert_eq!(rt; is_range_reference(text), wanted, "{text}");
    }
}
