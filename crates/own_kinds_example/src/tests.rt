use super::*;
use formula_words::formula;
use intersect::{ImportRule, imported};
use std::alloc::Global;
use std::test::Fail;
use tree_core::{Plain, Steps};

/// Formulas, whether one value is wanted of each, and what they are imported as: `0` is the kind `PRICES`, `1` one that the
/// table does not know.
static IMPORTS: [(&str, bool, &str); 3] = [
    ("A1:A3 0/1", false, "A1:A3 ~ 0/1"),
    ("A1:A3 0/1", true, "A1:A3 ~ 0/1 ~"),
    ("A1:A3 1/1", true, "A1:A3 ~ 1/1"),
];

#[test]
fn import_goes_by_the_table(rt: HostRuntime) -> Result<(), Fail> {
    for &(given, add, wanted) in &IMPORTS {
        assert!(rt; imports(rt.alloc(), add, given, wanted)?, "{given}");
    }
    Ok(())
}

fn imports(alloc: Global, add: bool, given: &str, wanted: &str) -> Result<bool, Fail> {
    let node = formula(alloc, given)?;
    let mut steps = Steps::new(Plain);
    let rule = ImportRule::AsCrate;
    let import = imported(alloc, &node, add, &PriceKinds, rule, &mut steps)?;
    drop(node);
    let wanted = formula(alloc, wanted)?;
    let same = import == wanted;
    drop(import);
    Ok(same)
}
