use super::exports::{EVERY, NOT_WANTED, WANTED, own_import};
use formula_words::formula;
use intersect::{ImportRule, exported, imported};
use kind_table::{Asks, CrateKinds};
use pair_kinds::PairKinds;
use std::alloc::Global;
use std::test::Fail;
use tree_core::{Node, Plain, Steps};

/// How many choices there are of so many `@`s, and one `@` each: a choice is a sum of these.
static POWERS: [usize; 7] = [1, 2, 4, 8, 16, 32, 64];

/// Imported formulas of which one value is wanted, by a table of pairs: each has more than one export.
static PAIRS: [&str; 3] = [
    "A1:A3 @ B1:B3 @ 0/2 C1:C3 + FORMULATEXT/1",
    "A1:A3 @ B1:B3 @ 0/2 C1:C3 + FORMULATEXT/1 A1:A3 @ B1:B3 @ 0/2 C1:C3 + FORMULATEXT/1 +",
    "A1:A3 @ B1:B3 @ 0/2 C1:C3 + FORMULATEXT/1 x ~ +",
];

/// What `exported` gives, and what trying one `@` after the other by import gives, are exports by the definition: the import of each
/// is the formula again, and after any single further drop it is not.
#[test]
fn both_ways_give_exports(rt: HostRuntime) -> Result<(), Fail> {
    let alloc = rt.alloc();
    for &(given, _) in &WANTED {
        let right = are_exports(alloc, &CrateKinds, ImportRule::AsCrate, true, given)?;
        assert!(rt; right, "{given}");
    }
    for &(given, _) in &NOT_WANTED {
        let right = are_exports(alloc, &CrateKinds, ImportRule::AsCrate, false, given)?;
        assert!(rt; right, "{given}");
    }
    Ok(())
}

#[test]
fn so_where_every_argument_wants_one(rt: HostRuntime) -> Result<(), Fail> {
    let alloc = rt.alloc();
    for &(given, _) in &EVERY {
        let right = are_exports(alloc, &CrateKinds, ImportRule::EveryScalar, true, given)?;
        assert!(rt; right, "{given}");
    }
    Ok(())
}

#[test]
fn so_where_there_are_several(rt: HostRuntime) -> Result<(), Fail> {
    let alloc = rt.alloc();
    for &given in &PAIRS {
        let right = are_exports(alloc, &PairKinds, ImportRule::AsCrate, true, given)?;
        assert!(rt; right, "{given}");
        let some = has_several(alloc, &PairKinds, ImportRule::AsCrate, true, given)?;
        assert!(rt; some, "{given}");
    }
    Ok(())
}

/// Whether both ways give exports of a formula of these words.
fn are_exports<K: Asks<Plain>>(
    alloc: Global,
    kinds: &K,
    rule: ImportRule,
    add: bool,
    words: &str,
) -> Result<bool, Fail> {
    let back = all_back(alloc, kinds, rule, add, words)?;
    let plain = plain_way(&back, put_in(words), ats_in(words));
    let found = chosen(alloc, kinds, rule, add, words)?;
    Ok(is_export(&back, plain, ats_in(words)) && is_export(&back, found, ats_in(words)))
}

/// Whether the formula of these words has more than one export.
fn has_several<K: Asks<Plain>>(
    alloc: Global,
    kinds: &K,
    rule: ImportRule,
    add: bool,
    words: &str,
) -> Result<bool, Fail> {
    let back = all_back(alloc, kinds, rule, add, words)?;
    let mut one = false;
    let mut several = false;
    for choice in 0..back.len() {
        if is_export(&back, choice, ats_in(words)) {
            several = one;
            one = true;
        }
    }
    Ok(several)
}

/// For each choice of `@`s, whether the formula without them comes back.
fn all_back<K: Asks<Plain>>(
    alloc: Global,
    kinds: &K,
    rule: ImportRule,
    add: bool,
    words: &str,
) -> Result<Vec<bool>, Fail> {
    let import = own_import(alloc, kinds, rule, add, words)?;
    let mut back = Vec::new(alloc);
    for choice in 0..choices(words) {
        let same = comes_back(alloc, kinds, rule, add, &import, words, choice)?;
        back.push(same)?;
    }
    drop(import);
    Ok(back)
}

fn comes_back<K: Asks<Plain>>(
    alloc: Global,
    kinds: &K,
    rule: ImportRule,
    add: bool,
    import: &Node,
    words: &str,
    choice: usize,
) -> Result<bool, Fail> {
    let node = without(alloc, words, choice)?;
    let mut steps = Steps::new(Plain);
    let again = imported(alloc, &node, add, kinds, rule, &mut steps)?;
    drop(node);
    let same = again.same_but_flags(import);
    drop(again);
    Ok(same)
}

/// The choice of `@`s that `exported` leaves out; none there is, if its formula is none of these.
fn chosen<K: Asks<Plain>>(
    alloc: Global,
    kinds: &K,
    rule: ImportRule,
    add: bool,
    words: &str,
) -> Result<usize, Fail> {
    let import = own_import(alloc, kinds, rule, add, words)?;
    let mut steps = Steps::new(Plain);
    let export = exported(alloc, &import, add, kinds, rule, &mut steps)?;
    drop(import);
    let choice = choice_of(alloc, words, &export)?;
    drop(export);
    Ok(choice)
}

fn choice_of(alloc: Global, words: &str, export: &Node) -> Result<usize, Fail> {
    let mut found = choices(words);
    for choice in 0..choices(words) {
        let node = without(alloc, words, choice)?;
        if node == *export {
            found = choice;
        }
        drop(node);
    }
    Ok(found)
}

/// The formula of some words without a choice of its `@`s.
fn without(alloc: Global, words: &str, choice: usize) -> Result<Node, Fail> {
    let mut text = String::new(alloc);
    let mut number = 0;
    for word in words.split_whitespace() {
        let stays = !is_at(word) || !has(choice, number);
        if is_at(word) {
            number = next(number);
        }
        if stays {
            text.push_str(word)?;
            text.push(' ')?;
        }
    }
    let node = formula(alloc, text.as_str())?;
    Ok(node)
}

/// One `@` after the other is tried, from the front on, until none can go: at first of the formula without all that import put, if
/// that comes back.
fn plain_way(back: &[bool], put: usize, ats: usize) -> usize {
    let mut choice = if is_back(back, put) { put } else { 0 };
    for _ in 0..ats {
        choice = swept(back, choice, ats);
    }
    choice
}

fn swept(back: &[bool], choice: usize, ats: usize) -> usize {
    let mut choice = choice;
    for &one in POWERS.iter().take(ats) {
        if is_back(back, choice | one) {
            choice |= one;
        }
    }
    choice
}

/// Whether a formula comes back, and with any single one of its other `@`s less does not.
fn is_export(back: &[bool], choice: usize, ats: usize) -> bool {
    let mut least = true;
    for &one in POWERS.iter().take(ats) {
        if choice & one == 0 && is_back(back, choice | one) {
            least = false;
        }
    }
    least && is_back(back, choice)
}

fn is_back(back: &[bool], choice: usize) -> bool {
    match back.get(choice) {
        Some(back) => *back,
        None => false,
    }
}

/// The choice of all `@`s that import put.
fn put_in(words: &str) -> usize {
    let mut put = 0;
    let mut number = 0;
    for word in words.split_whitespace() {
        if word == "~" {
            put |= power(number);
        }
        if is_at(word) {
            number = next(number);
        }
    }
    put
}

fn ats_in(words: &str) -> usize {
    let mut number = 0;
    for word in words.split_whitespace() {
        if is_at(word) {
            number = next(number);
        }
    }
    number
}

fn choices(words: &str) -> usize {
    power(ats_in(words))
}

fn has(choice: usize, number: usize) -> bool {
    choice & power(number) != 0
}

fn power(number: usize) -> usize {
    match POWERS.get(number) {
        Some(power) => *power,
        None => 0,
    }
}

fn next(number: usize) -> usize {
    number.saturating_add(1)
}

fn is_at(word: &str) -> bool {
    word == "@" || word == "~"
}
