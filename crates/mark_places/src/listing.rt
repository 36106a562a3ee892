ghost use Rattle.std.specs.Prelude.{◌≡◌, ◌&&◌, ◌++◌, not, IfOk, OnOk, map};
ghost use Rattle.mark_places.specs.Candidates.{candidates, is_candidate, may_want};

use import_core::{ImportRule, wants_one};
use kind_table::{Kinds, StaticResult};
use mark_core::{Form, Known, Mark};
use own_items::Items;
use std::alloc::Global;
use tree_core::Memory;

/// The places of a formula whose `@` may go, by its marks, in the order of the formula from its front: an `@` stands over a
/// range-like node, and one value may come to be wanted there. `add` says whether one is wanted of the whole formula.
///
/// A place is the numbers of the parts on the way to it, each from 0.
pub fn candidates<K: Kinds>(
    alloc: Global,
    mark: &Mark,
    add: bool,
    kinds: &K,
    rule: ImportRule,
) -> Result<Vec<Items<usize>>, Memory>
    ensures { IfOk result (λ places. places.items ≡ candidates rule (K.table kinds.now) mark.now add) }
{
    let mut path = Vec::new(alloc);
    let mut places = Vec::new(alloc);
    list(alloc, mark, add, kinds, rule, &mut path, &mut places)?;
    Ok(places)
}

/// Puts the places of a part, to which a path leads, behind those that were found.
fn list<K: Kinds>(
    alloc: Global,
    mark: &Mark,
    wanted: bool,
    kinds: &K,
    rule: ImportRule,
    path: &mut Vec<usize>,
    places: &mut Vec<Items<usize>>,
) -> Result<(), Memory>
    ensures listed { OnOk result (places.new.items ≡ places.old.items
        ++ map (λ place. path.old.items ++ place) (candidates rule (K.table kinds.now) mark.now wanted)) }
    ensures kept { OnOk result (path.new.items ≡ path.old.items) }
{
    if is_candidate(&mark.known, wanted) {
        let place = copied(alloc, path.as_slice())?;
        places.push(place)?;
    }
    let depth = path.len();
    for (index, part) in mark.parts.as_slice().iter().enumerate() {
        let next = may_want(
            mark.known.form,
            wanted,
            mark.parts.len(),
            index,
            kinds,
            rule,
        );
        path.push(index)?;
        list(alloc, part, next, kinds, rule, path, places)?;
        path.truncate(depth);
    }
    Ok(())
}

fn is_candidate(known: &Known, wanted: bool) -> bool
    ensures { result ≡ is_candidate known.now wanted }
{
    wanted && known.range_like && !known.bare
}

/// Whether one value may come to be wanted of a part, by its number from 0, of so many, from whether it may of the node.
fn may_want<K: Kinds>(
    form: Form,
    wanted: bool,
    count: usize,
    index: usize,
    kinds: &K,
    rule: ImportRule,
) -> bool
    ensures { result ≡ may_want rule (K.table kinds.now) form wanted count index }
{
    match form {
        Form::Whole(_) => false,
        Form::Passing | Form::Spill => wanted,
        Form::Call(kind) => wants_one(kinds, rule, kind, count, index, StaticResult::Unknown),
    }
}

fn copied(alloc: Global, path: &[usize]) -> Result<Items<usize>, Memory>
    ensures { IfOk result (λ place. place ≡ path.now) }
{
    let mut place = Items::new(alloc);
    for index in path {
        place.add(*index)?;
    }
    Ok(place)
}
