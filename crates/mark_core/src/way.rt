ghost use Rattle.std.specs.Prelude.{◌≡◌, ◌≤◌, ◌&&◌, ◌||◌, drop, length};
ghost use Rattle.mark_core.specs.Drop.{wants_part, way_of};

use crate::mark::{Form, Mark};
use import_core::{ImportRule, wants_one};
use kind_table::{Kinds, StaticResult};

/// Whether one value is wanted of a part, by its number from 0, of so many, and by its shape, from whether one is wanted of the node.
pub fn wants_part<K: Kinds>(
    form: Form,
    wanted: bool,
    count: usize,
    index: usize,
    shape: StaticResult,
    rule: ImportRule,
    kinds: &K,
) -> bool
    ensures { result ≡ wants_part rule (K.table kinds.now) form wanted count index shape }
{
    match form {
        Form::Whole(_) => false,
        Form::Passing | Form::Spill => wanted,
        Form::Call(kind) => wants_one(kinds, rule, kind, count, index, shape),
    }
}

/// Whether import reaches the place at the end of a path, whose first parts lead to this mark, and an `@` stands over it.
pub(crate) fn is_way<K: Kinds>(
    mark: &Mark,
    path: &[usize],
    at: usize,
    wanted: bool,
    rule: ImportRule,
    kinds: &K,
) -> bool
    requires { at ≤ length path.now }
    ensures { result ≡ way_of rule (K.table kinds.now) wanted mark.now (drop at path.now) }
{
    if at == path.len() {
        return !mark.known.bare;
    }
    if !is_entered(mark.known.bare, wanted, mark.known.range_like) {
        return false;
    }
    let index = path[at];
    match mark.parts.get(index) {
        None => false,
        Some(part) => {
            let form = mark.known.form;
            let count = mark.parts.len();
            let next = wants_part(form, wanted, count, index, part.known.shape, rule, kinds);
            is_way(part, path, at + 1, next, rule, kinds)
        }
    }
}

fn is_entered(bare: bool, wanted: bool, range_like: bool) -> bool
    ensures { result ≡ (bare || (wanted && range_like)) }
{
    bare || (wanted && range_like)
}
