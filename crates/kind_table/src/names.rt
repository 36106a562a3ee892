ghost use Rattle.std.specs.Prelude.{◌≡◌, ◌↔◌, ℕ, is_some, map, option_map, unwrap_or, []};
ghost use Rattle.call_core.specs.declared.function.Function.{Function};
ghost use Rattle.kind_table.specs.CrateTable.{crate_table};
ghost use Rattle.kind_table.specs.Names.{crate_name, function_name, in_order, names, number_in, own_in, own_name, own_names};

use crate::crate_kinds::CrateKinds;
use crate::name_order::IN_ORDER;
use crate::own_table::OWN_NAMES;
use crate::table::NAMES;
use call_core::Function;

impl CrateKinds {
    /// The name of a kind; `None` exactly where the table does not know the number.
    pub fn name_of(id: u16) -> Option<&'static str>
        ensures name { option_map (λ name. name.now) result ≡ crate_name id }
        ensures known { is_some result ≡ crate_table.knows id }
    {
        name_at(id)
    }

    /// The number of the kind of a name; `None` where no kind of the table has it.
    pub fn by_name(name: &str) -> Option<u16>
        ensures { (id : ℕ) → (result ≡ Some id) ↔ (crate_name id ≡ Some name.now) }
    {
        number_in(function_named(name))
    }
}

fn name_at(id: u16) -> Option<&'static str>
    ensures { option_map (λ name. name.now) result ≡ crate_name id }
{
    all_names().get(usize::from(id)).copied()
}

#[tactic(auto, unfolding(crate::specs::Names::names))]
fn all_names() -> &'static [&'static str]
    ensures { map (λ name. name.now) result.now ≡ names }
{
    &NAMES
}

fn number_in(kind: Option<Function>) -> Option<u16>
    ensures { result ≡ number_in kind }
{
    match kind {
        Some(Function::Other(id)) => Some(id),
        _ => None,
    }
}

/// The name of an own kind; `None` for `Other`.
pub fn own_name(kind: Function) -> Option<&'static str>
    ensures { option_map (λ name. name.now) result ≡ own_name kind }
{
    own_names().get(kind.code() as usize).copied()
}

#[tactic(auto, unfolding(crate::specs::Names::own_names))]
fn own_names() -> &'static [&'static str]
    ensures { map (λ name. name.now) result.now ≡ own_names }
{
    &OWN_NAMES
}

/// The own kind of a name; `None` where no own kind has it.
pub fn own_by_name(name: &str) -> Option<Function>
    ensures { (kind : Function) → (result ≡ Some kind) ↔ (own_name kind ≡ Some name.now) }
{
    own_in(function_named(name))
}

fn own_in(kind: Option<Function>) -> Option<Function>
    ensures { result ≡ own_in kind }
{
    match kind {
        None => None,
        Some(Function::Other(_)) => None,
        Some(own) => Some(own),
    }
}

/// The name of a kind, an own one or one of `CrateKinds`; `None` for a number that the table does not know.
pub fn function_name(kind: Function) -> Option<&'static str>
    ensures { option_map (λ name. name.now) result ≡ function_name kind }
{
    match kind {
        Function::Other(id) => CrateKinds::name_of(id),
        _ => own_name(kind),
    }
}

/// The kind of a name, an own one or one of `CrateKinds`; `None` where no kind has the name.
pub fn function_named(name: &str) -> Option<Function>
    ensures { (kind : Function) → (result ≡ Some kind) ↔ (function_name kind ≡ Some name.now) }
{
    let order = all_in_order();
    match order.binary_search_by(|kind| text_of(*kind).cmp(name)) {
        Ok(place) => Some(order[place]),
        Err(_) => None,
    }
}

fn text_of(kind: Function) -> &'static str
    ensures { result.now ≡ unwrap_or (function_name kind) [] }
{
    match function_name(kind) {
        Some(name) => name,
        None => "",
    }
}

#[tactic(auto, unfolding(crate::specs::Names::in_order))]
fn all_in_order() -> &'static [Function]
    ensures { result.now ≡ in_order }
{
    &IN_ORDER
}
