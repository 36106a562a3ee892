ghost use Rattle.std.specs.Prelude.{◌≡◌, [], ◌∷◌, ◌++◌, IfOk};
ghost use Rattle.call_core.specs.declared.function.Function.TheVariants.{Row};
ghost use Rattle.tree_core.specs.Count.{size_of};
ghost use Rattle.tree_core.specs.Formula.{tree_of};
ghost use Rattle.tree_core.specs.declared.node.Node.TheVariants.{FunctionKind, ImplicitIntersection};

use super::*;
use every::{Fields, every};
use own_items::{Boxed, Items};
use std::alloc::Global;
use std::test::Fail;

mod every;

static GIVEN: Fields<'static> = Fields {
    text: "é!",
    number: 5,
    flag: true,
    automatic: true,
};

/// The fields that are changed, one each time.
static CHANGED: [Fields<'static>; 4] = [
    Fields {
        text: "e!",
        number: 5,
        flag: true,
        automatic: true,
    },
    Fields {
        text: "é!",
        number: 6,
        flag: true,
        automatic: true,
    },
    Fields {
        text: "é!",
        number: 5,
        flag: false,
        automatic: true,
    },
    Fields {
        text: "é!",
        number: 5,
        flag: true,
        automatic: false,
    },
];

#[test]
fn a_clone_is_equal_and_a_changed_formula_is_not(rt: HostRuntime) -> Result<(), Fail> {
    assert!(rt; equals_its_clone(rt.alloc())?);
    for changed in &CHANGED {
        let equal = equals_formula_of(rt.alloc(), changed)?;
        assert!(rt; !equal);
    }
    Ok(())
}

fn equals_its_clone(alloc: Global) -> Result<bool, Memory> {
    let given = every(alloc, &GIVEN)?;
    let clone = given.try_clone(alloc)?;
    Ok(given == clone)
}

fn equals_formula_of(alloc: Global, fields: &Fields<'static>) -> Result<bool, Memory> {
    let given = every(alloc, &GIVEN)?;
    let other = every(alloc, fields)?;
    Ok(given == other)
}

#[test]
fn flags_alone_may_differ(rt: HostRuntime) -> Result<(), Fail> {
    for changed in &CHANGED {
        let same = equals_but_flags(rt.alloc(), changed)?;
        assert_eq!(rt; same, !changed.automatic);
    }
    assert!(rt; !equals_wrapped_but_flags(rt.alloc())?);
    trees_fix_the_formula();
    runs_fix_the_tree();
    nodes_are_counted();
    places_are_numbered();
    Ok(())
}

fn equals_but_flags(alloc: Global, fields: &Fields<'static>) -> Result<bool, Memory> {
    let given = every(alloc, &GIVEN)?;
    let other = every(alloc, fields)?;
    Ok(given.same_but_flags(&other))
}

/// Whether the formula is but for flags that with one more `@` over it.
fn equals_wrapped_but_flags(alloc: Global) -> Result<bool, Memory> {
    let given = every(alloc, &GIVEN)?;
    let other = wrapped(alloc)?;
    Ok(given.same_but_flags(&other))
}

fn wrapped(alloc: Global) -> Result<Node, Memory> {
    let given = every(alloc, &GIVEN)?;
    at(alloc, true, given)
}

#[test]
fn nodes_calls_and_intersections_are_counted(rt: HostRuntime) -> Result<(), Fail> {
    let given = counted(rt.alloc())?;
    assert_eq!(rt; given.node_count(), 5);
    assert_eq!(rt; given.call_count(), 1);
    assert_eq!(rt; given.at_count(), 3);
    assert!(rt; given.has_at_most(5));
    assert!(rt; !given.has_at_most(4));
    Ok(())
}

/// The formula `@@ROW(@1)`.
fn counted(alloc: Global) -> Result<Node, Memory>
    ensures { IfOk result (λ node. size_of (tree_of node) ≡ 5) }
{
    let argument = at(alloc, true, Node::NumberKind(1_000_000))?;
    let inner = at(alloc, true, row(alloc, argument)?)?;
    let outer = at(alloc, false, inner)?;
    Ok(outer)
}

fn at(alloc: Global, automatic: bool, child: Node) -> Result<Node, Memory>
    ensures { IfOk result (λ node. node ≡ ImplicitIntersection automatic child) }
{
    let child = Boxed::new(alloc, child)?;
    Ok(Node::ImplicitIntersection { automatic, child })
}

fn row(alloc: Global, argument: Node) -> Result<Node, Memory>
    ensures { IfOk result (λ node. node ≡ FunctionKind Row (argument ∷ [])) }
{
    let mut args = Items::new(alloc);
    args.add(argument)?;
    Ok(Node::FunctionKind {
        kind: Function::Row,
        args,
    })
}
