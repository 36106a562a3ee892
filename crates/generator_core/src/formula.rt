ghost use Rattle.std.specs.Prelude.{◌≡◌, ◌+◌, ◌*◌, ◌≤◌, [], ◌∷◌, IfOk, map, pos};
ghost use Rattle.tree_core.specs.Formula.{bare_leaf, tree_of};
ghost use Rattle.tree_core.specs.Label.{number};
ghost use Rattle.generator_core.specs.Formula.{applied, column, term, total, total_kept};

use call_core::Function;
use std::alloc::Global;
use tree_core::{Memory, Node, Nodes};
use value_core::{OpSum, Operator};

/// SUM in the table of the crate.
const SUM: u16 = 13;

/// A sum of 41 terms, nested to the left: 138 nodes.
pub(crate) fn generated_formula(alloc: Global) -> Result<Node, Memory>
    ensures { IfOk result (λ node. tree_of node ≡ total 40) }
{
    let mut sum = total_kept(alloc)?;
    for k in 0..40 {
        let term = term(alloc, k)?;
        sum = Node::binary(alloc, Operator::Sum(OpSum::Add), sum, term)?;
    }
    Ok(sum)
}

fn total_kept(alloc: Global) -> Result<Node, Memory>
    ensures { IfOk result (λ node. tree_of node ≡ total_kept) }
{
    let kept = of_two(alloc, Function::Filter, column(3), column(2))?;
    of_one(alloc, Function::Other(SUM), kept)
}

fn term(alloc: Global, k: usize) -> Result<Node, Memory>
    requires { k ≤ 40 }
    ensures { IfOk result (λ node. tree_of node ≡ term k) }
{
    match k % 3 {
        0 => of_two(alloc, Function::Index, column(3), whole_number(k + 1)),
        1 => Ok(column(3)),
        _ => {
            let items = of_one(alloc, Function::Unique, column(1))?;
            of_one(alloc, Function::Rows, items)
        }
    }
}

fn whole_number(whole: usize) -> Node
    requires { whole ≤ 41 }
    ensures { tree_of result ≡ bare_leaf (number (pos (whole * 1000000))) }
{
    Node::NumberKind((whole * 1000000) as i64)
}

/// The first 1000 rows of a column.
fn column(at: i32) -> Node
    ensures { tree_of result ≡ column at }
{
    Node::RangeKind {
        sheet_name: None,
        sheet_index: 0,
        absolute_row1: true,
        absolute_column1: true,
        row1: 1,
        column1: at,
        absolute_row2: true,
        absolute_column2: true,
        row2: 1000,
        column2: at,
    }
}

fn of_one(alloc: Global, kind: Function, argument: Node) -> Result<Node, Memory>
    ensures { IfOk result (λ node. tree_of node ≡ applied kind (tree_of argument ∷ [])) }
{
    let mut args = Nodes::new(alloc);
    args.add(argument)?;
    Ok(Node::call(kind, args))
}

fn of_two(alloc: Global, kind: Function, first: Node, second: Node) -> Result<Node, Memory>
    ensures { IfOk result (λ node. tree_of node ≡ applied kind (tree_of first ∷ tree_of second ∷ [])) }
{
    let mut args = Nodes::new(alloc);
    args.add(first)?;
    args.add(second)?;
    Ok(Node::call(kind, args))
}
