//! A node over formulas that were made anew: what `view` shows, put together.
ghost use Rattle.std.specs.Prelude.{◌≡◌, [], IfOk, map};
ghost use Rattle.tree_core.specs.Formula.{tree_of, one, two, between, bare_leaf};
ghost use Rattle.tree_core.specs.Label.{passing, unary, spill, call, closed, range_operator, named_call, lambda_definition, lambda_call};
ghost use Rattle.tree_core.specs.Tree.{tree, more, forest, under};
ghost use Rattle.tree_core.specs.View.{leaf_in};

use crate::node::{Node, Nodes};
use crate::view::Leaf;
use call_core::Function;
use own_items::Boxed as Box;
use std::alloc::Global;
use value_core::{Memory, OpUnary, Operator, Text, Texts};

impl Node {
    #[tactic(auto, using(crate::proofs::Trees::trees))]
    pub fn unary(alloc: Global, kind: OpUnary, right: Node) -> Result<Node, Memory>
        ensures { IfOk result (λ over. tree_of over ≡ tree [] (passing (unary kind)) (one (tree_of right))) }
    {
        let right = Box::new(alloc, right)?;
        Ok(Node::UnaryKind { kind, right })
    }

    #[tactic(auto, using(crate::proofs::Trees::operators))]
    pub fn binary(
        alloc: Global,
        operator: Operator,
        left: Node,
        right: Node,
    ) -> Result<Node, Memory>
        ensures { IfOk result (λ over. tree_of over ≡ between operator (tree_of left) (tree_of right)) }
    {
        let left = Box::new(alloc, left)?;
        let right = Box::new(alloc, right)?;
        Ok(match operator {
            Operator::Concatenate => Node::OpConcatenateKind { left, right },
            Operator::Power => Node::OpPowerKind { left, right },
            Operator::Sum(kind) => Node::OpSumKind { kind, left, right },
            Operator::Product(kind) => Node::OpProductKind { kind, left, right },
            Operator::Compare(kind) => Node::CompareKind { kind, left, right },
        })
    }

    #[tactic(auto, using(crate::proofs::Trees::trees))]
    pub fn spill(alloc: Global, child: Node) -> Result<Node, Memory>
        ensures { IfOk result (λ over. tree_of over ≡ tree [] spill (one (tree_of child))) }
    {
        let child = Box::new(alloc, child)?;
        Ok(Node::SpillRangeOperator { child })
    }

    #[tactic(auto, using(crate::proofs::Trees::trees))]
    pub fn call(kind: Function, args: Nodes) -> Node
        ensures { tree_of result ≡ tree [] (call kind) (forest (map tree_of args)) }
    {
        Node::FunctionKind { kind, args }
    }

    #[tactic(auto, using(crate::proofs::Trees::trees))]
    pub fn intersection(alloc: Global, automatic: bool, child: Node) -> Result<Node, Memory>
        ensures { IfOk result (λ over. tree_of over ≡ under automatic (tree_of child)) }
    {
        let child = Box::new(alloc, child)?;
        Ok(Node::ImplicitIntersection { automatic, child })
    }

    #[tactic(auto, using(crate::proofs::Trees::trees))]
    pub fn range_operator(alloc: Global, left: Node, right: Node) -> Result<Node, Memory>
        ensures { IfOk result (λ over. tree_of over ≡ tree [] (closed range_operator) (two (tree_of left) (tree_of right))) }
    {
        let left = Box::new(alloc, left)?;
        let right = Box::new(alloc, right)?;
        Ok(Node::OpRangeKind { left, right })
    }

    #[tactic(auto, using(crate::proofs::Trees::trees))]
    pub fn named_call(name: Text, id: Option<u32>, args: Nodes) -> Node
        ensures { tree_of result ≡ tree [] (closed (named_call name id)) (forest (map tree_of args)) }
    {
        Node::NamedFunctionKind { name, id, args }
    }

    #[tactic(auto, using(crate::proofs::Trees::trees))]
    pub fn lambda(alloc: Global, parameters: Texts, body: Node) -> Result<Node, Memory>
        ensures { IfOk result (λ over. tree_of over ≡ tree [] (closed (lambda_definition parameters)) (one (tree_of body))) }
    {
        let body = Box::new(alloc, body)?;
        Ok(Node::LambdaDefKind { parameters, body })
    }

    #[tactic(auto, using(crate::proofs::Trees::trees))]
    pub fn lambda_call(alloc: Global, lambda: Node, args: Nodes) -> Result<Node, Memory>
        ensures { IfOk result (λ over. tree_of over ≡ tree [] (closed lambda_call) (more (tree_of lambda) (forest (map tree_of args)))) }
    {
        let lambda = Box::new(alloc, lambda)?;
        Ok(Node::LambdaCallKind { lambda, args })
    }
}

impl<'a> Leaf<'a> {
    /// The node, with copies of the texts.
    #[tactic(auto, using(crate::proofs::Trees::trees))]
    pub fn to_node(self, alloc: Global) -> Result<Node, Memory>
        ensures { IfOk result (λ node. tree_of node ≡ bare_leaf (leaf_in self.entry)) }
    {
        match self {
            Leaf::Boolean(value) => Ok(Node::BooleanKind(value)),
            Leaf::Number(number) => Ok(Node::NumberKind(number)),
            Leaf::Text(text) => Ok(Node::StringKind(text.try_clone(alloc)?)),
            Leaf::Error(error) => Ok(Node::ErrorKind(error)),
            Leaf::Empty => Ok(Node::EmptyArgKind),
            Leaf::Reference {
                sheet_name,
                sheet_index,
                corner,
            } => Ok(Node::ReferenceKind {
                sheet_name: clone_name(alloc, sheet_name)?,
                sheet_index,
                absolute_row: corner.absolute_row,
                absolute_column: corner.absolute_column,
                row: corner.row,
                column: corner.column,
            }),
            Leaf::Range {
                sheet_name,
                sheet_index,
                left,
                right,
            } => Ok(Node::RangeKind {
                sheet_name: clone_name(alloc, sheet_name)?,
                sheet_index,
                absolute_row1: left.absolute_row,
                absolute_column1: left.absolute_column,
                row1: left.row,
                column1: left.column,
                absolute_row2: right.absolute_row,
                absolute_column2: right.absolute_column,
                row2: right.row,
                column2: right.column,
            }),
            Leaf::WrongReference { sheet_name, corner } => Ok(Node::WrongReferenceKind {
                sheet_name: clone_name(alloc, sheet_name)?,
                absolute_row: corner.absolute_row,
                absolute_column: corner.absolute_column,
                row: corner.row,
                column: corner.column,
            }),
            Leaf::WrongRange {
                sheet_name,
                left,
                right,
            } => Ok(Node::WrongRangeKind {
                sheet_name: clone_name(alloc, sheet_name)?,
                absolute_row1: left.absolute_row,
                absolute_column1: left.absolute_column,
                row1: left.row,
                column1: left.column,
                absolute_row2: right.absolute_row,
                absolute_column2: right.absolute_column,
                row2: right.row,
                column2: right.column,
            }),
            Leaf::Array(rows) => Ok(Node::ArrayKind(rows.try_clone(alloc)?)),
            Leaf::DefinedName(name) => Ok(Node::DefinedNameKind(name.try_clone(alloc)?)),
            Leaf::TableName(name) => Ok(Node::TableNameKind(name.try_clone(alloc)?)),
            Leaf::Variable { name, id } => Ok(Node::NamedVariableKind {
                name: name.try_clone(alloc)?,
                id,
            }),
            Leaf::ParseError {
                formula,
                message,
                position,
            } => Ok(Node::ParseErrorKind {
                formula: formula.try_clone(alloc)?,
                message: message.try_clone(alloc)?,
                position,
            }),
        }
    }
}

fn clone_name(alloc: Global, name: &Option<Text>) -> Result<Option<Text>, Memory>
    ensures { IfOk result (λ copy. copy ≡ name.now) }
{
    match name {
        Some(text) => Ok(Some(text.try_clone(alloc)?)),
        None => Ok(None),
    }
}
