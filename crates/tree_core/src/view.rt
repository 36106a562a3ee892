//! A node by what stands at it: a label and parts, borrowed. All that goes by cases over a formula goes by these.
ghost use Rattle.std.specs.Prelude.{◌≡◌, ◌<◌, length, slice_get, Some};
ghost use Rattle.tree_core.specs.Formula.{tree_of};
ghost use Rattle.tree_core.specs.View.{IsBinary, IsLeaf, Falls, closed_parts, leaf_in, parts_in, tree_in};
ghost use Rattle.tree_core.specs.Formula.{bare_leaf};

use crate::corner::Corner;
use crate::defined_name::DefinedNameS;
use crate::node::{Node, Nodes};
use call_core::Function;
use value_core::{Error, OpUnary, Operator, Rows, Text, Texts};

/// A node, and its parts, borrowed.
#[derive(Clone, Copy)]
pub enum View<'a> {
    /// A node without children.
    Leaf(Leaf<'a>),
    /// A node whose children import doesn't enter.
    Closed(Closed<'a>),
    /// An operator before or behind one operand.
    Unary {
        kind: OpUnary,
        right: &'a Node,
    },
    /// An operator between two sides, the range operator aside.
    Binary {
        operator: Operator,
        left: &'a Node,
        right: &'a Node,
    },
    /// The operator `#`.
    Spill {
        child: &'a Node,
    },
    /// A call of a kind of functions.
    Call {
        kind: Function,
        args: &'a Nodes,
    },
    /// The operator `@`, automatic where import put it.
    Intersection {
        automatic: bool,
        child: &'a Node,
    },
}

/// A node without children.
#[derive(Clone, Copy)]
pub enum Leaf<'a> {
    /// A truth value.
    Boolean(bool),
    /// A number, in millionths.
    Number(i64),
    /// A text.
    Text(&'a Text),
    /// An error value.
    Error(Error),
    /// An argument that was left out.
    Empty,
    /// A reference to one cell.
    Reference {
        sheet_name: &'a Option<Text>,
        sheet_index: u32,
        corner: Corner,
    },
    /// A reference to all cells between two ends.
    Range {
        sheet_name: &'a Option<Text>,
        sheet_index: u32,
        left: Corner,
        right: Corner,
    },
    /// A reference to a sheet that isn't there.
    WrongReference {
        sheet_name: &'a Option<Text>,
        corner: Corner,
    },
    /// A range on a sheet that isn't there.
    WrongRange {
        sheet_name: &'a Option<Text>,
        left: Corner,
        right: Corner,
    },
    /// An array literal.
    Array(&'a Rows),
    /// A name that was defined.
    DefinedName(&'a DefinedNameS),
    /// The name of a table.
    TableName(&'a Text),
    /// A name that a LET or LAMBDA around it may bind.
    Variable {
        name: &'a Text,
        id: Option<u32>,
    },
    /// A text that is no formula.
    ParseError {
        formula: &'a Text,
        message: &'a Text,
        position: u32,
    },
}

/// A node whose children import doesn't enter.
#[derive(Clone, Copy)]
pub enum Closed<'a> {
    /// The range operator.
    RangeOperator {
        left: &'a Node,
        right: &'a Node,
    },
    /// A call of a function that a name stands for.
    NamedCall {
        name: &'a Text,
        id: Option<u32>,
        args: &'a Nodes,
    },
    /// A lambda.
    Lambda {
        parameters: &'a Texts,
        body: &'a Node,
    },
    /// A call of a lambda.
    LambdaCall {
        lambda: &'a Node,
        args: &'a Nodes,
    },
}

impl Node {
    /// What stands at the root, and its parts.
    #[tactic(auto, using(crate::proofs::Trees::trees))]
    pub fn view<'a>(&'a self) -> View<'a>
        ensures tree { tree_of self.now ≡ tree_in result }
        ensures falls { Falls result self.now }
    {
        match self {
            Node::UnaryKind { kind, right } => View::Unary {
                kind: *kind,
                right: right.get(),
            },
            Node::SpillRangeOperator { child } => View::Spill { child: child.get() },
            Node::FunctionKind { kind, args } => View::Call { kind: *kind, args },
            Node::ImplicitIntersection { automatic, child } => View::Intersection {
                automatic: *automatic,
                child: child.get(),
            },
            Node::OpRangeKind { left, right } => View::Closed(Closed::RangeOperator {
                left: left.get(),
                right: right.get(),
            }),
            Node::NamedFunctionKind { name, id, args } => View::Closed(Closed::NamedCall {
                name,
                id: *id,
                args,
            }),
            Node::LambdaDefKind { parameters, body } => View::Closed(Closed::Lambda {
                parameters,
                body: body.get(),
            }),
            Node::LambdaCallKind { lambda, args } => View::Closed(Closed::LambdaCall {
                lambda: lambda.get(),
                args,
            }),
            Node::OpConcatenateKind { .. }
            | Node::OpPowerKind { .. }
            | Node::OpSumKind { .. }
            | Node::OpProductKind { .. }
            | Node::CompareKind { .. } => self.binary_view(),
            Node::BooleanKind(_)
            | Node::NumberKind(_)
            | Node::StringKind(_)
            | Node::ErrorKind(_)
            | Node::EmptyArgKind
            | Node::ReferenceKind { .. }
            | Node::RangeKind { .. }
            | Node::WrongReferenceKind { .. }
            | Node::WrongRangeKind { .. }
            | Node::ArrayKind(_)
            | Node::DefinedNameKind(_)
            | Node::TableNameKind(_)
            | Node::NamedVariableKind { .. }
            | Node::ParseErrorKind { .. } => View::Leaf(self.leaf_view()),
        }
    }

    #[tactic(auto, using(crate::proofs::Trees::trees))]
    fn binary_view<'a>(&'a self) -> View<'a>
        requires { IsBinary self.now }
        ensures tree { tree_of self.now ≡ tree_in result }
        ensures falls { Falls result self.now }
    {
        let (operator, left, right) = match self {
            Node::OpConcatenateKind { left, right } => (Operator::Concatenate, left, right),
            Node::OpPowerKind { left, right } => (Operator::Power, left, right),
            Node::OpSumKind { kind, left, right } => (Operator::Sum(*kind), left, right),
            Node::OpProductKind { kind, left, right } => (Operator::Product(*kind), left, right),
            Node::CompareKind { kind, left, right } => (Operator::Compare(*kind), left, right),
            _ => unreachable!(),
        };
        View::Binary {
            operator,
            left: left.get(),
            right: right.get(),
        }
    }

    #[tactic(auto, using(crate::proofs::Trees::trees))]
    fn leaf_view<'a>(&'a self) -> Leaf<'a>
        requires { IsLeaf self.now }
        ensures { tree_of self.now ≡ bare_leaf (leaf_in result) }
    {
        match self {
            Node::BooleanKind(value) => Leaf::Boolean(*value),
            Node::NumberKind(number) => Leaf::Number(*number),
            Node::StringKind(text) => Leaf::Text(text),
            Node::ErrorKind(error) => Leaf::Error(*error),
            Node::EmptyArgKind => Leaf::Empty,
            Node::ReferenceKind {
                sheet_name,
                sheet_index,
                absolute_row,
                absolute_column,
                row,
                column,
            } => Leaf::Reference {
                sheet_name,
                sheet_index: *sheet_index,
                corner: Corner::new(*absolute_row, *absolute_column, *row, *column),
            },
            Node::RangeKind {
                sheet_name,
                sheet_index,
                absolute_row1,
                absolute_column1,
                row1,
                column1,
                absolute_row2,
                absolute_column2,
                row2,
                column2,
            } => Leaf::Range {
                sheet_name,
                sheet_index: *sheet_index,
                left: Corner::new(*absolute_row1, *absolute_column1, *row1, *column1),
                right: Corner::new(*absolute_row2, *absolute_column2, *row2, *column2),
            },
            Node::WrongReferenceKind {
                sheet_name,
                absolute_row,
                absolute_column,
                row,
                column,
            } => Leaf::WrongReference {
                sheet_name,
                corner: Corner::new(*absolute_row, *absolute_column, *row, *column),
            },
            Node::WrongRangeKind {
                sheet_name,
                absolute_row1,
                absolute_column1,
                row1,
                column1,
                absolute_row2,
                absolute_column2,
                row2,
                column2,
            } => Leaf::WrongRange {
                sheet_name,
                left: Corner::new(*absolute_row1, *absolute_column1, *row1, *column1),
                right: Corner::new(*absolute_row2, *absolute_column2, *row2, *column2),
            },
            Node::ArrayKind(rows) => Leaf::Array(rows),
            Node::DefinedNameKind(name) => Leaf::DefinedName(name),
            Node::TableNameKind(name) => Leaf::TableName(name),
            Node::NamedVariableKind { name, id } => Leaf::Variable { name, id: *id },
            Node::ParseErrorKind {
                formula,
                message,
                position,
            } => Leaf::ParseError {
                formula,
                message,
                position: *position,
            },
            _ => unreachable!(),
        }
    }
}

impl<'a> View<'a> {
    /// How many nodes stand right below.
    pub fn part_count(self) -> usize
        ensures { result ≡ length (parts_in self.entry) }
    {
        match self {
            View::Leaf(_) => 0,
            View::Unary { .. } | View::Spill { .. } | View::Intersection { .. } => 1,
            View::Binary { .. } => 2,
            View::Call { args, .. } => args.len(),
            View::Closed(closed) => closed.part_count(),
        }
    }

    /// A node right below, by its number from 0.
    pub fn part(self, index: usize) -> &'a Node
        requires { index < length (parts_in self) }
        ensures { Some result.now ≡ slice_get (parts_in self.entry) index }
    {
        match self {
            View::Leaf(_) => unreachable!(),
            View::Unary { right: child, .. }
            | View::Spill { child }
            | View::Intersection { child, .. } => child,
            View::Binary { left, right, .. } => { if index == 0 { left } else { right } }
            View::Call { args, .. } => node_at(args, index),
            View::Closed(closed) => closed.part(index),
        }
    }
}

impl<'a> Closed<'a> {
    fn part_count(self) -> usize
        ensures { result ≡ length (closed_parts self.entry) }
    {
        match self {
            Closed::RangeOperator { .. } => 2,
            Closed::NamedCall { args, .. } => args.len(),
            Closed::Lambda { .. } => 1,
            Closed::LambdaCall { args, .. } => args.as_slice().len() + 1,
        }
    }

    fn part(self, index: usize) -> &'a Node
        requires { index < length (closed_parts self) }
        ensures { Some result.now ≡ slice_get (closed_parts self.entry) index }
    {
        match self {
            Closed::RangeOperator { left, right } => { if index == 0 { left } else { right } }
            Closed::NamedCall { args, .. } => node_at(args, index),
            Closed::Lambda { body, .. } => body,
            Closed::LambdaCall { lambda, args } => {
                if index == 0 {
                    lambda
                } else {
                    node_at(args, index - 1)
                }
            }
        }
    }
}

fn node_at<'a>(nodes: &'a Nodes, index: usize) -> &'a Node
    requires { index < length nodes.now }
    ensures { Some result.now ≡ slice_get nodes.now index }
{
    match nodes.get(index) {
        Some(node) => node,
        None => unreachable!(),
    }
}
