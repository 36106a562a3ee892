use crate::defined_name::DefinedNameS;
use call_core::Function;
use own_items::{Boxed as Box, Items};
use value_core::{Error, OpCompare, OpProduct, OpSum, OpUnary, Rows, Text, Texts};

/// Some formulas in a row, such as the arguments of a call.
pub type Nodes = Items<Node>;

/// A formula as a tree.
///
/// A row or column of a reference is absolute where its flag holds, else it is the difference to that of the formula's cell.
#[derive(Debug, Drop)]
pub enum Node {
    /// A truth value.
    BooleanKind(bool),
    /// A number, in millionths.
    NumberKind(i64),
    /// A text.
    StringKind(Text),
    /// An error value.
    ErrorKind(Error),
    /// An argument that was left out, as the second one of `IF(A1,,2)`.
    EmptyArgKind,
    /// A reference to one cell, with the sheet's name where one is written.
    ReferenceKind {
        sheet_name: Option<Text>,
        sheet_index: u32,
        absolute_row: bool,
        absolute_column: bool,
        row: i32,
        column: i32,
    },
    /// A reference to all cells between two ends.
    RangeKind {
        sheet_name: Option<Text>,
        sheet_index: u32,
        absolute_row1: bool,
        absolute_column1: bool,
        row1: i32,
        column1: i32,
        absolute_row2: bool,
        absolute_column2: bool,
        row2: i32,
        column2: i32,
    },
    /// A reference to a sheet that isn't there.
    WrongReferenceKind {
        sheet_name: Option<Text>,
        absolute_row: bool,
        absolute_column: bool,
        row: i32,
        column: i32,
    },
    /// A range on a sheet that isn't there.
    WrongRangeKind {
        sheet_name: Option<Text>,
        absolute_row1: bool,
        absolute_column1: bool,
        row1: i32,
        column1: i32,
        absolute_row2: bool,
        absolute_column2: bool,
        row2: i32,
        column2: i32,
    },
    /// The range operator, as in `INDEX(A1:A9,1):B3`.
    OpRangeKind {
        left: Box<Node>,
        right: Box<Node>,
    },
    /// The operator `&`.
    OpConcatenateKind {
        left: Box<Node>,
        right: Box<Node>,
    },
    /// The operators `+` and `-` between two sides.
    OpSumKind {
        kind: OpSum,
        left: Box<Node>,
        right: Box<Node>,
    },
    /// The operators `*` and `/`.
    OpProductKind {
        kind: OpProduct,
        left: Box<Node>,
        right: Box<Node>,
    },
    /// The operator `^`.
    OpPowerKind {
        left: Box<Node>,
        right: Box<Node>,
    },
    /// A call of a kind of functions.
    FunctionKind {
        kind: Function,
        args: Nodes,
    },
    /// A call of a function that a name stands for.
    NamedFunctionKind {
        name: Text,
        id: Option<u32>,
        args: Nodes,
    },
    /// An array literal.
    ArrayKind(Rows),
    /// A name that was defined.
    DefinedNameKind(DefinedNameS),
    /// The name of a table.
    TableNameKind(Text),
    /// A name that a LET or LAMBDA around it may bind, and its number where it is bound.
    NamedVariableKind {
        name: Text,
        id: Option<u32>,
    },
    /// A comparison.
    CompareKind {
        kind: OpCompare,
        left: Box<Node>,
        right: Box<Node>,
    },
    /// The operators before or behind one operand.
    UnaryKind {
        kind: OpUnary,
        right: Box<Node>,
    },
    /// A text that is no formula, what is wrong with it, and where.
    ParseErrorKind {
        formula: Text,
        message: Text,
        position: u32,
    },
    /// The operator `@`. It is automatic where import put it, and not where a person did.
    ImplicitIntersection {
        automatic: bool,
        child: Box<Node>,
    },
    /// The operator `#`.
    SpillRangeOperator {
        child: Box<Node>,
    },
    /// A lambda: the names of its parameters, and its body.
    LambdaDefKind {
        parameters: Texts,
        body: Box<Node>,
    },
    /// A call of a lambda.
    LambdaCallKind {
        lambda: Box<Node>,
        args: Nodes,
    },
}
