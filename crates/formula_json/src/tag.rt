//! The table of tags. A tag is found by its name by one match, and its name by another, since a search through a list would
//! cost a comparison for each tag at each node; both are proved to go by the table in `specs/Tags.antt`.
ghost use Rattle.std.specs.Prelude.{◌≡◌, map};
ghost use Rattle.serde_json.specs.View.{view};
ghost use Rattle.tree_core.specs.View.{here_in, leaf_in};
ghost use Rattle.value_json.specs.Reading.{Finds};
ghost use Rattle.formula_json.specs.Tags.{tag_named, tag_at, here_name, leaf_sort, leaf_name, operator_name, unary_name};

use serde_json::Value;
use tree_core::{Closed, Leaf, OpCompare, OpProduct, OpSum, OpUnary, Operator, View};
use value_json::{FormError, read_text};

/// What a tag says of its node.
#[derive(Clone, Copy)]
pub enum Tag {
    Leaf(LeafTag),
    RangeOperator,
    Binary(Operator),
    Unary(OpUnary),
    Spill,
    Call,
    NamedCall,
    Intersection,
    Lambda,
    LambdaCall,
}

/// The tags of nodes without children.
#[derive(Clone, Copy)]
pub enum LeafTag {
    Boolean,
    Number,
    Text,
    Error,
    Empty,
    Reference,
    Range,
    WrongReference,
    WrongRange,
    Array,
    DefinedName,
    Table,
    Variable,
    ParseError,
}

/// The tag with a name.
#[tactic(auto, unfolding(crate::specs::Tags::tag_named))]
pub fn tag_named(name: &str) -> Option<Tag>
    ensures { result ≡ tag_named name.now }
{
    Some(match name {
        "bool" => Tag::Leaf(LeafTag::Boolean),
        "num" => Tag::Leaf(LeafTag::Number),
        "text" => Tag::Leaf(LeafTag::Text),
        "error" => Tag::Leaf(LeafTag::Error),
        "empty" => Tag::Leaf(LeafTag::Empty),
        "ref" => Tag::Leaf(LeafTag::Reference),
        "range" => Tag::Leaf(LeafTag::Range),
        "wrongref" => Tag::Leaf(LeafTag::WrongReference),
        "wrongrange" => Tag::Leaf(LeafTag::WrongRange),
        "array" => Tag::Leaf(LeafTag::Array),
        "name" => Tag::Leaf(LeafTag::DefinedName),
        "table" => Tag::Leaf(LeafTag::Table),
        "var" => Tag::Leaf(LeafTag::Variable),
        "parseerror" => Tag::Leaf(LeafTag::ParseError),
        "oprange" => Tag::RangeOperator,
        "concat" => Tag::Binary(Operator::Concatenate),
        "pow" => Tag::Binary(Operator::Power),
        "add" => Tag::Binary(Operator::Sum(OpSum::Add)),
        "sub" => Tag::Binary(Operator::Sum(OpSum::Minus)),
        "mul" => Tag::Binary(Operator::Product(OpProduct::Times)),
        "div" => Tag::Binary(Operator::Product(OpProduct::Divide)),
        "lt" => Tag::Binary(Operator::Compare(OpCompare::LessThan)),
        "gt" => Tag::Binary(Operator::Compare(OpCompare::GreaterThan)),
        "eq" => Tag::Binary(Operator::Compare(OpCompare::Equal)),
        "le" => Tag::Binary(Operator::Compare(OpCompare::LessOrEqualThan)),
        "ge" => Tag::Binary(Operator::Compare(OpCompare::GreaterOrEqualThan)),
        "ne" => Tag::Binary(Operator::Compare(OpCompare::NonEqual)),
        "neg" => Tag::Unary(OpUnary::Minus),
        "percent" => Tag::Unary(OpUnary::Percentage),
        "spill" => Tag::Spill,
        "call" => Tag::Call,
        "named" => Tag::NamedCall,
        "at" => Tag::Intersection,
        "lambda" => Tag::Lambda,
        "lambdacall" => Tag::LambdaCall,
        _ => return None,
    })
}

/// The tag at a place.
#[tactic(auto, unfolding(crate::specs::Tags::tag_at))]
pub fn read_tag(items: &[Value], place: usize) -> Result<Tag, FormError>
    ensures { Finds result (tag_at place (map view items.now)) }
{
    match tag_named(read_text(items, place)?) {
        Some(tag) => Ok(tag),
        None => Err(FormError::NotOfForm),
    }
}

/// The name of the tag of a node.
pub fn tag_name(view: View) -> &'static str
    ensures { result.now ≡ here_name (here_in view.entry) }
{
    match view {
        View::Leaf(leaf) => leaf_name(leaf),
        View::Closed(Closed::RangeOperator { .. }) => "oprange",
        View::Closed(Closed::NamedCall { .. }) => "named",
        View::Closed(Closed::Lambda { .. }) => "lambda",
        View::Closed(Closed::LambdaCall { .. }) => "lambdacall",
        View::Unary { kind, .. } => unary_name(kind),
        View::Binary { operator, .. } => operator_name(operator),
        View::Spill { .. } => "spill",
        View::Call { .. } => "call",
        View::Intersection { .. } => "at",
    }
}

fn leaf_name(leaf: Leaf) -> &'static str
    ensures { result.now ≡ leaf_name (leaf_sort (leaf_in leaf.entry)) }
{
    match leaf {
        Leaf::Boolean(_) => "bool",
        Leaf::Number(_) => "num",
        Leaf::Text(_) => "text",
        Leaf::Error(_) => "error",
        Leaf::Empty => "empty",
        Leaf::Reference { .. } => "ref",
        Leaf::Range { .. } => "range",
        Leaf::WrongReference { .. } => "wrongref",
        Leaf::WrongRange { .. } => "wrongrange",
        Leaf::Array(_) => "array",
        Leaf::DefinedName(_) => "name",
        Leaf::TableName(_) => "table",
        Leaf::Variable { .. } => "var",
        Leaf::ParseError { .. } => "parseerror",
    }
}

fn operator_name(operator: Operator) -> &'static str
    ensures { result.now ≡ operator_name operator }
{
    match operator {
        Operator::Concatenate => "concat",
        Operator::Power => "pow",
        Operator::Sum(OpSum::Add) => "add",
        Operator::Sum(OpSum::Minus) => "sub",
        Operator::Product(OpProduct::Times) => "mul",
        Operator::Product(OpProduct::Divide) => "div",
        Operator::Compare(OpCompare::LessThan) => "lt",
        Operator::Compare(OpCompare::GreaterThan) => "gt",
        Operator::Compare(OpCompare::Equal) => "eq",
        Operator::Compare(OpCompare::LessOrEqualThan) => "le",
        Operator::Compare(OpCompare::GreaterOrEqualThan) => "ge",
        Operator::Compare(OpCompare::NonEqual) => "ne",
    }
}

fn unary_name(kind: OpUnary) -> &'static str
    ensures { result.now ≡ unary_name kind }
{
    match kind {
        OpUnary::Minus => "neg",
        OpUnary::Percentage => "percent",
    }
}
