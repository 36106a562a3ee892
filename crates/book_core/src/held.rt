use value_core::{ArrayNode, Text};

/// What a book holds of a cell: its value, its number format and the text of its formula.
#[derive(Debug, Drop)]
pub(crate) struct Held {
    pub(crate) value: ArrayNode,
    pub(crate) num_fmt: Option<Text>,
    pub(crate) formula: Option<Text>,
}
