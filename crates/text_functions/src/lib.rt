//! The functions of texts, over what their arguments came to: ADDRESS, INDIRECT, ARRAYTOTEXT and TEXTSPLIT. Each checks its
//! arguments in their order, and then calls the rule that makes its value.
#![tactic(auto)]

pub use address::address_call;
pub use array_to_text::array_to_text_call;
pub use indirect::indirect_call;
pub use text_split::text_split_call;

mod address;
mod array_to_text;
mod delimiters;
mod indirect;
#[cfg(test)]
mod tests;
mod text_split;
