//! Import: it puts the implicit intersection operator `@` where a spreadsheet of values wants one value.
//!
//! - `rule`: which arguments of a call are places where one value is wanted.
//! - `import`: the imported formula, as a new tree or in place; `decide` and `build` are its two passes.
//! - `context`: what a node is to import; `range_text`: texts that end as a reference to a range does.
//! - `laws`: what holds of import whatever the formula.
//!
//! What an export is, is defined here too; `intersect` makes one.
#![tactic(auto)]

pub use context::{
    is_range_like_call, is_range_like_leaf, is_range_operator, may_be_range_like, wants_one,
};
pub use import::{add_implicit_intersection, import_counted, import_of, imported};
pub use laws::{import_is_a_function, import_settles};
pub use range_text::is_range_reference;
pub use rule::ImportRule;

mod build;
mod context;
mod decide;
mod import;
mod import_shapes;
mod laws;
mod range_text;
mod rule;
