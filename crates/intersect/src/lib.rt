//! The implicit intersection operator `@`: import, which puts it where a spreadsheet of values wants one value, and export.
//!
//! - `import_core` imports; what it offers of import is handed on here.
//! - `export`: an imported formula with `@`s dropped, so that its import is the formula again. Nothing is imported for it: what is
//!   known of each node tells whether an `@` can go.
//! - `laws`: what holds of export whatever the formula.
#![tactic(auto)]

pub use export::{export_counted, exported, remove_redundant_implicit_intersection};
pub use import_core::{
    ImportRule, add_implicit_intersection, import_counted, import_is_a_function, import_settles,
    imported, is_range_reference,
};
pub use laws::exports_come_back;

mod export;
mod laws;
