//! The display unit of a formula: in which number format its value is shown, by the formats of the cells that it names.
//!
//! - `units`: a unit; `locale`: how a country writes money, dates and times; `formats`: what a number format says first.
//! - `text`: texts with parts replaced.
//! - `format_unit`: the unit of a number format. `class_unit`: that of a call, by the class of its kind.
//! - `side`, `outcome`, `product`: the table of products, in rows. `sum`: a sum's unit.
//! - `unit`: the unit of a formula. `laws`: what it rests on.
#![tactic(auto)]

pub use formats::{FirstPart, Formats, MapFormats};
pub use laws::units_rest_on_formats;
pub use locale::Locale;
pub use unit::compute_node_units;
pub use units::Units;

mod class_unit;
mod format_unit;
mod formats;
mod laws;
mod locale;
mod outcome;
mod product;
mod side;
mod sum;
mod text;
mod unit;
mod units;
