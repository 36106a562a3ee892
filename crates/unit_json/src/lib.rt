//! The JSON of display units, and of what they are found by: number formats and a locale.
//!
//! - `unit`: a unit, written. `format`: a number format, read. `formats`: all those of a request. `locale`: a locale, read.
//! - `field`: what stands at a key.
#![tactic(auto)]

pub use formats::read_formats;
pub use locale::read_locale;
pub use unit::write_unit;

mod field;
mod format;
mod formats;
mod locale;
mod unit;
