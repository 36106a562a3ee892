//! The answer to a formula, and the whole of what the program does with its words, its input and its output.
//!
//! - `answer`: the answer to a formula.
//! - `command`: what the words ask for.
//! - `status`: how a run ended.
//! - `refusal`: why nothing that was asked for is sent, with its line.
//! - `reading`: from a source to the line that is to be written.
//! - `program`: the program's top call.
//! - `formula`: the line of a formula alone, imported and exported.
#![tactic(auto)]

pub use answer::answer_formula;
pub use command::Command;
pub use formula::formula_line;
pub use print_core::Answer;
pub use program::run;
pub use reading::line_for;
pub use refusal::Refusal;
pub use status::Status;

mod answer;
mod command;
mod formula;
mod program;
mod reading;
mod refusal;
mod status;
