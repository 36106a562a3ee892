ghost use Rattle.std.specs.Prelude.{IfOk, IfErr};
ghost use Rattle.answer_core.specs.Formula.{IsFormulaLine, RefusesFormula};

use crate::answer::formulas_of;
use crate::refusal::Refusal;
use intersect::ImportRule;
use kind_table::CrateKinds;
use print_core::formulas_line;
use request_core::read_formula_alone;
use std::alloc::Global;
use tree_core::{Plain, Steps};

/// The line of a formula alone, imported and exported by a rule and the table of the crate: for who has a formula and no sheet. The
/// bytes are its JSON. Whether it is valid in a cell is not asked, so the refusal is `BadJson` or `Memory`.
pub fn formula_line(alloc: Global, rule: ImportRule, bytes: &[u8]) -> Result<Vec<u8>, Refusal>
    ensures line { IfOk result (λ line. IsFormulaLine rule bytes.now line.items) }
    ensures refusal { IfErr result (RefusesFormula bytes.now) }
{
    let formula = read_formula_alone(alloc, bytes)?;
    let formulas = formulas_of(alloc, &CrateKinds, rule, &formula, &mut Steps::new(Plain))?;
    drop(formula);
    let line = formulas_line(alloc, &formulas.exported, &formulas.imported)?;
    drop(formulas);
    Ok(line)
}
