ghost use Rattle.std.specs.Prelude.{◌≡◌, ◌↔◌, IsTrue};

use crate::grid::Grid;
use value_core::ArrayNode;

impl PartialEq for Grid {
    ghost use Rattle.std.specs.Coded.{coded_list};
    ghost use Rattle.own_items.specs.Sameness.{same, same-laws};
    ghost use Rattle.value_core.specs.contracts.array.ArrayNode.{the_row};

    ghost eq = { same (coded_list (coded_list the_row.coded)) };

    ghost laws = { same-laws (coded_list (coded_list the_row.coded)) };

    /// Whether the two rectangles have the same rows.
    fn eq(&self, other: &Grid) -> bool
        ensures same_value { IsTrue result ↔ (self.now ≡ other.now) }
        ensures same_code { result ≡ same (coded_list (coded_list the_row.coded)) self.now other.now }
    {
        self.is(other)
    }
}

impl Grid {
    /// Whether the two rectangles have the same rows: what `==` tells, with one clause.
    pub fn is(&self, other: &Grid) -> bool
        ensures { IsTrue result ↔ (self.now ≡ other.now) }
    {
        if self.rows != other.rows {
            return false;
        }
        if self.columns != other.columns {
            return false;
        }
        are_elements(self.cells.as_slice(), other.cells.as_slice())
    }
}

fn are_elements(elements: &[ArrayNode], others: &[ArrayNode]) -> bool
    ensures { IsTrue result ↔ (elements.now ≡ others.now) }
{
    if elements.len() != others.len() {
        return false;
    }
    for (index, element) in elements.iter().enumerate() {
        if !element.is(&others[index]) {
            return false;
        }
    }
    true
}
