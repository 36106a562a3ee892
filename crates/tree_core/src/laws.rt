ghost use Rattle.tree_core.specs.Formula.{TreesFixTheFormula};
ghost use Rattle.tree_core.specs.Place.{RunsFixTheTree};
ghost use Rattle.tree_core.specs.Preorder.{NodesAreCounted, PlacesAreNumbered};

/// Two formulas with one tree are one formula.
pub fn trees_fix_the_formula()
    ensures { TreesFixTheFormula }
{}

/// Two trees with one skeleton and the same run of `@`s at each place are one tree.
pub fn runs_fix_the_tree()
    ensures { RunsFixTheTree }
{}

/// There are as many nodes by number as a formula counts.
pub fn nodes_are_counted()
    ensures { NodesAreCounted }
{}

/// Each place of a formula has a number, and no two have the same.
pub fn places_are_numbered()
    ensures { PlacesAreNumbered }
{}
