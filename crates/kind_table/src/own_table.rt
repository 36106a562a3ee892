use crate::pattern::{E, Leading, Pattern, S, V, row};
use Pattern::{All, Between, Bindings, Fixed, Folding, From, Last, Only, Scalars, SortKeys};

/// The own kinds in the order of their numbers: the name of each, and how its calls take their arguments.
macro_rules! rows {
    ($each:ident) => {
        $each! {
            "UNIQUE" => Between(1, 3, row!(V then S));
            "FILTER" => Only(2, 3, row!(V V S));
            "TAKE" => Between(2, 3, row!(V then S));
            "DROP" => Between(2, 3, row!(V then S));
            "EXPAND" => Between(2, 4, row!(V then S));
            "HSTACK" => All(V);
            "VSTACK" => All(V);
            "CHOOSECOLS" => From(2, row!(V then S));
            "CHOOSEROWS" => From(2, row!(V then S));
            "TOCOL" => Between(1, 3, row!(V then S));
            "TOROW" => Between(1, 3, row!(V then S));
            "TRANSPOSE" => Only(1, 1, row!(V));
            "TRIMRANGE" => Between(1, 3, row!(V then S));
            "WRAPCOLS" => Between(2, 3, row!(V then S));
            "WRAPROWS" => Between(2, 3, row!(V then S));
            "SEQUENCE" => Scalars(1, 3);
            "INDEX" => Between(2, 4, row!(V then S));
            "OFFSET" => Between(3, 5, row!(V then S));
            "CHOOSE" => From(2, row!(S then V));
            "ROW" => Only(0, 1, row!(V));
            "ROWS" => Only(1, 1, row!(V));
            "COLUMN" => Only(0, 1, row!(V));
            "COLUMNS" => Only(1, 1, row!(V));
            "INDIRECT" => Scalars(1, 1);
            "ADDRESS" => Scalars(2, 3);
            "AREAS" => Only(1, 1, row!(V));
            "FORMULATEXT" => Scalars(1, 0);
            "ARRAYTOTEXT" => Between(1, 2, row!(V then S));
            "TEXTSPLIT" => Between(2, 6, row!(S V V then S));
            "SORT" => Between(1, 4, row!(V then S));
            "SORTBY" => SortKeys;
            "LET" => Bindings;
            "LAMBDA" => Last(1, V, S);
            "MAP" => Last(2, S, V);
            "REDUCE" => Folding;
            "SCAN" => Folding;
            "BYROW" => Only(2, 2, row!(V S));
            "BYCOL" => Only(2, 2, row!(V S));
            "MAKEARRAY" => Fixed(row!(S S S));
        }
    };
}

macro_rules! names {
    ($($name:literal => $pattern:expr;)+) => {
        [$($name),+]
    };
}

macro_rules! patterns {
    ($($name:literal => $pattern:expr;)+) => {
        [$($pattern),+]
    };
}

/// The name of each own kind, by its number.
pub static OWN_NAMES: [&str; 39] = rows!(names);

/// How the calls of each own kind take their arguments, by its number.
pub static OWN_PATTERNS: [Pattern; 39] = rows!(patterns);
