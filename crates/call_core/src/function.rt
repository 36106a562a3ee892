ghost use Rattle.std.specs.Prelude.{◌≡◌, ◌↔◌, ◌≤◌, IsTrue};
ghost use Rattle.call_core.specs.FunctionCode.{function_code};

/// The kinds of functions that a call may be of: the kinds with rules of their own, and by number all others.
#[derive(Clone, Copy, Debug)]
pub enum Function {
    Unique,
    Filter,
    Take,
    Drop,
    Expand,
    Hstack,
    Vstack,
    Choosecols,
    Chooserows,
    Tocol,
    Torow,
    Transpose,
    Trimrange,
    Wrapcols,
    Wraprows,
    Sequence,
    Index,
    Offset,
    Choose,
    Row,
    Rows,
    Column,
    Columns,
    Indirect,
    Address,
    Areas,
    Formulatext,
    Arraytotext,
    Textsplit,
    Sort,
    Sortby,
    Let,
    Lambda,
    Map,
    Reduce,
    Scan,
    Byrow,
    Bycol,
    Makearray,
    /// A kind of a table, by its number there.
    Other(u16),
}

impl Function {
    /// A number of its own for each kind: the own kinds from 0 on in the order above, and behind them the others by theirs.
    pub fn code(self) -> u32
        ensures { result ≡ function_code self }
    {
        match self {
            Function::Unique => 0,
            Function::Filter => 1,
            Function::Take => 2,
            Function::Drop => 3,
            Function::Expand => 4,
            Function::Hstack => 5,
            Function::Vstack => 6,
            Function::Choosecols => 7,
            Function::Chooserows => 8,
            Function::Tocol => 9,
            Function::Torow => 10,
            Function::Transpose => 11,
            Function::Trimrange => 12,
            Function::Wrapcols => 13,
            Function::Wraprows => 14,
            Function::Sequence => 15,
            Function::Index => 16,
            Function::Offset => 17,
            Function::Choose => 18,
            Function::Row => 19,
            Function::Rows => 20,
            Function::Column => 21,
            Function::Columns => 22,
            Function::Indirect => 23,
            Function::Address => 24,
            Function::Areas => 25,
            Function::Formulatext => 26,
            Function::Arraytotext => 27,
            Function::Textsplit => 28,
            Function::Sort => 29,
            Function::Sortby => 30,
            Function::Let => 31,
            Function::Lambda => 32,
            Function::Map => 33,
            Function::Reduce => 34,
            Function::Scan => 35,
            Function::Byrow => 36,
            Function::Bycol => 37,
            Function::Makearray => 38,
            Function::Other(number) => 39 + number as u32,
        }
    }

    pub(crate) fn is(self, other: Function) -> bool
        ensures { IsTrue result ↔ (self ≡ other) }
    {
        self.code() == other.code()
    }
}

impl PartialEq for Function {
    ghost use Rattle.own_items.specs.Sameness.{same, same-laws};
    ghost use Rattle.call_core.specs.contracts.function.Function.{the_row};

    ghost eq = { same the_row.coded };

    ghost laws = { same-laws the_row.coded };

    /// Whether the two kinds are one.
    fn eq(&self, other: &Function) -> bool
        ensures same_value { IsTrue result ↔ (self.now ≡ other.now) }
        ensures same_code { result ≡ same the_row.coded self.now other.now }
    {
        (*self).is(*other)
    }
}
