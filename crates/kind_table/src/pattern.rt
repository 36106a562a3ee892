ghost use Rattle.std.specs.Prelude.{◌≡◌};
ghost use Rattle.kind_table.specs.Pattern.{vector_if};

use crate::signature::Signature;

/// How the first six arguments are taken.
#[derive(Clone, Copy, Debug)]
pub struct Leading(
    pub Signature,
    pub Signature,
    pub Signature,
    pub Signature,
    pub Signature,
    pub Signature,
);

/// One value, in the rows of signatures.
pub const S: Signature = Signature::Scalar;

/// A whole range or array, in the rows of signatures.
pub const V: Signature = Signature::Vector;

/// No such argument, in the rows of signatures.
pub const E: Signature = Signature::Error;

/// A row of signatures in full: past what is given, no argument is taken, or each as what stands after `then`.
macro_rules! row {
    ($a:ident then $z:ident) => { Leading($a, $z, $z, $z, $z, $z) };
    ($a:ident $b:ident then $z:ident) => { Leading($a, $b, $z, $z, $z, $z) };
    ($a:ident $b:ident $c:ident then $z:ident) => { Leading($a, $b, $c, $z, $z, $z) };
    ($a:ident) => { Leading($a, E, E, E, E, E) };
    ($a:ident $b:ident) => { Leading($a, $b, E, E, E, E) };
    ($a:ident $b:ident $c:ident) => { Leading($a, $b, $c, E, E, E) };
    ($a:ident $b:ident $c:ident $d:ident) => { Leading($a, $b, $c, $d, E, E) };
    ($a:ident $b:ident $c:ident $d:ident $e:ident $f:ident) => { Leading($a, $b, $c, $d, $e, $f) };
}

pub(crate) use row;

/// How the calls of a kind take their arguments, by how many there are. Other numbers of arguments are not taken.
#[derive(Clone, Copy, Debug)]
pub enum Pattern {
    /// No argument.
    NoArgument,
    /// Any number of arguments, each alike.
    All(Signature),
    /// From the first number of arguments to as many more as the second, all single values.
    Scalars(usize, usize),
    /// From the first number of arguments to the second, as the row.
    Only(usize, usize, Leading),
    /// Any number of arguments, as the row, and none past it.
    Fixed(Leading),
    /// At least so many arguments, as the row, whose last entry goes on.
    From(usize, Leading),
    /// From the first number of arguments to the second, as the row, whose last entry goes on.
    Between(usize, usize, Leading),
    /// At least so many arguments, the last one as the first signature and the others as the second.
    Last(usize, Signature, Signature),
    /// Names each with its value, and a body: an odd number of at least 3, the values and the body whole.
    Bindings,
    /// An array and keys with their orders: 2, or an odd number of at least 3, the array and the keys whole.
    SortKeys,
    /// An array and a function, or a value before them: the array whole.
    Folding,
}

impl Leading {
    ghost use Rattle.std.specs.Prelude.{◌≡◌};
    ghost use Rattle.kind_table.specs.Pattern.{entry, lasting_entry};

    fn entry(self, index: usize) -> Signature
        ensures { result ≡ entry self index }
    {
        match index {
            0 => self.0,
            1 => self.1,
            2 => self.2,
            3 => self.3,
            4 => self.4,
            5 => self.5,
            _ => Signature::Error,
        }
    }

    fn lasting_entry(self, index: usize) -> Signature
        ensures { result ≡ lasting_entry self index }
    {
        if index < 6 { self.entry(index) } else { self.5 }
    }
}

impl Pattern {
    ghost use Rattle.std.specs.Prelude.{◌≡◌, ◌<◌};
    ghost use Rattle.kind_table.specs.Pattern.{place, signature_by, takes};

    /// How a call with `count` arguments takes the one at `index`, from 0.
    #[tactic(auto, unfolding(crate::specs::Pattern::signature_by))]
    pub fn signature(self, count: usize, index: usize) -> Signature
        ensures { result ≡ signature_by self count index }
    {
        if index < count && self.takes(count) {
            self.place(count, index)
        } else {
            Signature::Error
        }
    }

    fn takes(self, count: usize) -> bool
        ensures { result ≡ takes self count }
    {
        match self {
            Pattern::NoArgument => count == 0,
            Pattern::All(_) => true,
            Pattern::Fixed(_) => true,
            Pattern::Scalars(least, more) => least <= count && count - least <= more,
            Pattern::Only(least, most, _) => least <= count && count <= most,
            Pattern::From(least, _) => least <= count,
            Pattern::Between(least, most, _) => least <= count && count <= most,
            Pattern::Last(least, _, _) => least <= count,
            Pattern::Bindings => count >= 3 && count % 2 == 1,
            Pattern::SortKeys => count == 2 || count >= 3 && count % 2 == 1,
            Pattern::Folding => count == 2 || count == 3,
        }
    }

    fn place(self, count: usize, index: usize) -> Signature
        requires { index < count }
        ensures { result ≡ place self count index }
    {
        match self {
            Pattern::NoArgument => Signature::Error,
            Pattern::All(signature) => signature,
            Pattern::Scalars(_, _) => Signature::Scalar,
            Pattern::Only(_, _, row) => row.entry(index),
            Pattern::Fixed(row) => row.entry(index),
            Pattern::From(_, row) => row.lasting_entry(index),
            Pattern::Between(_, _, row) => row.lasting_entry(index),
            Pattern::Last(_, last, others) => if count - index == 1 { last } else { others },
            Pattern::Bindings => vector_if(index % 2 == 1 || count - index == 1),
            Pattern::SortKeys => vector_if(index == 0 || index % 2 == 1),
            Pattern::Folding => vector_if(count - index == 2),
        }
    }
}

fn vector_if(whole: bool) -> Signature
    ensures { result ≡ vector_if whole }
{
    if whole {
        Signature::Vector
    } else {
        Signature::Scalar
    }
}
