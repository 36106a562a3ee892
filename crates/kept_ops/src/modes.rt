ghost use Rattle.std.specs.Prelude.{◌≡◌};
ghost use Rattle.kept_ops.specs.Mode.{mode_of};

/// What a mode leaves out of two kinds of things.
#[derive(Clone, Copy)]
pub(crate) struct Mode {
    pub(crate) first: bool,
    pub(crate) second: bool,
}

/// The mode of a number from 0 to 3: neither of the two, the first, the second, both. `None` exactly for any other number.
pub(crate) fn mode_of(number: i64) -> Option<Mode>
    ensures { result ≡ mode_of number }
{
    let (first, second) = match number {
        0 => (false, false),
        1 => (true, false),
        2 => (false, true),
        3 => (true, true),
        _ => return None,
    };
    Some(Mode { first, second })
}

/// The same of a shorter number.
pub(crate) fn mode_of_short(number: i32) -> Option<Mode>
    ensures { result ≡ mode_of number }
{
    mode_of(i64::from(number))
}
