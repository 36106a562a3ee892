ghost use Rattle.std.specs.Prelude.{◌≡◌, ◌^◌, ◌+◌, ◌≤◌, ◌<◌, IsTrue};
ghost use Rattle.position_core.specs.Axis.{chosen, dropped, dropped_from, dropped_from_if, dropped_if, is_choice, taken, taken_from, taken_from_if, taken_if};

/// TAKE: how many of so many lines are kept.
pub(crate) fn taken(count: i64, total: usize) -> usize
    ensures value { result ≡ taken count total }
    ensures within { result ≤ total }
{
    let most = count.unsigned_abs() as usize;
    if most < total { most } else { total }
}

/// TAKE: where those that are kept begin.
pub(crate) fn taken_from(count: i64, total: usize) -> usize
    ensures value { result ≡ taken_from count total }
    ensures within { result + taken count total ≤ total }
    ensures fits { total < 2 ^ 64 }
{
    if 0 < count {
        0
    } else {
        total - taken(count, total)
    }
}

/// TAKE with a count that may be left out: all lines are kept then.
pub(crate) fn taken_if(count: Option<i64>, total: usize) -> usize
    ensures value { result ≡ taken_if count total }
    ensures within { result ≤ total }
{
    match count {
        Some(count) => taken(count, total),
        None => total,
    }
}

/// TAKE with a count that may be left out: where those that are kept begin.
pub(crate) fn taken_from_if(count: Option<i64>, total: usize) -> usize
    ensures value { result ≡ taken_from_if count total }
    ensures within { result + taken_if count total ≤ total }
    ensures fits { total < 2 ^ 64 }
{
    match count {
        Some(count) => taken_from(count, total),
        None => 0,
    }
}

/// DROP: how many of so many lines are left.
pub(crate) fn dropped(count: i64, total: usize) -> usize
    ensures value { result ≡ dropped count total }
    ensures within { result ≤ total }
{
    total - taken(count, total)
}

/// DROP: where those that are left begin.
pub(crate) fn dropped_from(count: i64, total: usize) -> usize
    ensures value { result ≡ dropped_from count total }
    ensures within { result + dropped count total ≤ total }
    ensures fits { total < 2 ^ 64 }
{
    if 0 <= count { taken(count, total) } else { 0 }
}

/// DROP with a count that may be left out: all lines are left then.
pub(crate) fn dropped_if(count: Option<i64>, total: usize) -> usize
    ensures value { result ≡ dropped_if count total }
    ensures within { result ≤ total }
{
    match count {
        Some(count) => dropped(count, total),
        None => total,
    }
}

/// DROP with a count that may be left out: where those that are left begin.
pub(crate) fn dropped_from_if(count: Option<i64>, total: usize) -> usize
    ensures value { result ≡ dropped_from_if count total }
    ensures within { result + dropped_if count total ≤ total }
    ensures fits { total < 2 ^ 64 }
{
    match count {
        Some(count) => dropped_from(count, total),
        None => 0,
    }
}

/// Whether a number names one of so many lines: from the front the first has number 1, from the end the last has -1.
pub fn is_choice(number: i64, total: usize) -> bool
    ensures { result ≡ is_choice number total }
{
    number != 0 && number.unsigned_abs() as usize <= total
}

/// Which of so many lines a number names, from 0.
pub(crate) fn chosen(number: i64, total: usize) -> usize
    requires { IsTrue (is_choice number total) }
    ensures value { result ≡ chosen number total }
    ensures within { result < total }
{
    let size = number.unsigned_abs() as usize;
    if 0 < number { size - 1 } else { total - size }
}
