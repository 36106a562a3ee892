ghost use Rattle.std.specs.Prelude.{◌≡◌};
ghost use Rattle.argument_core.specs.Check.{Gives};
ghost use Rattle.argument_core.specs.Count.{none_or_one, one, one_or_two, one_to_four, one_to_three, optional, required, rest_of, three_to_five, two_or_three, two_to_five, two_to_four, two_to_six, unless_more};

use crate::stop::Stop;
use result_core::Found;
use value_core::Error;

/// One or two arguments.
#[derive(Debug, Drop)]
pub struct OneOrTwo {
    pub first: Found,
    pub second: Option<Found>,
}

/// One to three arguments.
#[derive(Debug, Drop)]
pub struct OneToThree {
    pub first: Found,
    pub second: Option<Found>,
    pub third: Option<Found>,
}

/// One to four arguments.
#[derive(Debug, Drop)]
pub struct OneToFour {
    pub first: Found,
    pub second: Option<Found>,
    pub third: Option<Found>,
    pub fourth: Option<Found>,
}

/// Two or three arguments.
#[derive(Debug, Drop)]
pub struct TwoOrThree {
    pub first: Found,
    pub second: Found,
    pub third: Option<Found>,
}

/// Two to four arguments.
#[derive(Debug, Drop)]
pub struct TwoToFour {
    pub first: Found,
    pub second: Found,
    pub third: Option<Found>,
    pub fourth: Option<Found>,
}

/// Two to five arguments.
#[derive(Debug, Drop)]
pub struct TwoToFive {
    pub first: Found,
    pub second: Found,
    pub third: Option<Found>,
    pub fourth: Option<Found>,
    pub fifth: Option<Found>,
}

/// Two to six arguments.
#[derive(Debug, Drop)]
pub struct TwoToSix {
    pub first: Found,
    pub second: Found,
    pub third: Option<Found>,
    pub fourth: Option<Found>,
    pub fifth: Option<Found>,
    pub sixth: Option<Found>,
}

/// Three to five arguments.
#[derive(Debug, Drop)]
pub struct ThreeToFive {
    pub first: Found,
    pub second: Found,
    pub third: Found,
    pub fourth: Option<Found>,
    pub fifth: Option<Found>,
}

/// The first argument, which there has to be; `#ERROR!` exactly where there is none.
pub(crate) fn required(args: &mut Vec<Found>) -> Result<Found, Stop>
    ensures first { Gives result (required args.old.items) }
    ensures rest { args.new.items ≡ rest_of args.old.items }
{
    match optional(args) {
        Some(first) => Ok(first),
        None => Err(Stop::Wrong(Error::ERROR)),
    }
}

/// The first argument, if there is one.
fn optional(args: &mut Vec<Found>) -> Option<Found>
    ensures first { result ≡ optional args.old.items }
    ensures rest { args.new.items ≡ rest_of args.old.items }
{
    if args.is_empty() {
        None
    } else {
        Some(args.remove(0))
    }
}

/// What was taken, where no argument is left; else `#ERROR!`.
fn unless_more<T: Drop>(args: Vec<Found>, asked: T) -> Result<T, Stop>
    ensures { Gives result (unless_more args.items asked) }
{
    if args.is_empty() {
        Ok(asked)
    } else {
        Err(Stop::Wrong(Error::ERROR))
    }
}

/// The argument of a call that has none or one; `#ERROR!` for more.
pub fn none_or_one(args: Vec<Found>) -> Result<Option<Found>, Stop>
    ensures { Gives result (none_or_one args.items) }
{
    let mut args = args;
    let first = optional(&mut args);
    unless_more(args, first)
}

/// The argument of a call that has one; `#ERROR!` for any other count.
pub fn one(args: Vec<Found>) -> Result<Found, Stop>
    ensures { Gives result (one args.items) }
{
    let mut args = args;
    let first = required(&mut args)?;
    unless_more(args, first)
}

/// The arguments of a call that has one or two; `#ERROR!` for any other count.
pub fn one_or_two(args: Vec<Found>) -> Result<OneOrTwo, Stop>
    ensures { Gives result (one_or_two args.items) }
{
    let mut args = args;
    let first = required(&mut args)?;
    let second = optional(&mut args);
    unless_more(args, OneOrTwo { first, second })
}

/// The arguments of a call that has one to three; `#ERROR!` for any other count.
pub fn one_to_three(args: Vec<Found>) -> Result<OneToThree, Stop>
    ensures { Gives result (one_to_three args.items) }
{
    let mut args = args;
    let first = required(&mut args)?;
    let second = optional(&mut args);
    let third = optional(&mut args);
    unless_more(
        args,
        OneToThree {
            first,
            second,
            third,
        },
    )
}

/// The arguments of a call that has one to four; `#ERROR!` for any other count.
pub fn one_to_four(args: Vec<Found>) -> Result<OneToFour, Stop>
    ensures { Gives result (one_to_four args.items) }
{
    let mut args = args;
    let first = required(&mut args)?;
    let second = optional(&mut args);
    let third = optional(&mut args);
    let fourth = optional(&mut args);
    unless_more(
        args,
        OneToFour {
            first,
            second,
            third,
            fourth,
        },
    )
}

/// The arguments of a call that has two or three; `#ERROR!` for any other count.
pub fn two_or_three(args: Vec<Found>) -> Result<TwoOrThree, Stop>
    ensures { Gives result (two_or_three args.items) }
{
    let mut args = args;
    let first = required(&mut args)?;
    let second = required(&mut args)?;
    let third = optional(&mut args);
    unless_more(
        args,
        TwoOrThree {
            first,
            second,
            third,
        },
    )
}

/// The arguments of a call that has two to four; `#ERROR!` for any other count.
pub fn two_to_four(args: Vec<Found>) -> Result<TwoToFour, Stop>
    ensures { Gives result (two_to_four args.items) }
{
    let mut args = args;
    let first = required(&mut args)?;
    let second = required(&mut args)?;
    let third = optional(&mut args);
    let fourth = optional(&mut args);
    unless_more(
        args,
        TwoToFour {
            first,
            second,
            third,
            fourth,
        },
    )
}

/// The arguments of a call that has two to five; `#ERROR!` for any other count.
pub fn two_to_five(args: Vec<Found>) -> Result<TwoToFive, Stop>
    ensures { Gives result (two_to_five args.items) }
{
    let mut args = args;
    let first = required(&mut args)?;
    let second = required(&mut args)?;
    let third = optional(&mut args);
    let fourth = optional(&mut args);
    let fifth = optional(&mut args);
    unless_more(
        args,
        TwoToFive {
            first,
            second,
            third,
            fourth,
            fifth,
        },
    )
}

/// The arguments of a call that has two to six; `#ERROR!` for any other count.
pub fn two_to_six(args: Vec<Found>) -> Result<TwoToSix, Stop>
    ensures { Gives result (two_to_six args.items) }
{
    let mut args = args;
    let first = required(&mut args)?;
    let second = required(&mut args)?;
    let third = optional(&mut args);
    let fourth = optional(&mut args);
    let fifth = optional(&mut args);
    let sixth = optional(&mut args);
    unless_more(
        args,
        TwoToSix {
            first,
            second,
            third,
            fourth,
            fifth,
            sixth,
        },
    )
}

/// The arguments of a call that has three to five; `#ERROR!` for any other count.
pub fn three_to_five(args: Vec<Found>) -> Result<ThreeToFive, Stop>
    ensures { Gives result (three_to_five args.items) }
{
    let mut args = args;
    let first = required(&mut args)?;
    let second = required(&mut args)?;
    let third = required(&mut args)?;
    let fourth = optional(&mut args);
    let fifth = optional(&mut args);
    unless_more(
        args,
        ThreeToFive {
            first,
            second,
            third,
            fourth,
            fifth,
        },
    )
}
