ghost use Rattle.std.specs.Prelude.{◌≡◌, ◌≤◌, IfOk, codes, option_map};
ghost use Rattle.serde_json.specs.Find.{get};
ghost use Rattle.serde_json.specs.View.{view};
ghost use Rattle.value_json.specs.Reading.{Finds};
ghost use Rattle.option_json.specs.Options.{limit_in, limit_or, of_version, options_in, plain_options, rule_or, standard_options, version_or, wide_options};

use crate::rule::read_rule;
use crate::version::{Version, read_version};
use import_core::ImportRule;
use serde_json::Value;
use value_json::FormError;

/// The greatest limit of cells.
const MOST_CELLS: u64 = 16777216;

/// How a request is to be answered.
#[derive(Clone, Copy, Debug, PartialEq, Eq)]
pub struct Options {
    /// Which arguments of a call import takes for places where one value is wanted.
    pub rule: ImportRule,
    /// The most cells that a call may make an array of: from 1 to 16777216.
    pub limit: usize,
}

impl Options {
    /// As the crate has it, and 1000000 cells: what holds where a request says nothing.
    pub fn standard() -> Options
        ensures { result ≡ standard_options }
    {
        Options {
            rule: ImportRule::AsCrate,
            limit: 1000000,
        }
    }
}

/// How a request is to be answered, by its object.
///
/// Its version is 1 where it says none. A request of version 1 has neither of the keys `rule` and `limit`; one of version 2 may have
/// both. A version is one of these two numbers, a rule is `as-crate` or `every-scalar`, and a limit a whole number from 1 to 16777216.
/// All else is refused. It takes no memory.
pub fn read_options(request: &Value) -> Result<Options, FormError>
    ensures found { Finds result (options_in (view request.now)) }
    ensures limited { IfOk result (λ options. options.limit ≤ 16777216) }
{
    match version_or(request)? {
        Version::One => plain_options(request),
        Version::Two => wide_options(request),
    }
}

fn version_or(request: &Value) -> Result<Version, FormError>
    ensures { Finds result (version_or (get (codes "version") (view request.now))) }
{
    match request.get("version") {
        Some(value) => read_version(value),
        None => Ok(Version::One),
    }
}

fn plain_options(request: &Value) -> Result<Options, FormError>
    ensures found { Finds result (plain_options (view request.now)) }
    ensures limited { IfOk result (λ options. options.limit ≤ 16777216) }
{
    if request.get("rule").is_none() && request.get("limit").is_none() {
        Ok(Options::standard())
    } else {
        Err(FormError::NotOfForm)
    }
}

#[tactic(auto, unfolding(crate::specs::Options::wide_options))]
fn wide_options(request: &Value) -> Result<Options, FormError>
    ensures found { Finds result (wide_options (view request.now)) }
    ensures limited { IfOk result (λ options. options.limit ≤ 16777216) }
{
    let rule = rule_or(request)?;
    let limit = limit_or(request)?;
    Ok(Options { rule, limit })
}

fn rule_or(request: &Value) -> Result<ImportRule, FormError>
    ensures { Finds result (rule_or (get (codes "rule") (view request.now))) }
{
    match request.get("rule") {
        Some(value) => read_rule(value),
        None => Ok(ImportRule::AsCrate),
    }
}

fn limit_or(request: &Value) -> Result<usize, FormError>
    ensures found { Finds result (limit_or (get (codes "limit") (view request.now))) }
    ensures limited { IfOk result (λ limit. limit ≤ 16777216) }
{
    match request.get("limit") {
        Some(value) => read_limit(value),
        None => Ok(1000000),
    }
}

fn read_limit(value: &Value) -> Result<usize, FormError>
    ensures found { Finds result (limit_in (view value.now)) }
    ensures limited { IfOk result (λ limit. limit ≤ 16777216) }
{
    match value.as_u64() {
        Some(number) if 1 <= number && number <= MOST_CELLS => Ok(number as usize),
        _ => Err(FormError::NotOfForm),
    }
}
