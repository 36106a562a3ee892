ghost use Rattle.std.specs.Prelude.{◌≡◌};
ghost use Rattle.serde_json.specs.View.{view};
ghost use Rattle.value_json.specs.Reading.{Finds};
ghost use Rattle.option_json.specs.Options.{rule_in, rule_name, rule_named};

use import_core::ImportRule;
use serde_json::Value;
use value_json::FormError;

/// The rules of import.
pub(crate) static RULES: [ImportRule; 2] = [ImportRule::AsCrate, ImportRule::EveryScalar];

fn rule_name(rule: ImportRule) -> &'static str
    ensures { result.now ≡ rule_name rule }
{
    match rule {
        ImportRule::AsCrate => "as-crate",
        ImportRule::EveryScalar => "every-scalar",
    }
}

fn rule_named(name: &str) -> Option<ImportRule>
    ensures { result ≡ rule_named name.now }
{
    RULES.iter().copied().find(|rule| rule_name(*rule) == name)
}

/// The rule whose name a text is.
pub(crate) fn read_rule(value: &Value) -> Result<ImportRule, FormError>
    ensures { Finds result (rule_in (view value.now)) }
{
    let Some(name) = value.as_str() else {
        return Err(FormError::NotOfForm);
    };
    match rule_named(name) {
        Some(rule) => Ok(rule),
        None => Err(FormError::NotOfForm),
    }
}
