ghost use Rattle.std.specs.Prelude.{◌≡◌, option_map};
ghost use Rattle.serde_json.specs.View.{view};
ghost use Rattle.value_json.specs.Reading.{Finds};
ghost use Rattle.option_json.specs.Options.{version_in, version_of};

use serde_json::Value;
use value_json::FormError;

/// The version of a request's form.
#[derive(Clone, Copy, Debug)]
pub(crate) enum Version {
    One,
    Two,
}

fn version_of(number: u64) -> Option<Version>
    ensures { result ≡ version_of number }
{
    match number {
        1 => Some(Version::One),
        2 => Some(Version::Two),
        _ => None,
    }
}

/// The version that a number is.
pub(crate) fn read_version(value: &Value) -> Result<Version, FormError>
    ensures { Finds result (version_in (view value.now)) }
{
    let Some(number) = value.as_u64() else {
        return Err(FormError::NotOfForm);
    };
    match version_of(number) {
        Some(version) => Ok(version),
        None => Err(FormError::NotOfForm),
    }
}
