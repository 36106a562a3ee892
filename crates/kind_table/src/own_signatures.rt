ghost use Rattle.std.specs.Prelude.{◌≡◌};
ghost use Rattle.kind_table.specs.OwnSignature.{own_patterns, own_signature};

use crate::own_table::OWN_PATTERNS;
use crate::pattern::Pattern;
use crate::signature::Signature;
use call_core::Function;

/// How a call of an own kind with `count` arguments takes the one at `index`, from 0. `Error` for an index that is not
/// below the count, and for `Other`.
pub fn own_signature(kind: Function, count: usize, index: usize) -> Signature
    ensures { result ≡ own_signature kind count index }
{
    match own_patterns().get(kind.code() as usize) {
        Some(pattern) => pattern.signature(count, index),
        None => Signature::Error,
    }
}

#[tactic(auto, unfolding(crate::specs::OwnSignature::own_patterns))]
fn own_patterns() -> &'static [Pattern]
    ensures { result.now ≡ own_patterns }
{
    &OWN_PATTERNS
}
