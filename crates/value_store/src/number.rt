//! Numbers of documents as ints.

ghost use Rattle.std.specs.Prelude.{◌≡◌, pos, unwrap_or};
ghost use Rattle.serde_json.specs.Find.{as_i64};
ghost use Rattle.serde_json.specs.View.{number_view};

use serde_json::Number;

/// The number if it is a signed 64-bit integer, else 0.
pub(crate) fn integer(number: &Number) -> i64
    ensures { result ≡ unwrap_or (as_i64 (number_view number.now)) (pos 0) }
{
    number.as_i64().unwrap_or(0)
}
