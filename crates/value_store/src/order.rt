//! The order of documents' values.

ghost use Rattle.std.specs.Prelude.{◌≡◌, int_lt, not, ◌&&◌};
ghost use Rattle.serde_json.specs.View.{view};
ghost use Rattle.value_store.specs.Order.{less, text_less};
ghost use Rattle.value_store.specs.Plain.{plain_value};

use crate::number::integer;
use serde_json::Value;
use text_kernels::first_difference;

/// Whether the first value is less than the second, if they have an order.
pub(crate) fn below(left: &Value, right: &Value) -> Option<bool>
    ensures { result ≡ less (plain_value (view left.now)) (plain_value (view right.now)) }
{
    match (left, right) {
        (Value::Bool(a), Value::Bool(b)) => Some(!*a && *b),
        (Value::Number(a), Value::Number(b)) => Some(int_below(integer(a), integer(b))),
        (Value::String(a), Value::String(b)) => Some(text_below(a.as_bytes(), b.as_bytes())),
        _ => None,
    }
}

fn int_below(a: i64, b: i64) -> bool
    ensures { result ≡ int_lt a b }
{
    a < b
}

// The first differing byte decides; a text that is a proper prefix of the other is less.
fn text_below(left: &[u8], right: &[u8]) -> bool
    ensures { result ≡ text_less left.now right.now }
{
    let place = first_difference(left, right);
    if place == right.len() {
        return false;
    }
    if place == left.len() {
        return true;
    }
    left[place] < right[place]
}
