//! The numbers of JSON texts.

ghost use Rattle.std.specs.Prelude.{◌≡◌, ◌<◌, ◌==◌, length, slice_index, option_map, IsTrue, true, false};
ghost use Rattle.serde_json.specs.Find.{as_i64};
ghost use Rattle.serde_json.specs.Read.{number_of, number_from, float_of};

use fast_float::Numeral;

/// The number in a token: `Some(Some(n))` if it is a 64-bit signed integer, `None` if it is too
/// large for a float, and otherwise `Some(None)`. `-0` is a float.
pub(crate) fn number(text: &str) -> Option<Option<i64>>
    ensures { result ≡ option_map as_i64 (number_of text.now) }
{
    let bytes = text.as_bytes();
    if has_minus(bytes) {
        negative(&Numeral::scan(&bytes[1..]))
    } else {
        unsigned(&Numeral::scan(bytes))
    }
}

fn has_minus(bytes: &[u8]) -> bool
    ensures value { result ≡ (slice_index bytes.now 0 == 45) }
    ensures len { IsTrue result → 0 < length bytes.now }
{
    !bytes.is_empty() && bytes[0] == b'-'
}

fn unsigned(numeral: &Numeral<'_>) -> Option<Option<i64>>
    ensures { result ≡ option_map as_i64 (number_from false numeral.now) }
{
    match numeral.to_u64() {
        Some(n) => {
            if n < 1 << 63 {
                Some(Some(n as i64))
            } else {
                Some(None)
            }
        }
        None => nearest(false, numeral),
    }
}

fn negative(numeral: &Numeral<'_>) -> Option<Option<i64>>
    ensures { result ≡ option_map as_i64 (number_from true numeral.now) }
{
    if let Some(n) = numeral.to_i64(true) {
        if n < 0 {
            return Some(Some(n));
        }
    }
    nearest(true, numeral)
}

fn nearest(negative: bool, numeral: &Numeral<'_>) -> Option<Option<i64>>
    ensures { result ≡ option_map as_i64 (float_of negative numeral.now) }
{
    if numeral.to_float::<f64>(negative).is_finite() {
        Some(None)
    } else {
        None
    }
}
