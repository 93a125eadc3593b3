//! The helpers that compare two values, and return a bool.
ghost use Rattle.std.specs.Prelude.{◌≡◌};
ghost use Rattle.helper_table.specs.Calls.{on_values};
ghost use Rattle.helper_table.specs.Comparisons.{contains, equal_row, less_row, member_row, test_of, text_row};
ghost use Rattle.helper_table.specs.Kinds.{have_order, may_be_in};
ghost use Rattle.helper_table.specs.Effects.{means, CanFollow};
ghost use Rattle.value_store.specs.Seen.{shape_view};

use crate::helper_effect::HelperEffect;
use crate::operands::{is_value, operand};
use crate::text_test::TextTest;
use guest_memory::Fault;
use memchr::memmem;
use value_store::{Shape, ValueStore};

/// Helper 9: whether two values are equal.
#[tactic(auto, using(crate::proofs::Pairs::equal_pair, crate::proofs::Pairs::nothing), unfolding(crate::specs::Comparisons::equal_row))]
pub(crate) fn equal<V: ValueStore>(
    table: &mut V,
    a: u64,
    b: u64,
) -> Result<HelperEffect<'static>, Fault>
    ensures means { means (V.values table.old) result ≡ on_values (V.values table.old) a b equal_row }
    ensures can { CanFollow (V.values table.old) result }
    ensures values { V.values table.new ≡ V.values table.old }
    ensures charge { V.charge table.new ≡ V.charge table.old }
{
    let x = operand(table, a)?;
    let y = operand(table, b)?;
    if is_value(x) && is_value(y) {
        return Ok(HelperEffect::truth(Some(table.equal(a, b))));
    }
    Ok(HelperEffect::truth(None))
}

/// Whether these are two ints, two texts or two bools.
fn have_order(x: Shape<'_>, y: Shape<'_>) -> bool
    ensures { result ≡ have_order (shape_view x.entry) (shape_view y.entry) }
{
    matches!(
        (x, y),
        (Shape::Bool(_), Shape::Bool(_))
            | (Shape::Int(_), Shape::Int(_))
            | (Shape::Text(_), Shape::Text(_))
    )
}

/// Helper 10: whether the first of two values is less than the second.
#[tactic(auto, using(crate::proofs::Pairs::less_pair, crate::proofs::Pairs::nothing), unfolding(crate::specs::Comparisons::less_row))]
pub(crate) fn less<V: ValueStore>(table: &V, a: u64, b: u64) -> Result<HelperEffect<'static>, Fault>
    ensures means { means (V.values table.now) result ≡ on_values (V.values table.now) a b less_row }
    ensures can { CanFollow (V.values table.now) result }
{
    let x = operand(table, a)?;
    let y = operand(table, b)?;
    if have_order(x, y) {
        return Ok(HelperEffect::truth(Some(table.less(a, b))));
    }
    Ok(HelperEffect::truth(None))
}

/// Whether these are a value and a list, or a text and a map.
fn may_be_in(x: Shape<'_>, c: Shape<'_>) -> bool
    ensures { result ≡ may_be_in (shape_view x.entry) (shape_view c.entry) }
{
    match (x, c) {
        (_, Shape::List(_)) => is_value(x),
        (Shape::Text(_), Shape::Map(_)) => true,
        _ => false,
    }
}

/// Helper 15: whether a value is an item of a list, or a text is a key of a map.
#[tactic(auto, using(crate::proofs::Pairs::member_pair, crate::proofs::Pairs::nothing), unfolding(crate::specs::Comparisons::member_row))]
pub(crate) fn member<V: ValueStore>(
    table: &mut V,
    x: u64,
    c: u64,
) -> Result<HelperEffect<'static>, Fault>
    ensures means { means (V.values table.old) result ≡ on_values (V.values table.old) x c member_row }
    ensures can { CanFollow (V.values table.old) result }
    ensures values { V.values table.new ≡ V.values table.old }
    ensures charge { V.charge table.new ≡ V.charge table.old }
{
    let item = operand(table, x)?;
    let container = operand(table, c)?;
    if may_be_in(item, container) {
        return Ok(HelperEffect::truth(Some(table.member(x, c))));
    }
    Ok(HelperEffect::truth(None))
}

/// Whether a text contains a part. A longer part is not read, as it would be before a search.
#[tactic(auto, using(crate::proofs::Finding::finds_part, crate::proofs::Finding::too_long))]
fn contains(text: &[u8], part: &[u8]) -> bool
    ensures { result ≡ contains text.now part.now }
{
    if part.len() > text.len() {
        return false;
    }
    memmem::find(text, part).is_some()
}

/// Whether a test holds for two texts.
fn holds(test: TextTest, text: &[u8], part: &[u8]) -> bool
    ensures { result ≡ test_of test text.now part.now }
{
    match test {
        TextTest::Starts => text.starts_with(part),
        TextTest::Ends => text.ends_with(part),
        TextTest::Contains => contains(text, part),
    }
}

/// Helpers 12 to 14: whether a text starts with another, ends with it, or contains it.
pub(crate) fn test_texts<V: ValueStore>(
    table: &V,
    test: TextTest,
    a: u64,
    b: u64,
) -> Result<HelperEffect<'static>, Fault>
    ensures means { means (V.values table.now) result ≡ on_values (V.values table.now) a b (text_row (test_of test)) }
    ensures can { CanFollow (V.values table.now) result }
{
    let text = operand(table, a)?;
    let part = operand(table, b)?;
    match (text, part) {
        (Shape::Text(text), Shape::Text(part)) => {
            let truth = holds(test, text.as_bytes(), part.as_bytes());
            Ok(HelperEffect::truth(Some(truth)))
        }
        _ => Ok(HelperEffect::truth(None)),
    }
}
