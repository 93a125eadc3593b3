//! Searches of a part in a text, of few bytes and of many.

use crate::helper_tests::{called, memory_of_constants, nulls};
use guest_memory::Guest;
use helper_table::HelperEnd;
use std::alloc::{AllocError, Global};
use std::test::Fail;
use value_store::{PlainTable, ValueStore};

/// The letters of a text, how often they follow each other, a part, and whether the text contains it.
type Row = (&'static str, usize, &'static str, bool);

const SEARCHES: [Row; 15] = [
    ("banana", 1, "nan", true),
    ("banana", 1, "anana", true),
    ("banana", 1, "", true),
    ("banana", 1, "nab", false),
    ("banana", 1, "bc", false),
    ("banana", 1, "nn", false),
    ("banana", 600, "nab", true),
    ("banana", 600, "", true),
    ("banana", 600, "ananabanana", true),
    ("banana", 600, "nanb", false),
    ("banana", 600, "bb", false),
    ("banana", 600, "c", false),
    ("a", 513, "aaa", true),
    ("a", 513, "ab", false),
    ("a", 20_000, "aab", false),
];

/// Helper 14 tells whether a text contains a part.
const CONTAINS: i32 = 14;

/// The answer of the helper, after both texts were placed.
fn answer(
    table: &mut PlainTable,
    memory: &Guest,
    text: &str,
    part: &str,
) -> Result<HelperEnd, AllocError> {
    let whole = table.place_text(text)?;
    let part = table.place_text(part)?;
    called(CONTAINS, [whole, part, 0], table, memory)
}

/// Whether the answer is `wanted`.
fn answers_so(alloc: Global, text: &str, part: &str, wanted: bool) -> Result<bool, Fail> {
    let memory = memory_of_constants(alloc)?;
    let mut table = nulls(alloc)?;
    let end = answer(&mut table, &memory, text, part)?;
    Ok(end == HelperEnd::Word(if wanted { 3 } else { 2 }))
}

#[test]
fn searches(rt: HostRuntime) -> Result<(), Fail> {
    for (row, &(letters, count, part, wanted)) in SEARCHES.iter().enumerate() {
        let text = letters.repeat(rt.alloc(), count)?;
        assert!(rt;
            answers_so(rt.alloc(), text.as_str(), part, wanted)?,
            "row {row}"
        );
    }
    Ok(())
}

#[test]
fn a_text_is_searched_for_itself(rt: HostRuntime) -> Result<(), Fail> {
    let text = "a".repeat(rt.alloc(), 513)?;
    let longer = "a".repeat(rt.alloc(), 514)?;
    assert!(rt; answers_so(rt.alloc(), text.as_str(), text.as_str(), true)?);
    assert!(rt; answers_so(rt.alloc(), text.as_str(), longer.as_str(), false)?);
    Ok(())
}
