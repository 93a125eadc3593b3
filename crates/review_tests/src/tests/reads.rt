//! Limits of what the program of a policy reads.

use super::{DEFAULT_STEPS, FIVE, MOST, THREE, policy_of, review_of};
use admission::{Gate, Limits, Reply, RunError, review};
use std::alloc::Global;
use std::test::Fail;

/// The end of a review: whether the request is allowed, or the code of the refusal.
type End = Result<bool, &'static str>;

const ALLOWED: End = Ok(true);

const DENIED: End = Ok(false);

const OUT_OF_STEPS: End = Err("N4");

const OVER_LIMIT: End = Err("N5");

const OUT_OF_READS: End = Err("N7");

/// The greatest limit, which is none.
const ALL: u64 = u64::MAX;

fn end_of(answer: Result<Reply, RunError>) -> End {
    match answer {
        Ok(reply) => Ok(reply.allowed),
        Err(error) => Err(error.code()),
    }
}

/// The end of the review of this object under the policy with this specification.
fn ends_in(alloc: Global, spec: &str, object: &str, limits: Limits) -> Result<End, Fail> {
    let policy = policy_of(alloc, spec)?;
    let document = review_of(alloc, object)?;
    let Ok(gate) = Gate::new(alloc, &policy) else {
        return Err("no gate")?;
    };
    Ok(end_of(gate.decide(&document, None, None, limits)))
}

const CONTAINS: &str = r#"{"validations":[{"expression":"object.t.contains('zq')"}]}"#;

/// The object whose only field is a text of a thousand letters.
fn thousand_letters(alloc: Global) -> Result<String, Fail> {
    let letters = "a".repeat(alloc, 1_000)?;
    Ok(format!(in alloc; "{{\"t\":\"{letters}\"}}")?)
}

/// Limits of steps and of reads for `CONTAINS` on a thousand letters, with the end.
///
/// The fourth step selects the field, which reads 1 byte: the key, once for one entry. The eighth
/// makes the text `zq`, which reads 2. The eleventh searches, which reads 1,000 and 2. After the 14
/// steps for a denial and the exit the program has taken 25 steps.
#[rattlefmt::skip]
const SEARCHES: [(u64, u64, End); 17] = [
    (25, 1_005, DENIED),
    (25, 1_006, DENIED),
    (25, ALL, DENIED),
    (ALL, 1_005, DENIED),
    (24, 1_005, OUT_OF_STEPS),
    (24, ALL, OUT_OF_STEPS),
    (0, 0, OUT_OF_STEPS),
    (3, 0, OUT_OF_STEPS),
    (4, 0, OUT_OF_READS),
    (4, 1, OUT_OF_STEPS),
    (7, 2, OUT_OF_STEPS),
    (8, 2, OUT_OF_READS),
    (8, 3, OUT_OF_STEPS),
    (10, 1_004, OUT_OF_STEPS),
    (11, 1_004, OUT_OF_READS),
    (11, 1_005, OUT_OF_STEPS),
    (ALL, 1_004, OUT_OF_READS),
];

#[test]
fn ends_a_search_at_its_limits(rt: HostRuntime) -> Result<(), Fail> {
    let object = thousand_letters(rt.alloc())?;
    for &(steps, reads, end) in SEARCHES.iter() {
        let limits = Limits { steps, reads };
        let is = ends_in(rt.alloc(), CONTAINS, object.as_str(), limits)?;
        assert!(rt; is == end, "{steps} steps, {reads} reads");
    }
    Ok(())
}

/// `review` has no limit of reads.
#[test]
fn reviews_without_a_limit_of_reads(rt: HostRuntime) -> Result<(), Fail> {
    let object = thousand_letters(rt.alloc())?;
    let policy = policy_of(rt.alloc(), CONTAINS)?;
    let document = review_of(rt.alloc(), object.as_str())?;
    for (steps, end) in [(24, OUT_OF_STEPS), (25, DENIED)] {
        let answer = review(rt.alloc(), &policy, &document, None, None, steps);
        assert!(rt; end_of(answer) == end, "{steps} steps");
    }
    Ok(())
}

const MEMBER: &str = r#"{"validations":[{"expression":"1 in [1, 2]"}]}"#;

const SAME_LENGTH: &str = r#"{"validations":[{"expression":"'ab' == 'ac'"}]}"#;

const OTHER_LENGTH: &str = r#"{"validations":[{"expression":"'ab' == 'abc'"}]}"#;

const ACCENT: &str = r#"{"validations":[{"expression":"size('é') == 1"}]}"#;

const EACH: &str =
    r#"{"validations":[{"expression":"object.l.all(x, !object.t.contains('zq'))"}]}"#;

const LIST: &str = r#"{"l":[1,2,3],"t":"aaaaaaaaaa"}"#;

/// A specification, an object, the end, and the least limit of reads with this end.
///
/// - The keys `spec` and `replicas`, each once for one entry.
/// - The JSON texts `1` and `[1,2]`, which are shorter than two items of 1 byte and 8 more.
/// - Two literals of 2 bytes, then the JSON text `"ab"`.
/// - Literals of 2 and 3 bytes; their JSON texts differ in length.
/// - A literal of 2 bytes, its size, then the JSON text `1`.
/// - The key `l`, twice for two entries. Then for each item the key `t`, twice, the literal, and a
///   search of 2 bytes in 10.
#[rattlefmt::skip]
const LEAST: [(&str, &str, End, u64); 7] = [
    (MOST, FIVE, DENIED, 4 + 8),
    (MOST, THREE, ALLOWED, 4 + 8),
    (MEMBER, "{}", ALLOWED, 1 + 5),
    (SAME_LENGTH, "{}", DENIED, 2 + 2 + 4),
    (OTHER_LENGTH, "{}", DENIED, 2 + 3),
    (ACCENT, "{}", ALLOWED, 2 + 2 + 1),
    (EACH, LIST, ALLOWED, 2 + 3 * (2 + 2 + 12)),
];

#[test]
fn reads_no_more_than_its_limit(rt: HostRuntime) -> Result<(), Fail> {
    for (row, &(spec, object, end, least)) in LEAST.iter().enumerate() {
        let limits = |reads| Limits {
            steps: DEFAULT_STEPS,
            reads,
        };
        for reads in [least, ALL] {
            let is = ends_in(rt.alloc(), spec, object, limits(reads))?;
            assert!(rt; is == end, "row {row}, {reads} reads");
        }
        for reads in [0, least - 1] {
            let is = ends_in(rt.alloc(), spec, object, limits(reads))?;
            assert!(rt; is == OUT_OF_READS, "row {row}, {reads} reads");
        }
    }
    Ok(())
}

const DOUBLES: &str = r#"{"validations":[{"expression":"object.a + object.a == object.a"}]}"#;

/// The text is selected once, which reads the key. Its double would charge too much, and reads
/// 18,000,000 bytes: a limit below this ends the run before that.
#[test]
fn ends_at_the_first_of_two_limits(rt: HostRuntime) -> Result<(), Fail> {
    let letters = "a".repeat(rt.alloc(), 9_000_000)?;
    let object = format!(in rt.alloc(); "{{\"a\":\"{letters}\"}}")?;
    for (reads, end) in [(18_000_000, OUT_OF_READS), (18_000_001, OVER_LIMIT)] {
        let limits = Limits {
            steps: DEFAULT_STEPS,
            reads,
        };
        let is = ends_in(rt.alloc(), DOUBLES, object.as_str(), limits)?;
        assert!(rt; is == end, "{reads} reads");
    }
    Ok(())
}

/// Items of a list, a limit of reads, and the end.
///
/// The key `l` reads 2. The turn for an item reads 1,200,006: the key `t`, twice for two entries, the literal of
/// 2 bytes, and a search of 2 bytes in 1,200,000. So 2^24 bytes have room for 13 turns.
#[rattlefmt::skip]
const TURNS: [(usize, u64, End); 3] = [
    (13, 16_777_216, ALLOWED),
    (14, 16_777_216, OUT_OF_READS),
    (100_000, 16_777_216, OUT_OF_READS),
];

/// The object with a list of this many items and a text of 1,200,000 letters.
fn list_and_letters(alloc: Global, items: usize) -> Result<String, Fail> {
    let letters = "a".repeat(alloc, 1_200_000)?;
    let others = "1,".repeat(alloc, items.saturating_sub(1))?;
    Ok(format!(in alloc; "{{\"l\":[{others}1],\"t\":\"{letters}\"}}")?)
}

#[test]
fn ends_a_loop_of_searches(rt: HostRuntime) -> Result<(), Fail> {
    for &(items, reads, end) in TURNS.iter() {
        let object = list_and_letters(rt.alloc(), items)?;
        let limits = Limits {
            steps: DEFAULT_STEPS,
            reads,
        };
        let is = ends_in(rt.alloc(), EACH, object.as_str(), limits)?;
        assert!(rt; is == end, "{items} items, {reads} reads");
    }
    Ok(())
}
