//! Reviews under random policies, drawn from a seed.
//!
//! A row is a line: a policy's specification, the object under review, the policy's work, the maximum charge, the
//! status and the response, separated by broken bars. `tools/seeded-policies --rows` makes the rows again. Work,
//! charge and response are those of an independently written evaluator. The maximum charge is that of the roots plus
//! 16 for each unit of work. No value of a row is too deep.

mod rows_1;
mod rows_10;
mod rows_2;
mod rows_3;
mod rows_4;
mod rows_5;
mod rows_6;
mod rows_7;
mod rows_8;
mod rows_9;

use super::{answers, is_refused, printed, reviewed};
use std::alloc::{AllocError, Global};
use std::process::Abort;
use std::test::Fail;
use value_store::CHARGE_LIMIT;

/// The number of steps per unit of work within which a program ends.
const STEPS_A_UNIT: u64 = 128;

/// Whether the review of the row is answered within its steps, with its status and response.
fn is_answered(alloc: Global, row: &Row<'_>) -> Result<bool, AllocError> {
    let steps = STEPS_A_UNIT.wrapping_mul(row.work);
    let wanted = printed(alloc, row.response)?;
    let done = reviewed(alloc, row.spec, row.object, steps)?;
    Ok(answers(&done, row.status, &wanted))
}

/// Whether the review of this object is still running after 0 steps.
fn is_unended(alloc: Global, spec: &str, object: &str) -> Result<bool, AllocError> {
    let done = reviewed(alloc, spec, object, 0)?;
    Ok(is_refused(&done, 4, "celbpf: N4\n"))
}

/// The parts of a row.
#[derive(Drop)]
struct Row<'a> {
    spec: &'a str,
    object: &'a str,
    work: u64,
    charge: u64,
    status: u8,
    response: &'a str,
}

/// The row of this line.
fn row_of(line: &str) -> Option<Row<'_>> {
    let mut parts = line.split('¦');
    Some(Row {
        spec: parts.next()?,
        object: parts.next()?,
        work: parts.next()?.parse().ok()?,
        charge: parts.next()?.parse().ok()?,
        status: parts.next()?.parse().ok()?,
        response: parts.next()?,
    })
}

/// Whether the row holds: its charge is within the limit, and the review is answered
/// within its steps, but not within 0 steps.
fn stands(alloc: Global, row: &Row<'_>) -> Result<bool, AllocError> {
    let is_answered = is_answered(alloc, row)?;
    let is_unended = is_unended(alloc, row.spec, row.object)?;
    Ok(row.charge <= CHARGE_LIMIT && is_answered && is_unended)
}

/// Whether the row of this line holds.
fn line_stands(alloc: Global, line: &str) -> Result<bool, AllocError> {
    match row_of(line) {
        Some(row) => stands(alloc, &row),
        None => Ok(false),
    }
}

/// The number of lines whose rows hold, and the number of lines.
fn standing(alloc: Global, lines: &str) -> Result<(u64, u64), AllocError> {
    let (mut standing, mut all) = (0u64, 0u64);
    for line in lines.lines() {
        all = all.wrapping_add(1);
        if line_stands(alloc, line)? {
            standing = standing.wrapping_add(1);
        }
    }
    Ok((standing, all))
}

/// Asserts that there are a hundred lines, whose rows hold.
fn assert_hundred(rt: &impl Abort, alloc: Global, lines: &str) -> Result<(), AllocError> {
    let (held, all) = standing(alloc, lines)?;
    assert!(rt; held == 100 && all == 100, "{held} of {all}");
    Ok(())
}

#[test]
fn answers_the_first_hundred(rt: HostRuntime) -> Result<(), Fail> {
    assert_hundred(&rt, rt.alloc(), rows_1::ROWS)?;
    Ok(())
}

#[test]
fn answers_the_second_hundred(rt: HostRuntime) -> Result<(), Fail> {
    assert_hundred(&rt, rt.alloc(), rows_2::ROWS)?;
    Ok(())
}

#[test]
fn answers_the_third_hundred(rt: HostRuntime) -> Result<(), Fail> {
    assert_hundred(&rt, rt.alloc(), rows_3::ROWS)?;
    Ok(())
}

#[test]
fn answers_the_fourth_hundred(rt: HostRuntime) -> Result<(), Fail> {
    assert_hundred(&rt, rt.alloc(), rows_4::ROWS)?;
    Ok(())
}

#[test]
fn answers_the_fifth_hundred(rt: HostRuntime) -> Result<(), Fail> {
    assert_hundred(&rt, rt.alloc(), rows_5::ROWS)?;
    Ok(())
}

#[test]
fn answers_the_sixth_hundred(rt: HostRuntime) -> Result<(), Fail> {
    assert_hundred(&rt, rt.alloc(), rows_6::ROWS)?;
    Ok(())
}

#[test]
fn answers_the_seventh_hundred(rt: HostRuntime) -> Result<(), Fail> {
    assert_hundred(&rt, rt.alloc(), rows_7::ROWS)?;
    Ok(())
}

#[test]
fn answers_the_eighth_hundred(rt: HostRuntime) -> Result<(), Fail> {
    assert_hundred(&rt, rt.alloc(), rows_8::ROWS)?;
    Ok(())
}

#[test]
fn answers_the_ninth_hundred(rt: HostRuntime) -> Result<(), Fail> {
    assert_hundred(&rt, rt.alloc(), rows_9::ROWS)?;
    Ok(())
}

#[test]
fn answers_the_last_hundred(rt: HostRuntime) -> Result<(), Fail> {
    assert_hundred(&rt, rt.alloc(), rows_10::ROWS)?;
    Ok(())
}
