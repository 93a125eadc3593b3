//! Operands of every type for each operand in the type table, worked out by hand.

use super::{Answer, has_answer};
use crate::tests::types::grids::collections::{INDEXED, MEMBERS, PAIRED};
use crate::tests::types::grids::logic::{BRANCHES, JUDGED};
use crate::tests::types::grids::macros::{MAPPED, QUANTIFIED, SELECTED};
use crate::tests::types::grids::operators::{COMPUTED, EQUAL, JOINED, ORDERED};
use crate::tests::types::grids::singles::SINGLES;
use crate::tests::types::grids::texts::TESTED;
use std::alloc::{AllocError, Global};
use std::process::Abort;

mod collections;
mod logic;
mod macros;
mod operators;
mod singles;
mod texts;

/// One operand of each type: Bool, Int, String, Null, List, Map, Dyn.
const OPERANDS: [&str; 7] = ["true", "1", "'a'", "null", "[]", "{}", "object"];

/// The letter of the type for an operand of each type, in the order above, or the mark of the error.
type Line = &'static [u8; 7];

/// A line for each type of the first operand, with a column for each type of the second one.
type Grid = [Line; 7];

/// The texts before two operands, between them and after them.
type Form = (&'static str, &'static str, &'static str);

const SUMS: [Form; 1] = [("", " + ", "")];

const COMPUTATIONS: [Form; 4] = [
    ("", " - ", ""),
    ("", " * ", ""),
    ("", " / ", ""),
    ("", " % ", ""),
];

const EQUALITIES: [Form; 2] = [("", " == ", ""), ("", " != ", "")];

const ORDERS: [Form; 4] = [
    ("", " < ", ""),
    ("", " <= ", ""),
    ("", " > ", ""),
    ("", " >= ", ""),
];

const MEMBERSHIPS: [Form; 1] = [("", " in ", "")];

const INDICES: [Form; 1] = [("", "[", "]")];

const PAIRS: [Form; 1] = [("{", ": ", "}")];

const CONNECTIVES: [Form; 2] = [("", " && ", ""), ("", " || ", "")];

const CONDITIONALS: [Form; 2] = [("true ? ", " : ", ""), ("object ? ", " : ", "")];

const TEXT_TESTS: [Form; 3] = [
    ("", ".startsWith(", ")"),
    ("", ".endsWith(", ")"),
    ("", ".contains(", ")"),
];

const QUANTIFIERS: [Form; 3] = [
    ("", ".all(x, ", ")"),
    ("", ".exists(x, ", ")"),
    ("", ".exists_one(x, ", ")"),
];

const SELECTIONS: [Form; 2] = [("", ".filter(x, ", ")"), ("", ".map(x, ", ", 1)")];

const TRANSFORMS: [Form; 2] = [("", ".map(x, ", ")"), ("", ".map(x, true, ", ")")];

/// The form with these operands.
fn filled(alloc: Global, form: Form, first: &str, second: &str) -> Result<String, AllocError> {
    let (front, middle, back) = form;
    format!(in alloc; "{front}{first}{middle}{second}{back}")
}

/// Whether the form with these operands has this result.
fn has_result(alloc: Global, form: Form, first: &str, second: &str, wanted: Answer) -> bool {
    match filled(alloc, form, first, second) {
        Ok(text) => has_answer(alloc, text.as_str(), wanted),
        Err(_) => false,
    }
}

/// The number of second operands before the first with another result.
fn right_columns(alloc: Global, form: Form, first: &str, line: &[u8; 7]) -> usize {
    for i in 0..7 {
        if !has_result(alloc, form, first, OPERANDS[i], line[i]) {
            return i;
        }
    }
    7
}

/// The number of cells before the first with another result.
fn right_cells(alloc: Global, form: Form, grid: &Grid) -> usize {
    for i in 0..7 {
        let right = right_columns(alloc, form, OPERANDS[i], grid[i]);
        if right < 7 {
            return 7 * i + right;
        }
    }
    49
}

#[test]
fn types_of_single_operands(rt: HostRuntime) {
    for &(front, back, line) in &SINGLES {
        let right = right_columns(rt.alloc(), (front, "", back), "", line);
        assert!(rt; right == 7, "{front}_{back}: operand {right}");
    }
}

/// Asserts that each of these forms has these results.
fn assert_forms(rt: &impl Abort, alloc: Global, forms: &[Form], grid: &Grid) {
    for &(front, middle, back) in forms {
        let right = right_cells(alloc, (front, middle, back), grid);
        assert!(rt; right == 49, "{front}_{middle}_{back}: cell {right}");
    }
}

#[test]
fn types_of_operators(rt: HostRuntime) {
    assert_forms(&rt, rt.alloc(), &SUMS, &JOINED);
    assert_forms(&rt, rt.alloc(), &COMPUTATIONS, &COMPUTED);
    assert_forms(&rt, rt.alloc(), &EQUALITIES, &EQUAL);
    assert_forms(&rt, rt.alloc(), &ORDERS, &ORDERED);
}

#[test]
fn types_of_collections(rt: HostRuntime) {
    assert_forms(&rt, rt.alloc(), &MEMBERSHIPS, &MEMBERS);
    assert_forms(&rt, rt.alloc(), &INDICES, &INDEXED);
    assert_forms(&rt, rt.alloc(), &PAIRS, &PAIRED);
}

#[test]
fn types_of_logic(rt: HostRuntime) {
    assert_forms(&rt, rt.alloc(), &CONNECTIVES, &JUDGED);
    assert_forms(&rt, rt.alloc(), &CONDITIONALS, &BRANCHES);
}

#[test]
fn types_of_text_tests(rt: HostRuntime) {
    assert_forms(&rt, rt.alloc(), &TEXT_TESTS, &TESTED);
}

#[test]
fn types_of_macros(rt: HostRuntime) {
    assert_forms(&rt, rt.alloc(), &QUANTIFIERS, &QUANTIFIED);
    assert_forms(&rt, rt.alloc(), &SELECTIONS, &SELECTED);
    assert_forms(&rt, rt.alloc(), &TRANSFORMS, &MAPPED);
}
