//! Variables, and expressions that use them, as programs that run on five null roots or on an object.

use super::running::{end, slots, take, take_variable};
use crate::tests::{assert_none, nulls};
use bpf_machine::Status;
use cel_types::Scope;
use codegen::Emitter;
use serde_json::Value;
use std::alloc::Global;

/// More steps than any of these programs needs.
const STEPS: u64 = 10_000;

/// Variables in order, each with its name.
const VARIABLES: [(&str, &str); 4] = [
    ("two", "1 + 1"),
    ("wrong", "1/0"),
    ("three", "variables.two + 1"),
    ("texts", "['a', 'b'].map(x, x + 'c')"),
];

/// Texts that use these variables, and the reference with which their programs exit.
const USES: [(&str, u64); 6] = [
    ("variables.three == 3 && variables.two == 2", 3),
    ("variables.wrong == 1", 0),
    ("variables.wrong == 1 || variables.wrong == 2 || true", 3),
    ("[1, 2, 3].all(x, x <= variables.three)", 3),
    ("variables.texts == ['ac', 'bc']", 3),
    ("[1].exists(x, variables.three == x)", 2),
];

/// Texts over the object `TWO_FIELDS`, the number of slots of their programs, the number of steps, and the reference
/// with which they exit, worked out by hand. A field has 5 slots and takes 4 steps: its map to R1, its name to R2 and
/// R3, helper 5. An int has 3 slots and takes 2 steps; a store, a copy, a load, any other helper and the exit have 1
/// slot and take 1 step each. So the first row keeps `object.spec` (6 slots, 5 steps), evaluates `a` and stores it
/// (6, 5), evaluates `b` (5, 4), moves both to their registers (2, 2), calls helper 10, copies and calls helper 23
/// (3, 3), and exits (1, 1). The second keeps the error, and the third, which uses `object.spec` once, keeps nothing.
const KEPT: [(&str, usize, u64, u64); 3] = [
    ("object.spec.a <= object.spec.b", 23, 20, 3),
    ("object.status.a == object.status.b", 21, 18, 0),
    ("object.spec.a == 1", 18, 15, 3),
];

/// The object of these rows.
const TWO_FIELDS: &str = "{\"spec\":{\"a\":1,\"b\":2}}";

/// Compiles the variables, and returns whether that succeeded.
fn take_variables(alloc: Global, scope: &mut Scope, emitter: &mut Emitter) -> bool {
    for (name, of) in &VARIABLES {
        if !take_variable(alloc, name, of, scope, emitter) {
            return false;
        }
    }
    true
}

/// The end of the program of the text's expression, with the variables.
fn end_with_variables(alloc: Global, text: &str) -> Option<Status> {
    let mut emitter = Emitter::new(alloc);
    if take_with_variables(alloc, text, &mut emitter) {
        end(alloc, emitter, &nulls(), STEPS)
    } else {
        None
    }
}

/// Compiles the variables and the text's expression, and returns whether that succeeded.
fn take_with_variables(alloc: Global, text: &str, emitter: &mut Emitter) -> bool {
    let mut scope = Scope::new(alloc);
    take_variables(alloc, &mut scope, emitter) && take(alloc, text, &scope, emitter)
}

/// The text of an object with ten thousand items.
fn text_of_items(alloc: Global) -> Option<String> {
    let twos = ",2".repeat(alloc, 9_999).ok()?;
    ["{\"items\":[1", twos.as_str(), "]}"].join(alloc, "").ok()
}

/// That object.
fn object_of_items(alloc: Global) -> Option<Value> {
    let text = text_of_items(alloc)?;
    Value::from_str(alloc, text.as_str()).ok()
}

/// An emitter with only the text's expression.
fn emitter_of(alloc: Global, text: &str) -> Option<Emitter> {
    let mut emitter = Emitter::new(alloc);
    if take_alone(alloc, text, &mut emitter) {
        Some(emitter)
    } else {
        None
    }
}

/// Compiles the text's expression without variables, and returns whether that succeeded.
fn take_alone(alloc: Global, text: &str, emitter: &mut Emitter) -> bool {
    let scope = Scope::new(alloc);
    take(alloc, text, &scope, emitter)
}

/// The end of the program of the text's expression on this object, within this many steps.
fn end_on(alloc: Global, object: Value, text: &str, steps: u64) -> Option<Status> {
    let roots = [object, Value::Null, Value::Null, Value::Null, Value::Null];
    match emitter_of(alloc, text) {
        Some(emitter) => end(alloc, emitter, &roots, steps),
        None => None,
    }
}

/// The end of the search for the first of many items.
fn end_of_search(alloc: Global) -> Option<Status> {
    let object = object_of_items(alloc)?;
    end_on(alloc, object, "object.items.exists(x, x == 1)", 1_024)
}

/// The end of the program of the text's expression on the object of two fields, within this many steps.
fn end_on_fields(alloc: Global, text: &str, steps: u64) -> Option<Status> {
    let object = Value::from_str(alloc, TWO_FIELDS).ok()?;
    end_on(alloc, object, text, steps)
}

/// The number of slots of the program of the text's expression.
fn slots_of(alloc: Global, text: &str) -> Option<usize> {
    slots(emitter_of(alloc, text)?)
}

/// The first of the texts whose program exits with something else.
fn wrong_use(alloc: Global) -> Option<&'static str> {
    for &(text, reference) in &USES {
        if end_with_variables(alloc, text) != Some(Status::Exited(reference)) {
            return Some(text);
        }
    }
    None
}

#[test]
fn variables_leave_their_values(rt: HostRuntime) {
    assert_none(&rt, Ok(wrong_use(rt.alloc())));
}

/// Whether a row's program has its slots, and exits after its steps, but not before.
fn is_kept(alloc: Global, row: &(&str, usize, u64, u64)) -> bool {
    let &(text, slots, steps, reference) = row;
    slots_of(alloc, text) == Some(slots)
        && end_on_fields(alloc, text, steps.wrapping_sub(1)) == Some(Status::Running)
        && end_on_fields(alloc, text, steps) == Some(Status::Exited(reference))
}

fn wrong_field(alloc: Global) -> Option<&'static str> {
    for row in &KEPT {
        if !is_kept(alloc, row) {
            return Some(row.0);
        }
    }
    None
}

#[test]
fn a_field_that_is_kept_is_walked_once(rt: HostRuntime) {
    assert_none(&rt, Ok(wrong_field(rt.alloc())));
}

#[test]
fn exists_leaves_at_the_first_item(rt: HostRuntime) {
    assert!(rt; end_of_search(rt.alloc()) == Some(Status::Exited(3)));
}
