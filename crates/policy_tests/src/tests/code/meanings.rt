//! Expressions whose meanings were worked out by hand, as programs that run on a review's roots, with a
//! variable that is 1 and one that is the error. Each row has the reference with which its program exits: 0
//! the error, 2 false, 3 true. If an expression has no type as it is, one operand is wrapped in `dyn`; a
//! value that is not a bool is compared with itself.

use super::running::{end, take, take_variable};
use crate::tests::{assert_none, nulls};
use bpf_machine::Status;
use cel_types::Scope;
use codegen::Emitter;
use serde_json::Value;
use std::alloc::Global;

/// Arithmetic and concatenation.
const ARITHMETIC: [(&str, u64); 27] = [
    ("2 + 3 == 5", 3),
    ("9223372036854775807 + 1", 0),
    ("-9223372036854775808 - 1", 0),
    ("4611686018427387904 * 2", 0),
    ("-3 * 5 == -15", 3),
    ("-(-9223372036854775808)", 0),
    ("-(5) == -5", 3),
    ("-9223372036854775808 / -1", 0),
    ("-7 / 2 == -3", 3),
    ("1 / 0", 0),
    ("-7 % 2 == -1", 3),
    ("7 % -2 == 1", 3),
    ("-9223372036854775808 % -1", 0),
    ("1 % 0", 0),
    ("'a' + 'b' == 'ab'", 3),
    ("[1] + [2] == [1, 2]", 3),
    ("dyn('a') + 1", 0),
    ("1/0 + 1", 0),
    ("2 - 5 == -3", 3),
    ("-9223372036854775807 - 1 == -9223372036854775808", 3),
    ("9223372036854775806 + 1 == 9223372036854775807", 3),
    ("7 / 2 == 3", 3),
    ("dyn('a') - dyn('a')", 0),
    ("-dyn('a')", 0),
    ("dyn([1]) + 'a'", 0),
    ("7 / -1 == -7", 3),
    ("7 % -1 == 0", 3),
];

/// Comparison and membership.
const COMPARISON: [(&str, u64); 39] = [
    ("dyn(1) == 'a'", 2),
    ("dyn(true) == 1", 2),
    ("null == null", 3),
    ("{'a':[1]} == {'a':[1]}", 3),
    ("1/0 == 1", 0),
    ("1 != 2", 3),
    ("-1 < 0", 3),
    ("2 <= 2", 3),
    ("2 > 2", 2),
    ("3 >= 2", 3),
    ("'\\uffff' < '\\U00010000'", 3),
    ("false < true", 3),
    ("dyn(null) < dyn(null)", 0),
    ("dyn(1) < 'a'", 0),
    ("2 in [1, 2]", 3),
    ("'a' in [1, 2]", 2),
    ("'a' in {'a':null}", 3),
    ("dyn(null) in {'a':1}", 0),
    ("dyn(1) in dyn(1)", 0),
    ("dyn(1) != 'a'", 3),
    ("1/0 != 1", 0),
    ("[1, 2] == [2, 1]", 2),
    ("'a' < 'ab'", 3),
    ("true <= true", 3),
    ("dyn([1]) < dyn([2])", 0),
    ("dyn(null) >= 1", 0),
    ("'b' in {'a':1}", 2),
    ("1/0 in [1]", 0),
    ("'a' in dyn('abc')", 0),
    ("2 >= 2", 3),
    ("2 >= 3", 2),
    ("2 < 2", 2),
    ("3 > 2", 3),
    ("2 <= 1", 2),
    ("1 != 1", 2),
    ("2 > 3", 2),
    ("3 < 2", 2),
    ("'b' < 'a'", 2),
    ("true < false", 2),
];

/// Literals of lists and maps, functions and methods.
const LITERALS: [(&str, u64); 29] = [
    ("[1, 1/0]", 0),
    ("{'a':1,'a':2} == {}", 0),
    ("{dyn(1):2} == {}", 0),
    ("{'a':1/0}", 0),
    ("{'b':true}.b && true", 3),
    ("{'b':1,'a':2} == {'a':2,'b':1}", 3),
    ("size('é') == 1", 3),
    ("[1, 2].size() == 2", 3),
    ("size({'a':1}) == 1", 3),
    ("size(dyn(1))", 0),
    ("'abc'.startsWith('ab')", 3),
    ("'a'.startsWith('ab')", 2),
    ("'abc'.endsWith('bc')", 3),
    ("'abc'.contains('b')", 3),
    ("''.contains('')", 3),
    ("'abc'.contains('ac')", 2),
    ("dyn(1).startsWith('a')", 0),
    ("string(-12) == '-12'", 3),
    ("string('a') == 'a'", 3),
    ("string(dyn(true))", 0),
    ("[1, [2]] == [1, [2]]", 3),
    ("{dyn(1/0): 1}", 0),
    ("size(dyn(null))", 0),
    ("size([1/0])", 0),
    ("'abc'.endsWith('ab')", 2),
    ("'a'.contains(dyn(1))", 0),
    ("string(-9223372036854775808) == '-9223372036854775808'", 3),
    ("dyn(1/0)", 0),
    ("'abc'.startsWith('bc')", 2),
];

/// Logic and conditionals.
const LOGIC: [(&str, u64); 29] = [
    ("1/0 == 1 || true", 3),
    ("true || 1/0 == 1", 3),
    ("1/0 == 1 || false", 0),
    ("dyn(1) || true", 3),
    ("true && 1/0 == 1", 0),
    ("1/0 == 1 && false", 2),
    ("dyn(1) && true", 0),
    ("true && true", 3),
    ("!true", 2),
    ("!dyn(1)", 0),
    ("(false ? 1/0 : 7) == 7", 3),
    ("dyn(1) ? 2 : 3", 0),
    ("(1/0 == 1) ? 2 : 3", 0),
    ("false && 1/0 == 1", 2),
    ("dyn(1) && false", 2),
    ("false || dyn(1)", 0),
    ("false || false", 2),
    ("!(1/0 == 1)", 0),
    ("(true ? 1 : 1/0) == 1", 3),
    ("false ? 1 : 1/0", 0),
    ("true && false", 2),
    ("false && true", 2),
    ("false && false", 2),
    ("dyn(1) && dyn(1)", 0),
    ("true || true", 3),
    ("true || false", 3),
    ("false || true", 3),
    ("dyn(1) || dyn(1)", 0),
    ("!false", 3),
];

/// Macros.
const MACROS: [(&str, u64); 34] = [
    ("[0,2].exists(x, 4/x == 2)", 3),
    ("[0,2].exists_one(x, 4/x == 2)", 0),
    ("[1,2].exists_one(x, x == 2)", 3),
    ("[2,2].exists_one(x, x == 2)", 2),
    ("[].all(x, x)", 3),
    ("[].exists(x, x)", 2),
    ("{'a':1,'b':2}.all(k, k == 'a' ? 1/0 == 1 : false)", 2),
    ("[0,1].all(x, 1/x == 1)", 0),
    ("[1].exists(x, x)", 0),
    ("[1].map(x, x > 0, x + 1) == [2]", 3),
    ("[0,1].map(x, x > 0, 1/x) == [1]", 3),
    ("[0,1].map(x, 1/x)", 0),
    ("{'b':1,'a':2}.map(k, k) == ['a','b']", 3),
    ("[1,2,3].filter(x, x % 2 == 1) == [1,3]", 3),
    ("[1].filter(x, x)", 0),
    ("[1].all(x, [2].all(x, x == 2))", 3),
    ("[1].all(x, [2].all(y, y == 2) && x == 1)", 3),
    ("[1].map(i, object.spec.on) == [true]", 3),
    ("dyn(1).all(x, true)", 0),
    ("[1/0].all(x, true)", 0),
    ("[].exists_one(x, x)", 2),
    ("[1].exists_one(x, x)", 0),
    ("[1, 2].exists(x, x == 3)", 2),
    ("{'a':1}.exists(k, k == 'a')", 3),
    ("{'a':1}.filter(k, true) == ['a']", 3),
    ("[0].filter(x, 1/x == 1)", 0),
    ("[1].map(x, x, x)", 0),
    ("[1].all(x, [2].all(x, x == 2) && x == 1)", 3),
    ("object.spec.all(k, has(object.spec.on))", 3),
    ("dyn('ab').all(x, true)", 0),
    ("[1,2,3].exists_one(x, x == 1)", 3),
    ("dyn([true, 1]).filter(x, x)", 0),
    ("object.spec.all(k, object.spec.on) && object.spec.on", 3),
    ("object.spec.filter(k, k == 'on')[0] in object.spec", 3),
];

/// Selection, indices and names.
const SELECTION: [(&str, u64); 30] = [
    ("object.spec.on && true", 3),
    ("object.spec.replicas <= 3", 2),
    ("object.status", 0),
    ("oldObject.a", 0),
    ("has(object.spec.on)", 3),
    ("has(object.spec.off)", 2),
    ("has({'a':null}.a)", 3),
    ("has(dyn([1]).a)", 0),
    ("[5, 6][1] == 6", 3),
    ("[5][1]", 0),
    ("[5][-1]", 0),
    ("object['spec']['replicas'] == 5", 3),
    ("dyn({'a':1})[0]", 0),
    ("variables.one + 1 == 2", 3),
    ("variables.wrong == 1 || true", 3),
    ("oldObject == null", 3),
    ("params.limit == 3", 3),
    ("namespaceObject.name == 'default'", 3),
    ("request.uid == 'u1'", 3),
    ("has(object.status.phase)", 0),
    ("{'a':1}['b']", 0),
    ("dyn([5])['a']", 0),
    ("dyn('abc')[0]", 0),
    ("dyn(1).a", 0),
    ("object.spec.on && object.spec.replicas > 4", 3),
    ("params.limit - params.limit == 0", 3),
    ("object.status.on || object.status.off || object.spec.on", 3),
    ("object.spec == object.spec", 3),
    ("has(object.spec.on) && object.spec.on", 3),
    ("params.limit in [object.spec.replicas, params.limit]", 3),
];

/// The tables.
const TABLES: [&[(&'static str, u64)]; 6] = [
    &ARITHMETIC,
    &COMPARISON,
    &LITERALS,
    &LOGIC,
    &MACROS,
    &SELECTION,
];

/// The documents of the roots of the rows.
const DOCUMENTS: [&str; 5] = [
    "{\"spec\":{\"on\":true,\"replicas\":5}}",
    "null",
    "{\"limit\":3}",
    "{\"name\":\"default\"}",
    "{\"uid\":\"u1\"}",
];

/// Reads the roots of the rows, and returns whether that succeeded.
fn read_roots(alloc: Global, roots: &mut [Value; 5]) -> bool {
    for i in 0..5 {
        match Value::from_str(alloc, DOCUMENTS[i]) {
            Ok(root) => roots[i] = root,
            Err(_) => return false,
        }
    }
    true
}

/// Compiles the two variables and the text's expression, and returns whether that succeeded.
fn take_all(alloc: Global, text: &str, emitter: &mut Emitter) -> bool {
    let mut scope = Scope::new(alloc);
    take_variable(alloc, "one", "1", &mut scope, emitter)
        && take_variable(alloc, "wrong", "1/0", &mut scope, emitter)
        && take(alloc, text, &scope, emitter)
}

/// The end of the program of the text's expression, with the two variables.
fn end_of(alloc: Global, text: &str) -> Option<Status> {
    let mut emitter = Emitter::new(alloc);
    let mut roots = nulls();
    if take_all(alloc, text, &mut emitter) && read_roots(alloc, &mut roots) {
        end(alloc, emitter, &roots, 10_000)
    } else {
        None
    }
}

/// The first of these rows whose program exits with something else.
fn wrong_row(alloc: Global, rows: &[(&'static str, u64)]) -> Option<&'static str> {
    for &(text, reference) in rows {
        if end_of(alloc, text) != Some(Status::Exited(reference)) {
            return Some(text);
        }
    }
    None
}

#[test]
fn expressions_run(rt: HostRuntime) {
    for rows in &TABLES {
        assert_none(&rt, Ok(wrong_row(rt.alloc(), rows)));
    }
}
