//! The rows of the type table, with operands of each type that they accept, with Dyn as each operand, and
//! with one that they refuse; worked out by hand.

use super::{core, repeated};
use cel_macros::Core;
use cel_types::{CelType, Scope, TypeError, check};
use std::alloc::{AllocError, Global};
use std::process::Abort;
use std::test::Fail;

mod grids;

/// A letter for the type of an expression, or a mark for its error.
type Answer = u8;

const BOOL: Answer = b'B';

const INT: Answer = b'I';

const STRING: Answer = b'S';

const NULL: Answer = b'N';

const LIST: Answer = b'L';

const MAP: Answer = b'M';

const DYN: Answer = b'D';

const UnknownIdentifier: Answer = b'?';

const NoMatchingOverload: Answer = b'-';

const MisusedVariables: Answer = b'!';

/// Literals and names.
const NAMES: [(&str, Answer); 31] = [
    ("null", NULL),
    ("true", BOOL),
    ("1", INT),
    ("'a'", STRING),
    ("[]", LIST),
    ("[1, 'a', object]", LIST),
    ("[1, x]", UnknownIdentifier),
    ("{}", MAP),
    ("{'a': 1, object.k: null}", MAP),
    ("{'a': 1, 1: 2}", NoMatchingOverload),
    ("{1: x}", UnknownIdentifier),
    ("object", DYN),
    ("oldObject", DYN),
    ("params", DYN),
    ("namespaceObject", DYN),
    ("request", DYN),
    ("x", UnknownIdentifier),
    ("v", UnknownIdentifier),
    ("variables", MisusedVariables),
    ("variables.v", INT),
    ("variables.s", STRING),
    ("variables.x", MisusedVariables),
    ("variables['v']", MisusedVariables),
    ("has(variables.v)", MisusedVariables),
    ("false", BOOL),
    ("[x, variables]", UnknownIdentifier),
    ("[variables, x]", MisusedVariables),
    ("{x: variables}", UnknownIdentifier),
    ("{variables: x}", MisusedVariables),
    ("{'a': variables, x: 1}", MisusedVariables),
    ("{1: 2, 'a': x}", UnknownIdentifier),
];

/// Selections and indices.
const SELECTIONS: [(&str, Answer); 22] = [
    ("{}.f", DYN),
    ("object.f", DYN),
    ("[].f", NoMatchingOverload),
    ("variables.s.f", NoMatchingOverload),
    ("has({}.f)", BOOL),
    ("has(object.x)", BOOL),
    ("has('a'.f)", NoMatchingOverload),
    ("[][0]", DYN),
    ("[][object]", DYN),
    ("[]['a']", NoMatchingOverload),
    ("{}['a']", DYN),
    ("{}[object]", DYN),
    ("{'a': 1}[0]", NoMatchingOverload),
    ("object[0]", DYN),
    ("object['a']", DYN),
    ("object[object]", DYN),
    ("object[true]", NoMatchingOverload),
    ("'a'[0]", NoMatchingOverload),
    ("x[1 + 'a']", UnknownIdentifier),
    ("object[x]", UnknownIdentifier),
    ("x[variables]", UnknownIdentifier),
    ("variables[x]", MisusedVariables),
];

/// Operators on ints, and sums.
const ARITHMETIC: [(&str, Answer); 31] = [
    ("-(1)", INT),
    ("-object", INT),
    ("-'a'", NoMatchingOverload),
    ("1 + 2", INT),
    ("1 + object", INT),
    ("object + 1", INT),
    ("'a' + 'b'", STRING),
    ("'a' + object", STRING),
    ("object + 'a'", STRING),
    ("[] + []", LIST),
    ("[] + object", LIST),
    ("object + []", LIST),
    ("object + params", DYN),
    ("'a' + 1", NoMatchingOverload),
    ("[] + 'a'", NoMatchingOverload),
    ("true + true", NoMatchingOverload),
    ("object + null", NoMatchingOverload),
    ("{} + object", NoMatchingOverload),
    ("2 - 1", INT),
    ("object - 1", INT),
    ("1 - object", INT),
    ("object - params", INT),
    ("'a' - 'a'", NoMatchingOverload),
    ("2 * object", INT),
    ("2 * []", NoMatchingOverload),
    ("object / 2", INT),
    ("true / 2", NoMatchingOverload),
    ("object % object", INT),
    ("null % 2", NoMatchingOverload),
    ("x + (1 + 'a')", UnknownIdentifier),
    ("(1 + 'a') + x", NoMatchingOverload),
];

/// Equality, order and membership.
const RELATIONS: [(&str, Answer); 37] = [
    ("1 == 2", BOOL),
    ("'a' != 'b'", BOOL),
    ("true == false", BOOL),
    ("null != null", BOOL),
    ("[] == [1]", BOOL),
    ("{} != {}", BOOL),
    ("object == 1", BOOL),
    ("null != object", BOOL),
    ("dyn(1) == 'a'", BOOL),
    ("object == params", BOOL),
    ("1 == 'a'", NoMatchingOverload),
    ("[] != {}", NoMatchingOverload),
    ("1 < 2", BOOL),
    ("'a' <= 'b'", BOOL),
    ("true > false", BOOL),
    ("1 >= object", BOOL),
    ("object < 'a'", BOOL),
    ("true <= object", BOOL),
    ("object > params", BOOL),
    ("1 >= 'a'", NoMatchingOverload),
    ("null < null", NoMatchingOverload),
    ("[] <= []", NoMatchingOverload),
    ("object > null", NoMatchingOverload),
    ("{} >= object", NoMatchingOverload),
    ("1 < 2 < 3", NoMatchingOverload),
    ("true < false < true", BOOL),
    ("1 in []", BOOL),
    ("{} in object", BOOL),
    ("object in []", BOOL),
    ("'a' in {}", BOOL),
    ("object in {}", BOOL),
    ("null in {}", NoMatchingOverload),
    ("'a' in 'a'", NoMatchingOverload),
    ("object in 1", NoMatchingOverload),
    ("variables == x", MisusedVariables),
    ("x in variables", UnknownIdentifier),
    ("1 in [x]", UnknownIdentifier),
];

/// Logic and conditionals.
const LOGIC: [(&str, Answer); 27] = [
    ("!true", BOOL),
    ("!object", BOOL),
    ("!1", NoMatchingOverload),
    ("true && false", BOOL),
    ("object && true", BOOL),
    ("true && object", BOOL),
    ("object && params", BOOL),
    ("1 && true", NoMatchingOverload),
    ("true || false", BOOL),
    ("object || true", BOOL),
    ("false || object", BOOL),
    ("object || params", BOOL),
    ("true || 'a'", NoMatchingOverload),
    ("true ? 1 : 2", INT),
    ("object ? 'a' : 'b'", STRING),
    ("false ? null : null", NULL),
    ("true ? [] : [1]", LIST),
    ("true ? {} : {'a': 1}", MAP),
    ("true ? true : false", BOOL),
    ("true ? 1 : object", DYN),
    ("true ? object : 'a'", DYN),
    ("true ? object : params", DYN),
    ("1 ? 2 : 3", NoMatchingOverload),
    ("true ? 1 : null", NoMatchingOverload),
    ("x ? variables : 1 + 'a'", UnknownIdentifier),
    ("true ? variables : x", MisusedVariables),
    ("true ? 1 : 1 + 'a'", NoMatchingOverload),
];

/// Functions and methods.
const FUNCTIONS: [(&str, Answer); 40] = [
    ("size('a')", INT),
    ("size([])", INT),
    ("size({})", INT),
    ("size(object)", INT),
    ("size(1)", NoMatchingOverload),
    ("'a'.size()", INT),
    ("[].size()", INT),
    ("{}.size()", INT),
    ("object.size()", INT),
    ("true.size()", NoMatchingOverload),
    ("string(1)", STRING),
    ("string('a')", STRING),
    ("string(object)", STRING),
    ("string(null)", NoMatchingOverload),
    ("dyn(1)", DYN),
    ("dyn([])", DYN),
    ("dyn(object)", DYN),
    ("'a'.startsWith('b')", BOOL),
    ("object.startsWith('b')", BOOL),
    ("'a'.startsWith(object)", BOOL),
    ("'a'.startsWith(1)", NoMatchingOverload),
    ("object.endsWith(params)", BOOL),
    ("[].endsWith('a')", NoMatchingOverload),
    ("'ab'.contains('b')", BOOL),
    ("[1].contains(1)", NoMatchingOverload),
    ("f(1)", NoMatchingOverload),
    ("f(x)", UnknownIdentifier),
    ("size()", NoMatchingOverload),
    ("size('a', 'b')", NoMatchingOverload),
    ("size('a', x)", UnknownIdentifier),
    ("'a'.size('b')", NoMatchingOverload),
    ("'a'.string()", NoMatchingOverload),
    ("'a'.startsWith()", NoMatchingOverload),
    ("'a'.startsWith('b', x)", UnknownIdentifier),
    ("x.f(variables)", UnknownIdentifier),
    ("object.has(variables)", MisusedVariables),
    ("'a'.f('b')", NoMatchingOverload),
    ("f(x, variables)", UnknownIdentifier),
    ("f(variables, x)", MisusedVariables),
    ("object.f(x, variables)", UnknownIdentifier),
];

/// Macros over a range.
const MACROS: [(&str, Answer); 35] = [
    ("[1].all(x, true)", BOOL),
    ("{}.all(x, x)", BOOL),
    ("object.all(x, x)", BOOL),
    ("object.all(i, 1)", NoMatchingOverload),
    ("[1].exists(x, x == 1)", BOOL),
    ("{}.exists(x, object)", BOOL),
    ("'a'.exists(x, true)", NoMatchingOverload),
    ("object.exists_one(x, false)", BOOL),
    ("[1].exists_one(x, null)", NoMatchingOverload),
    ("[1].filter(x, true)", LIST),
    ("{}.filter(x, x)", LIST),
    ("object.filter(x, x)", LIST),
    ("[1].filter(x, 'a')", NoMatchingOverload),
    ("1.filter(x, true)", NoMatchingOverload),
    ("[1].map(x, 1)", LIST),
    ("{}.map(x, null)", LIST),
    ("object.map(x, x)", LIST),
    ("true.map(x, x)", NoMatchingOverload),
    ("[1].map(x, true, 1)", LIST),
    ("{}.map(x, x, x)", LIST),
    ("object.map(x, x, 'a')", LIST),
    ("[1].map(x, 1, x)", NoMatchingOverload),
    ("null.map(x, true, x)", NoMatchingOverload),
    ("[x].all(x, true)", UnknownIdentifier),
    ("[1].all(x, y)", UnknownIdentifier),
    ("y.all(x, 1 + 'a')", UnknownIdentifier),
    ("[1].map(x, [2].all(y, x == y))", LIST),
    ("[1].map(x, [2].all(y, true), y)", UnknownIdentifier),
    ("[1].all(x, x && x == 1)", BOOL),
    ("object.exists(x, x)", BOOL),
    ("[1].exists_one(x, x == 1)", BOOL),
    ("{}.exists_one(x, x)", BOOL),
    ("x.map(i, variables, 1)", UnknownIdentifier),
    ("[1].map(i, x, variables)", UnknownIdentifier),
    ("[1].map(i, variables, x)", MisusedVariables),
];

/// A scope in which `variables.v` is an int and `variables.s` a text.
fn scope(alloc: Global) -> Result<Scope, AllocError> {
    let mut scope = Scope::new(alloc);
    scope.add("v", CelType::Int, 1)?;
    scope.add("s", CelType::String, 2)?;
    Ok(scope)
}

/// The letter or the mark of the checker's result.
fn letter(found: Result<CelType, TypeError>) -> Answer {
    match found {
        Ok(CelType::Bool) => BOOL,
        Ok(CelType::Int) => INT,
        Ok(CelType::String) => STRING,
        Ok(CelType::Null) => NULL,
        Ok(CelType::List) => LIST,
        Ok(CelType::Map) => MAP,
        Ok(CelType::Dyn) => DYN,
        Err(TypeError::UnknownIdentifier) => UnknownIdentifier,
        Err(TypeError::NoMatchingOverload) => NoMatchingOverload,
        Err(TypeError::MisusedVariables) => MisusedVariables,
    }
}

/// The checker's result for the expression in that scope.
fn answer_for(alloc: Global, core: &Core) -> Option<Answer> {
    let scope = scope(alloc).ok()?;
    Some(letter(check(core, &scope)))
}

/// The type of the text's expression in that scope, or its error.
fn answer(alloc: Global, text: &str) -> Option<Answer> {
    let core = core(alloc, text)?;
    let found = answer_for(alloc, &core);
    drop(core);
    found
}

/// Whether the text's expression has this type or error.
fn has_answer(alloc: Global, text: &str, wanted: Answer) -> bool {
    answer(alloc, text) == Some(wanted)
}

/// Asserts each of these types and errors.
fn assert_answers(rt: &impl Abort, alloc: Global, rows: &[(&str, Answer)]) {
    for (text, wanted) in rows {
        assert!(rt; has_answer(alloc, text, *wanted), "row {text}");
    }
}

#[test]
fn types_expressions(rt: HostRuntime) {
    assert_answers(&rt, rt.alloc(), &NAMES);
    assert_answers(&rt, rt.alloc(), &SELECTIONS);
    assert_answers(&rt, rt.alloc(), &ARITHMETIC);
    assert_answers(&rt, rt.alloc(), &RELATIONS);
    assert_answers(&rt, rt.alloc(), &LOGIC);
    assert_answers(&rt, rt.alloc(), &FUNCTIONS);
    assert_answers(&rt, rt.alloc(), &MACROS);
}

#[test]
fn types_many_negations(rt: HostRuntime) -> Result<(), Fail> {
    let text = repeated(rt.alloc(), "!", 4095, "true")?;
    assert!(rt; has_answer(rt.alloc(), text.as_str(), BOOL));
    Ok(())
}
