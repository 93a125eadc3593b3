//! Measures of expressions, worked out by hand.

use super::{core, repeated};
use cel_macros::Core;
use cel_measures::{depth, need, nodes};
use cel_types::{CelType, Scope};
use std::alloc::{AllocError, Global};
use std::test::Fail;

/// Texts, with their nodes and needs.
#[rattlefmt::skip]
const MEASURED: [(&str, u64, u64); 38] = [
    ("1", 1, 1),
    ("variables.v", 1, 1),
    ("((object))", 1, 1),
    ("object.spec.replicas", 3, 1),
    ("has(object.x)", 2, 1),
    ("object[1 + 1]", 5, 3),
    ("-(1 + 1)", 4, 2),
    ("!!true", 3, 1),
    ("(1 + 1) + 1", 5, 2),
    ("1 + (1 + 1)", 5, 3),
    ("true ? 1 : 1 + 1", 6, 2),
    ("1 + 1 == 2 ? 1 : 2", 8, 2),
    ("size('a')", 2, 1),
    ("size(1 + 1)", 4, 2),
    ("'a'.size()", 2, 1),
    ("'a'.contains('b')", 3, 2),
    ("('a' + 'b').contains('c')", 5, 2),
    ("'a'.contains('b' + 'c')", 5, 3),
    ("[]", 1, 1),
    ("[1, 1 + 1, 1]", 6, 3),
    ("{}", 1, 1),
    ("{'a': 1}", 3, 3),
    ("{'a' + 'b': 1}", 5, 3),
    ("{'a': 1 + 1, 'b': 1}", 7, 4),
    ("[1].all(x, true)", 4, 6),
    ("[1].map(x, x > 0, x)", 7, 7),
    ("[1].map(x, true, x + 1)", 7, 7),
    ("[1].map(x, x) == [1]", 7, 6),
    ("[1] == [1].map(x, x)", 7, 7),
    ("(1 + (1 + 1)).f", 6, 3),
    ("has((1 + (1 + 1)).f)", 6, 3),
    ("(1 + (1 + 1))[0]", 7, 3),
    ("(1 + (1 + 1)).contains('c')", 7, 3),
    ("true ? 1 + (1 + 1) : 1", 8, 3),
    ("{1 + (1 + 1): 1}", 7, 4),
    ("{'a': 1, 'b': 1 + 1}", 7, 4),
    ("(1 + (1 + (1 + (1 + (1 + (1 + (1 + 1))))))).all(x, true)", 17, 8),
    ("(1 + (1 + (1 + (1 + (1 + (1 + (1 + 1))))))).map(x, true, x)", 18, 8),
];

/// Texts, and the depth of a variable with this expression, if `v` has depth 1 and `w` has depth 3.
const DEPTHS: [(&str, u64); 25] = [
    ("1", 1),
    ("object.v", 1),
    ("variables.v", 2),
    ("variables.w.f", 4),
    ("variables.v + variables.w", 4),
    ("variables.w + variables.v", 4),
    ("variables.w ? 1 : variables.v", 4),
    ("size(variables.v)", 2),
    ("'a'.contains(variables.w)", 4),
    ("[1, variables.v, variables.w]", 4),
    ("{'a': variables.w, variables.v: 1}", 4),
    ("[1].map(x, variables.v == x, variables.w)", 4),
    ("has(variables.w.f)", 4),
    ("!variables.w", 4),
    ("object[variables.w]", 4),
    ("variables.w['a']", 4),
    ("variables.w.size()", 4),
    ("true ? variables.w : variables.v", 4),
    ("true ? variables.v : variables.w", 4),
    ("{variables.w: variables.v}", 4),
    ("{'a': 1, 'b': variables.w}", 4),
    ("variables.w.all(x, variables.v)", 4),
    ("[1].all(x, variables.w)", 4),
    ("variables.w.map(x, true, 1)", 4),
    ("[1].map(x, variables.w, 1)", 4),
];

/// Whether the text's expression has these nodes and this need.
fn has_measures(alloc: Global, text: &str, count: u64, words: u64) -> bool {
    match core(alloc, text) {
        Some(core) => {
            let holds = nodes(&core) == count && need(&core) == words;
            drop(core);
            holds
        }
        None => false,
    }
}

/// The scope of the rows.
fn scope(alloc: Global) -> Result<Scope, AllocError> {
    let mut scope = Scope::new(alloc);
    scope.add("v", CelType::Bool, 1)?;
    scope.add("w", CelType::Dyn, 3)?;
    Ok(scope)
}

/// Whether a variable with this expression has this depth in that scope.
fn is_deep(alloc: Global, core: &Core, wanted: u64) -> bool {
    match scope(alloc) {
        Ok(scope) => depth(core, &scope) == wanted,
        Err(_) => false,
    }
}

/// Whether a variable with the text's expression has this depth.
fn has_depth(alloc: Global, text: &str, wanted: u64) -> bool {
    match core(alloc, text) {
        Some(core) => {
            let holds = is_deep(alloc, &core, wanted);
            drop(core);
            holds
        }
        None => false,
    }
}

#[test]
fn counts_nodes_and_words(rt: HostRuntime) {
    for (text, nodes, need) in &MEASURED {
        assert!(rt; has_measures(rt.alloc(), text, *nodes, *need), "row {text}");
    }
}

#[test]
fn measures_depths(rt: HostRuntime) {
    for (text, depth) in &DEPTHS {
        assert!(rt; has_depth(rt.alloc(), text, *depth), "row {text}");
    }
}

/// The text of this many plus signs, nested to the right.
fn sums(alloc: Global, signs: usize) -> Result<String, AllocError> {
    let close = ")".repeat(alloc, signs)?;
    let mut text = repeated(alloc, "1+(", signs, "1")?;
    text.push_str(close.as_str())?;
    text.push_str(" == 1")?;
    Ok(text)
}

#[test]
fn measures_sums_to_the_right(rt: HostRuntime) -> Result<(), Fail> {
    let text = sums(rt.alloc(), 59)?;
    assert!(rt; has_measures(rt.alloc(), text.as_str(), 121, 60));
    Ok(())
}
