//! Expressions, variables and emitters that are refused, and the largest that are not.

use super::running::{core, refusal, variable_refusal};
use cel_macros::Core;
use cel_reader::Literal;
use cel_types::{CelType, Scope};
use codegen::{CodeError, Emitter};
use std::alloc::{AllocError, Global};

/// What a call answers if it refuses nothing.
const TAKEN: &str = "taken";

/// The code of the error, if there is one.
fn told(refused: Option<CodeError>) -> &'static str {
    match refused {
        None => TAKEN,
        Some(error) => error.code(),
    }
}

/// How often `1+(` is repeated before `1+1`, and the outcome. A sum has a word for its left operand while the right one
/// is evaluated, so `1+1` needs 2 words, and each repetition 1 more. There are 60.
const SUMS: [(usize, &str); 2] = [(58, TAKEN), (59, "G1")];

/// The text of these sums, if there was memory for what is repeated.
fn text_of_sums(
    alloc: Global,
    before: Result<String, AllocError>,
    behind: Result<String, AllocError>,
) -> Option<String> {
    let before = before.ok()?;
    let behind = behind.ok()?;
    [before.as_str(), "1+1", behind.as_str()]
        .join(alloc, "")
        .ok()
}

/// The expression of these sums.
fn sums(alloc: Global, n: usize) -> Option<Core> {
    let text = text_of_sums(alloc, "1+(".repeat(alloc, n), ")".repeat(alloc, n))?;
    core(alloc, text.as_str())
}

/// The outcome for an expression without variables.
fn outcome(alloc: Global, core: &Core) -> &'static str {
    let mut emitter = Emitter::new(alloc);
    let scope = Scope::new(alloc);
    told(refusal(alloc, core, &scope, &mut emitter))
}

/// The outcome for an expression as a variable.
fn outcome_as_variable(alloc: Global, core: &Core, scope: &Scope) -> &'static str {
    let mut emitter = Emitter::new(alloc);
    told(variable_refusal(alloc, core, scope, &mut emitter))
}

/// The outcomes for this many sums as an expression and as a variable.
fn outcomes(alloc: Global, n: usize) -> Option<(&'static str, &'static str)> {
    let core = sums(alloc, n)?;
    let scope = Scope::new(alloc);
    Some((
        outcome(alloc, &core),
        outcome_as_variable(alloc, &core, &scope),
    ))
}

#[test]
fn sums_need_words(rt: HostRuntime) {
    for &(n, want) in &SUMS {
        assert!(rt; outcomes(rt.alloc(), n) == Some((want, want)), "{n} sums");
    }
}

/// A variable's text, the depth of the variable `v`, and the outcome. A depth is 1 more than that of the variables that
/// are used, and at most 6.
const DEPTHS: [(&str, u64, &str); 3] = [
    ("variables.v", 5, TAKEN),
    ("variables.v", 6, "G2"),
    ("1", 6, TAKEN),
];

/// The scope with the variable `v` of this depth.
fn scope_of(alloc: Global, depth: u64) -> Option<Scope> {
    let mut scope = Scope::new(alloc);
    scope.add("v", CelType::Int, depth).ok()?;
    Some(scope)
}

/// The outcome for an expression as a variable in a scope, if both were made.
fn outcome_in(alloc: Global, core: Option<Core>, scope: Option<Scope>) -> Option<&'static str> {
    let core = core?;
    let scope = scope?;
    Some(outcome_as_variable(alloc, &core, &scope))
}

/// The outcome for a text as a variable, after the variable `v` of this depth.
fn depth_outcome(alloc: Global, text: &str, depth: u64) -> Option<&'static str> {
    outcome_in(alloc, core(alloc, text), scope_of(alloc, depth))
}

#[test]
fn variables_have_depths(rt: HostRuntime) {
    for (text, depth, want) in &DEPTHS {
        let found = depth_outcome(rt.alloc(), text, *depth);
        assert!(rt; found == Some(*want), "{text} at {depth}");
    }
}

/// A name, the number of nodes that are counted before the expression's one, the number of bytes of its text, and the
/// outcome of `finish`. The limits are 512 nodes and 1,048,576 bytes, and the nodes come first.
const ENDINGS: [(&str, u64, usize, &str); 5] = [
    ("nodes of a whole image", 511, 1, TAKEN),
    ("one node more", 512, 1, "G3"),
    ("bytes of a whole image", 0, 1_048_576, TAKEN),
    ("one byte more", 0, 1_048_577, "G4"),
    ("one node and one byte more", 512, 1_048_577, "G3"),
];

/// The literal of a text of this many bytes. No text of an expression is that long, so it is not read.
fn literal(alloc: Global, bytes: usize) -> Option<Core> {
    let text = "a".repeat(alloc, bytes).ok()?;
    Some(Core::Literal(Literal::Text(text)))
}

/// Compiles an expression without variables, and returns whether that succeeded.
fn take_core(alloc: Global, core: &Core, emitter: &mut Emitter) -> bool {
    let scope = Scope::new(alloc);
    refusal(alloc, core, &scope, emitter).is_none()
}

/// The outcome of `finish`.
fn finished(emitter: Emitter) -> &'static str {
    told(emitter.finish().err())
}

/// The outcome of `finish` for a text of this many bytes after this many nodes.
fn ending(alloc: Global, nodes: u64, bytes: usize) -> Option<&'static str> {
    let core = literal(alloc, bytes)?;
    let mut emitter = Emitter::new(alloc);
    emitter.count(nodes);
    if take_core(alloc, &core, &mut emitter) {
        Some(finished(emitter))
    } else {
        None
    }
}

#[test]
fn emitters_end(rt: HostRuntime) {
    for (name, nodes, bytes, want) in &ENDINGS {
        let found = ending(rt.alloc(), *nodes, *bytes);
        assert!(rt; found == Some(*want), "{name}");
    }
}
