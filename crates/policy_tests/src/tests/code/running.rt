//! From texts to the results of their programs, if nothing is refused on the way. Each step with a large contract has a
//! function of its own.

use bpf_machine::{Machine, Status};
use cel_macros::{Core, expand};
use cel_measures::depth;
use cel_reader::{Expr, read};
use cel_types::{CelType, Scope, check};
use codegen::{CodeError, Emitter, expression, variable};
use guest_memory::Guest;
use loader::Image;
use serde_json::Value;
use std::alloc::Global;
use value_store::PlainTable;

/// The text's tree.
fn tree(alloc: Global, text: &str) -> Option<Expr> {
    read(alloc, text).ok()
}

/// The text's expression.
pub(super) fn core(alloc: Global, text: &str) -> Option<Core> {
    expand(alloc, tree(alloc, text)?).ok()
}

/// The expression's type.
fn type_of(core: &Core, scope: &Scope) -> Option<CelType> {
    check(core, scope).ok()
}

/// The compiler's error for the expression, if any.
pub(super) fn refusal(
    alloc: Global,
    core: &Core,
    scope: &Scope,
    emitter: &mut Emitter,
) -> Option<CodeError> {
    expression(alloc, core, scope, emitter).err()
}

/// The compiler's error for the expression as a variable, if any.
pub(super) fn variable_refusal(
    alloc: Global,
    core: &Core,
    scope: &Scope,
    emitter: &mut Emitter,
) -> Option<CodeError> {
    variable(alloc, core, scope, emitter).err()
}

/// Compiles the text's expression, and returns whether that succeeded.
pub(super) fn take(alloc: Global, text: &str, scope: &Scope, emitter: &mut Emitter) -> bool {
    let Some(core) = core(alloc, text) else {
        return false;
    };
    type_of(&core, scope).is_some() && refusal(alloc, &core, scope, emitter).is_none()
}

/// Declares a variable, and returns whether the allocation succeeded.
fn declare(scope: &mut Scope, name: &str, cel_type: CelType, depth: u64) -> bool {
    scope.add(name, cel_type, depth).is_ok()
}

/// Compiles the text's expression as a variable, and returns its type and its depth.
fn take_next(
    alloc: Global,
    text: &str,
    scope: &Scope,
    emitter: &mut Emitter,
) -> Option<(CelType, u64)> {
    let core = core(alloc, text)?;
    let found = type_of(&core, scope)?;
    match variable_refusal(alloc, &core, scope, emitter) {
        Some(_) => None,
        None => Some((found, depth(&core, scope))),
    }
}

/// Compiles the text's expression as the next variable, with this name, and returns whether that succeeded.
pub(super) fn take_variable(
    alloc: Global,
    name: &str,
    text: &str,
    scope: &mut Scope,
    emitter: &mut Emitter,
) -> bool {
    match take_next(alloc, text, &*scope, emitter) {
        Some((found, deep)) => declare(scope, name, found, deep),
        None => false,
    }
}

/// The number of slots of the emitter's code, including its exit.
pub(super) fn slots(emitter: Emitter) -> Option<usize> {
    let (code, _) = emitter.finish().ok()?;
    Some(code.len() / 8)
}

/// The image of the emitter's code.
fn image(emitter: Emitter) -> Option<Image> {
    let (code, constants) = emitter.finish().ok()?;
    Image::new_2(code, constants).ok()
}

/// The table of these roots.
fn values(alloc: Global, roots: &[Value; 5]) -> Option<PlainTable> {
    PlainTable::of_roots(alloc, roots).ok()
}

/// The machine at the start of this image with these values, if both were made.
fn started(
    alloc: Global,
    image: Option<Image>,
    values: Option<PlainTable>,
) -> Option<Machine<PlainTable, Guest>> {
    let image = image?;
    let values = values?;
    Machine::start(alloc, image, values).ok()
}

/// The status after a run within this many steps.
fn status_of(machine: &mut Machine<PlainTable, Guest>, steps: u64) -> Option<Status> {
    let (_, status) = machine.run(steps).ok()?;
    Some(status)
}

/// The end of the emitter's program on these roots, within this many steps.
pub(super) fn end(
    alloc: Global,
    emitter: Emitter,
    roots: &[Value; 5],
    steps: u64,
) -> Option<Status> {
    let mut machine = started(alloc, image(emitter), values(alloc, roots))?;
    status_of(&mut machine, steps)
}
