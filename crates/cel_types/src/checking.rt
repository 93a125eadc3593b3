//! Checks the types of expressions.

ghost use Rattle.std.specs.Prelude.{◌≡◌, IfErr, IfOk};
ghost use Rattle.std.specs.Prelude as list;
ghost use Rattle.std.specs.List.{list_all};
ghost use Rattle.cel_reader.specs.Tree.{Tree};
ghost use Rattle.cel_macros.specs.Callee.{callee_view};
ghost use Rattle.cel_macros.specs.CoreTree.{expanded, plain_tree};
ghost use Rattle.cel_macros.specs.CoreView.{core_view, cores, core_entries};
ghost use Rattle.cel_macros.specs.Environment.{Environment};
ghost use Rattle.cel_macros.specs.Expanding.{core_pair};
ghost use Rattle.cel_macros.specs.Meaning.{meaning};
ghost use Rattle.cel_types.specs.CoreTyping.{core_typing, core_typings, core_entry_typings, core_key_typings, call_typing, method_typing};
ghost use Rattle.cel_types.specs.Declarations.{declaration, scope_of};
ghost use Rattle.cel_types.specs.Iterations.{scope_within};
ghost use Rattle.cel_types.specs.Soundness.{FitsType, FitsScope};
ghost use Rattle.cel_types.specs.TypeTable.{is_text_key, map_literal_row};
ghost use Rattle.cel_types.specs.Types.{fault_of, typing_of, with_types};
ghost use Rattle.cel_types.specs.Typing.{typing, HasFault, HasType};

use crate::cel_type::CelType;
use crate::iterations::Iterations;
use crate::names::{name_type, variable_type};
use crate::rows;
use crate::scope::Scope;
use crate::type_error::TypeError;
use crate::variable::Variable;
use cel_macros::{Callee, Core};

/// The error of the first part that has no type, or else the given result.
#[cycle(typing)]
#[tactic(auto, unfolding(crate::specs::CoreTyping::core_typing))]
fn parts_type(
    parts: &[Core],
    names: &Iterations,
    variables: &[Variable],
    last: Result<CelType, TypeError>,
) -> Result<CelType, TypeError>
    ensures { typing_of result ≡ with_types (core_typings (cores (list.map core_view parts.now)) (scope_within names.now variables.now)) (typing_of last) }
{
    for part in parts {
        core_type(part, names, variables)?;
    }
    last
}

/// The type of a map literal.
#[cycle(typing)]
#[tactic(auto, unfolding(crate::specs::CoreTyping::core_typing))]
fn entries_type(
    pairs: &[(Core, Core)],
    names: &Iterations,
    variables: &[Variable],
) -> Result<CelType, TypeError>
    ensures { let es = core_entries (list.map core_pair pairs.now) in let s = scope_within names.now variables.now in
        typing_of result ≡ with_types (core_entry_typings es s) (map_literal_row (list_all is_text_key (core_key_typings es s))) }
{
    let mut texts = true;
    for (key, value) in pairs {
        let found = core_type(key, names, variables)?;
        core_type(value, names, variables)?;
        texts = rows::keep_texts(texts, found);
    }
    rows::map_literal(texts)
}

/// The type of a call.
#[cycle(typing)]
#[tactic(auto, using(crate::proofs::Arguments::call_of_none, crate::proofs::Arguments::call_of_many))]
fn call_type(
    callee: &Callee,
    arguments: &[Core],
    names: &Iterations,
    variables: &[Variable],
) -> Result<CelType, TypeError>
    ensures { typing_of result ≡ call_typing (callee_view callee.now) (cores (list.map core_view arguments.now)) (scope_within names.now variables.now) }
{
    match arguments {
        [] => Err(TypeError::NoMatchingOverload),
        [operand] => {
            let found = core_type(operand, names, variables)?;
            rows::function(callee, found)
        }
        _ => parts_type(
            arguments,
            names,
            variables,
            Err(TypeError::NoMatchingOverload),
        ),
    }
}

/// The type of a method call on a value of this type.
#[cycle(typing)]
#[tactic(auto, using(crate::proofs::Arguments::method_of_many))]
fn method_type(
    of: CelType,
    callee: &Callee,
    arguments: &[Core],
    names: &Iterations,
    variables: &[Variable],
) -> Result<CelType, TypeError>
    ensures { typing_of result ≡ method_typing (callee_view callee.now) of (cores (list.map core_view arguments.now)) (scope_within names.now variables.now) }
{
    match arguments {
        [] => rows::method(callee, of),
        [argument] => {
            let found = core_type(argument, names, variables)?;
            rows::text_test(callee, of, found)
        }
        _ => parts_type(
            arguments,
            names,
            variables,
            Err(TypeError::NoMatchingOverload),
        ),
    }
}

/// The type of the expression, with these iteration names and variables in scope.
#[cycle(typing)]
#[tactic(auto, unfolding(crate::specs::CoreTyping::core_typing))]
fn core_type(core: &Core, names: &Iterations, variables: &[Variable]) -> Result<CelType, TypeError>
    ensures { typing_of result ≡ core_typing (core_view core.now) (scope_within names.now variables.now) }
{
    match core {
        Core::Literal(literal) => Ok(rows::literal(literal)),
        Core::Name(name) => name_type(name.as_str(), names),
        Core::Variable(name) => variable_type(name.as_str(), variables),
        Core::Select(of, _) => {
            let found = core_type(of, names, variables)?;
            rows::field(found)
        }
        Core::Has(of, _) => {
            let found = core_type(of, names, variables)?;
            rows::has(found)
        }
        Core::Index(of, at) => {
            let first = core_type(of, names, variables)?;
            let second = core_type(at, names, variables)?;
            rows::index(first, second)
        }
        Core::Call(callee, arguments) => {
            call_type(callee, arguments.as_slice(), names, variables)
        }
        Core::Method(of, callee, arguments) => {
            let found = core_type(of, names, variables)?;
            method_type(found, callee, arguments.as_slice(), names, variables)
        }
        Core::Unary(operator, operand) => {
            let found = core_type(operand, names, variables)?;
            rows::unary(*operator, found)
        }
        Core::Binary(operator, left, right) => {
            let first = core_type(left, names, variables)?;
            let second = core_type(right, names, variables)?;
            rows::binary(*operator, first, second)
        }
        Core::Ternary(condition, yes, no) => {
            let test = core_type(condition, names, variables)?;
            let first = core_type(yes, names, variables)?;
            let second = core_type(no, names, variables)?;
            rows::ternary(test, first, second)
        }
        Core::List(items) => parts_type(items.as_slice(), names, variables, Ok(CelType::List)),
        Core::Map(pairs) => entries_type(pairs.as_slice(), names, variables),
        Core::Fold(found, name, range, part) => {
            let of = core_type(range, names, variables)?;
            let within = Iterations::Within(name.as_str(), &*names);
            let inner = core_type(part, &within, variables)?;
            rows::fold(*found, of, inner)
        }
        Core::FoldMap(name, range, predicate, transform) => {
            let of = core_type(range, names, variables)?;
            let within = Iterations::Within(name.as_str(), &*names);
            let test = core_type(predicate, &within, variables)?;
            let inner = core_type(transform, &within, variables)?;
            rows::fold_map(of, test, inner)
        }
    }
}

/// The type of the expression outside all macros.
fn outer_type(core: &Core, variables: &[Variable]) -> Result<CelType, TypeError>
    ensures { typing_of result ≡ core_typing (core_view core.now) (scope_of (list.map declaration variables.now)) }
{
    core_type(core, &Iterations::Outside, variables)
}

/// The type of the expression by the table of types. Otherwise the error is that of the first part
/// without a row (from left to right, parts before their node): `UnknownIdentifier` for an unknown
/// name, `NoMatchingOverload` for operands without an overload, `MisusedVariables` for `variables`
/// without a variable of the scope. Nothing is allocated.
///
/// An expression of any shape that has a type is the expansion of its plain tree, and this tree has
/// the same type. Its value in an environment that fits the scope has this type too, or is the
/// error. An error also holds for the plain tree if the expression is an expansion. An expression
/// built by hand may be refused although its plain tree, read as a macro or a variable, is not.
///
/// The recursion is as deep as the tree, as in macro expansion. (cel-spec, Gradual Type Checking)
pub fn check(core: &Core, scope: &Scope) -> Result<CelType, TypeError>
    ensures core { typing_of result ≡ core_typing (core_view core.now) (scope_of scope.now) }
    ensures plain { (e : Tree) → core_view core.now ≡ expanded e → typing_of result ≡ typing e (scope_of scope.now) }
    ensures expansion { IfOk result (λ t. core_view core.now ≡ expanded (plain_tree (core_view core.now))) }
    ensures has_type { IfOk result (HasType (scope_of scope.now) (plain_tree (core_view core.now))) }
    ensures has_fault { (e : Tree) → core_view core.now ≡ expanded e → IfErr result (λ y. HasFault (scope_of scope.now) e (fault_of y)) }
    ensures sound { (env : Environment) → FitsScope (scope_of scope.now) env → FitsType (typing_of result) (meaning (plain_tree (core_view core.now)) env) }
{
    outer_type(core, scope.variables())
}
