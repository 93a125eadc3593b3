//! Expansion of macros.

ghost use Rattle.std.specs.Prelude.{◌≡◌, IfOk, IfSome, MatchResult};
ghost use Rattle.std.specs.Prelude as list;
ghost use Rattle.cel_reader.specs.Tree.{view};
ghost use Rattle.cel_macros.specs.declared.macro_error.MacroError.TheVariants.{Memory};
ghost use Rattle.cel_macros.specs.CoreTree.{expanded, plain_tree};
ghost use Rattle.cel_macros.specs.CoreView.{core_view};
ghost use Rattle.cel_macros.specs.Environment.{Environment};
ghost use Rattle.cel_macros.specs.Expanding.{core_pair, expanded_pair};
ghost use Rattle.cel_macros.specs.FoldMeaning.{fold_meaning};
ghost use Rattle.cel_macros.specs.MacroFault.{macro_fault, fault_error};
ghost use Rattle.cel_macros.specs.Meaning.{meaning};

use crate::core_tree::Core;
use crate::faults::test;
use crate::macro_error::MacroError;
use crate::names::is_variables;
use crate::together::{appended, both};
use crate::{build, folding};
use cel_reader::Expr;
use std::alloc::{AllocError, Global};

/// The expressions with their macros expanded.
#[cycle(expansion)]
fn expansions(alloc: Global, items: &[Expr]) -> Result<Vec<Core>, AllocError>
    ensures { IfOk result (λ v. list.map core_view v.items ≡ list.map (λ e. expanded (view e)) items.now) }
{
    let mut out = Vec::new(alloc);
    for item in items {
        out = appended(out, expansion(alloc, item))?;
    }
    Ok(out)
}

/// The keys and values with their macros expanded.
#[cycle(expansion)]
fn entry_expansions(alloc: Global, pairs: &[(Expr, Expr)]) -> Result<Vec<(Core, Core)>, AllocError>
    ensures { IfOk result (λ v. list.map core_pair v.items ≡ list.map expanded_pair pairs.now) }
{
    let mut out = Vec::new(alloc);
    for (key, value) in pairs {
        let core_key = expansion(alloc, key);
        out = appended(out, both(core_key, expansion(alloc, value)))?;
    }
    Ok(out)
}

/// The expression with its macros expanded, in a box.
#[cycle(expansion)]
fn boxed_expansion(alloc: Global, e: &Expr) -> Result<Box<Core>, AllocError>
    ensures { IfOk result (λ b. core_view b.value ≡ expanded (view e.now)) }
{
    let core = expansion(alloc, e)?;
    Ok(Box::new(alloc, core)?)
}

/// The expression with its macros expanded. Its parts are boxed where they are made, to keep the stack frames small.
#[cycle(expansion)]
#[tactic(auto, using(crate::proofs::PartsExpanded::call_expanded, crate::proofs::PartsExpanded::each_entry_expanded, crate::proofs::PartsExpanded::each_expanded, crate::proofs::PartsExpanded::method_expanded, crate::proofs::Views::view_call, crate::proofs::Views::view_list, crate::proofs::Views::view_map, crate::proofs::Views::view_method), unfolding(crate::specs::CoreTree::expanded))]
fn expansion(alloc: Global, e: &Expr) -> Result<Core, AllocError>
    ensures { IfOk result (λ c. core_view c ≡ expanded (view e.now)) }
{
    match e {
        Expr::Literal(literal) => build::literal(alloc, literal),
        Expr::Name(name) => build::name(alloc, name.as_str()),
        Expr::Select(of, field) => {
            if is_variables(of) {
                return build::variable(alloc, field.as_str());
            }
            build::select(alloc, boxed_expansion(alloc, of), field.as_str())
        }
        Expr::Index(of, at) => {
            build::index(boxed_expansion(alloc, of), boxed_expansion(alloc, at))
        }
        Expr::Call(name, arguments) => {
            let parts = expansions(alloc, arguments.as_slice())?;
            folding::call(alloc, name.as_str(), parts)
        }
        Expr::Method(of, name, arguments) => {
            let inner = boxed_expansion(alloc, of)?;
            let parts = expansions(alloc, arguments.as_slice())?;
            folding::method(alloc, inner, name.as_str(), parts)
        }
        Expr::Unary(operator, operand) => {
            let inner = boxed_expansion(alloc, operand)?;
            Ok(Core::Unary(*operator, inner))
        }
        Expr::Binary(operator, left, right) => {
            let first = boxed_expansion(alloc, left);
            build::binary(*operator, first, boxed_expansion(alloc, right))
        }
        Expr::Ternary(condition, yes, no) => {
            let test = boxed_expansion(alloc, condition);
            let first = boxed_expansion(alloc, yes);
            build::ternary(test, first, boxed_expansion(alloc, no))
        }
        Expr::List(items) => {
            let parts = expansions(alloc, items.as_slice())?;
            Ok(build::list(parts))
        }
        Expr::Map(pairs) => {
            let parts = entry_expansions(alloc, pairs.as_slice())?;
            Ok(build::map(parts))
        }
    }
}

/// The expression with its macros expanded (cel-spec, Macros). The error is that of the first invalid macro, a
/// node before its parts, parts from left to right: `WrongArgumentCount` for a number of arguments that the
/// macro does not take, `InvalidIterationName` for an iteration name that is not allowed, `HasWithoutSelection`
/// for `has` of an argument that is not a selection.
///
/// The recursion uses one stack frame for each level of the tree. The limit of open brackets does not bound the
/// levels, since operators nest without brackets; the limit of 4,096 tokens does.
#[tactic(auto, using(crate::proofs::Expansion::expansion_means, crate::proofs::Expansion::expansion_plain))]
pub fn expand(alloc: Global, e: Expr) -> Result<Core, MacroError>
    ensures refused { IfSome (macro_fault (view e)) (λ fault. result ≡ list.Err (fault_error fault)) }
    ensures only { macro_fault (view e) ≡ list.None → MatchResult result (λ c. core_view c ≡ expanded (view e)) (λ f. f ≡ Memory) }
    ensures expanded { IfOk result (λ c. core_view c ≡ expanded (view e)) }
    ensures plain { IfOk result (λ c. plain_tree (core_view c) ≡ view e) }
    ensures meaning { IfOk result (λ c. (env : Environment) → fold_meaning (core_view c) env ≡ meaning (view e) env) }
{
    let core = tested_expansion(alloc, &e);
    drop(e);
    core
}

/// `expand` for a borrowed expression.
fn tested_expansion(alloc: Global, e: &Expr) -> Result<Core, MacroError>
    ensures refused { IfSome (macro_fault (view e.now)) (λ fault. result ≡ list.Err (fault_error fault)) }
    ensures only { macro_fault (view e.now) ≡ list.None → MatchResult result (λ c. core_view c ≡ expanded (view e.now)) (λ f. f ≡ Memory) }
    ensures expanded { IfOk result (λ c. core_view c ≡ expanded (view e.now)) }
{
    test(e)?;
    Ok(expansion(alloc, e)?)
}
