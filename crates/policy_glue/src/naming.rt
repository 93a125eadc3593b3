//! Names in expressions.

ghost use Rattle.std.specs.Prelude.{◌≡◌, IfOk, List, Ok};
ghost use Rattle.std.specs.Prelude as list;
ghost use Rattle.std.specs.List.{list_any};
ghost use Rattle.cel_reader.specs.Tree.{Tree, view, trees, entries};
ghost use Rattle.policy_glue.specs.Checking.{ReadsTree};
ghost use Rattle.policy_glue.specs.Limits.{Compiles};
ghost use Rattle.policy_glue.specs.Naming as specs;
ghost use Rattle.policy_glue.specs.Naming.{conditions_name_namespace, EachReads};
ghost use Rattle.verdicts.specs.Policy.{named_view};
ghost use Rattle.policy_code.specs.Trees.{PolicyTree};

use crate::named_expression::NamedExpression;
use cel_reader::{Expr, ReadError, read};
use std::alloc::{AllocError, Global};
use verdicts::Policy;

/// Whether some match condition of the policy, which compiles, names the root `namespaceObject`,
/// if only as the name that a macro binds. The error says that an allocation failed.
pub fn conditions_name_namespace(alloc: Global, policy: &Policy) -> Result<bool, AllocError>
    ensures { (t : PolicyTree) → Compiles policy.now (Ok t) → IfOk result (λ named. named ≡ conditions_name_namespace t) }
{
    one_expression_names(
        alloc,
        policy.parts().conditions.as_slice(),
        "namespaceObject",
    )
}

/// Whether one of these expressions has the name.
fn one_expression_names(
    alloc: Global,
    expressions: &[NamedExpression],
    name: &str,
) -> Result<bool, AllocError>
    ensures { (trees : List Tree) → EachReads (list.map named_view expressions.now) trees → IfOk result (λ named. named ≡ list_any (specs.names name.now) trees) }
{
    for named in expressions {
        if text_names(alloc, named.expression.as_str(), name)? {
            return Ok(true);
        }
    }
    Ok(false)
}

/// Whether the expression in a text has the name; a text that is no expression has none.
fn text_names(alloc: Global, text: &str, name: &str) -> Result<bool, AllocError>
    ensures { (a : Tree) → ReadsTree text.now a → IfOk result (λ named. named ≡ specs.names name.now a) }
{
    match read(alloc, text) {
        Ok(expression) => Ok(names(&expression, name)),
        Err(ReadError::Memory) => Err(AllocError),
        Err(_) => Ok(false),
    }
}

/// Whether some node of one of these expressions is the name.
#[cycle(names_of)]
#[tactic(auto, unfolding(crate::specs::Naming::names))]
fn one_names(expressions: &[Expr], name: &str) -> bool
    ensures { result ≡ specs.one_names name.now (trees (list.map view expressions.now)) }
{
    for expression in expressions {
        if names(expression, name) {
            return true;
        }
    }
    false
}

/// Whether some node of one of these keys and values is the name.
#[cycle(names_of)]
#[tactic(auto, unfolding(crate::specs::Naming::names))]
fn one_entry_names(pairs: &[(Expr, Expr)], name: &str) -> bool
    ensures { result ≡ specs.one_entry_names name.now (entries (list.map (λ e. (view e.0, view e.1)) pairs.now)) }
{
    for (key, value) in pairs {
        if names(key, name) || names(value, name) {
            return true;
        }
    }
    false
}

/// Whether some node of the expression is the name, also one that a macro binds.
#[cycle(names_of)]
#[tactic(auto, unfolding(crate::specs::Naming::names))]
fn names(expression: &Expr, name: &str) -> bool
    ensures { result ≡ specs.names name.now (view expression.now) }
{
    match expression {
        Expr::Literal(_) => false,
        Expr::Name(own) => own.as_str() == name,
        Expr::Select(of, _) => names(of, name),
        Expr::Index(of, at) => names(of, name) || names(at, name),
        Expr::Call(_, arguments) => one_names(arguments.as_slice(), name),
        Expr::Method(of, _, arguments) => names(of, name) || one_names(arguments.as_slice(), name),
        Expr::Unary(_, operand) => names(operand, name),
        Expr::Binary(_, left, right) => names(left, name) || names(right, name),
        Expr::Ternary(condition, yes, no) => {
            names(condition, name) || names(yes, name) || names(no, name)
        }
        Expr::List(items) => one_names(items.as_slice(), name),
        Expr::Map(pairs) => one_entry_names(pairs.as_slice(), name),
    }
}
