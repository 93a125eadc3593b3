//! Builds calls and methods, or the macros that they are.

ghost use Rattle.std.specs.Prelude.{◌≡◌, ◌∷◌, [], IfOk, string_bytes, List, ℕ, true};
ghost use Rattle.std.specs.Prelude as list;
ghost use Rattle.wide_reader.specs.Tree as node;
ghost use Rattle.wide_reader.specs.Tree.{view, wides};
ghost use Rattle.wide_reader.specs.Forms as forms;
ghost use Rattle.wide_reader.specs.Forms.{method_of, call_of};
ghost use Rattle.wide_reader.specs.Shapes as shapes;
ghost use Rattle.wide_reader.specs.Shapes.{AreArguments, AreNames, HasName, HasTwoNames, plain_name};
ghost use Rattle.wide_reader.specs.declared.form.Form.TheVariants as form;
ghost use Rattle.wide_reader.specs.declared.wide.Access.TheVariants.{Plain};

use crate::build;
use crate::form::{Form, form_of, is_has};
use crate::wide::{Access, Wide};
use std::alloc::{AllocError, Global};

/// Whether the expression is a name.
fn is_name(wide: &Wide) -> bool
    ensures { result ≡ list.is_some (plain_name (view wide.now)) }
{
    matches!(wide, Wide::Name(_))
}

/// Whether both expressions are names, and different ones.
fn are_names(first: &Wide, second: &Wide) -> bool
    ensures { result ≡ shapes.are_names (plain_name (view first.now)) (plain_name (view second.now)) }
{
    match (first, second) {
        (Wide::Name(key), Wide::Name(value)) => key.as_str() != value.as_str(),
        _ => false,
    }
}

/// Whether the first argument is a name.
fn begins_with_name(arguments: &[Wide]) -> bool
    ensures { result ≡ shapes.begins_with_name (wides (list.map view arguments.now)) }
{
    match arguments {
        [first, ..] => is_name(first),
        [] => false,
    }
}

/// Whether the first two arguments are different names.
#[tactic(auto, using(crate::proofs::Formed::names_of_few))]
fn begins_with_names(arguments: &[Wide]) -> bool
    ensures { result ≡ shapes.begins_with_names (wides (list.map view arguments.now)) }
{
    match arguments {
        [first, second, ..] => are_names(first, second),
        _ => false,
    }
}

/// Whether the arguments begin with the names that the macro takes.
fn has_names(form: Form, arguments: &[Wide]) -> bool
    ensures { result ≡ shapes.has_names form (wides (list.map view arguments.now)) }
{
    match form {
        Form::Fold(_) | Form::OptionalFold(_) | Form::FilterMap => begins_with_name(arguments),
        Form::PairFold(_) | Form::PairFilterMap => begins_with_names(arguments),
        Form::ComputedMap => false,
    }
}

/// The name and the other argument.
fn with_name(mut arguments: Vec<Wide>) -> (String, Wide)
    requires { HasName (list.map view arguments.items) }
    ensures { list.map view arguments.items ≡ node.name (string_bytes result.0) ∷ view result.1 ∷ [] }
{
    let part = arguments.pop();
    let first = arguments.pop();
    match (first, part) {
        (Some(Wide::Name(name)), Some(part)) => (name, part),
        _ => unreachable!(),
    }
}

/// The two names.
fn two_names(mut arguments: Vec<Wide>) -> (String, String)
    requires { AreNames (list.map view arguments.items) }
    ensures { list.map view arguments.items ≡ node.name (string_bytes result.0) ∷ node.name (string_bytes result.1) ∷ [] }
{
    let second = arguments.pop();
    let first = arguments.pop();
    match (first, second) {
        (Some(Wide::Name(key)), Some(Wide::Name(value))) => (key, value),
        _ => unreachable!(),
    }
}

/// The two names and the other argument.
#[tactic(auto, using(crate::proofs::Formed::names_split, crate::proofs::Formed::names_joined))]
fn with_names(mut arguments: Vec<Wide>) -> ((String, String), Wide)
    requires { HasTwoNames (list.map view arguments.items) }
    ensures { list.map view arguments.items ≡ node.name (string_bytes result.0.0) ∷ node.name (string_bytes result.0.1) ∷ view result.1 ∷ [] }
{
    match arguments.pop() {
        Some(part) => (two_names(arguments), part),
        None => unreachable!(),
    }
}

/// `map` with a predicate and a transform.
fn filter_map(alloc: Global, of: Wide, mut arguments: Vec<Wide>) -> Result<Wide, AllocError>
    requires { AreArguments form.FilterMap (list.map view arguments.items) }
    ensures { IfOk result (λ e. (n : List ℕ) → view e ≡ forms.formed (list.Some form.FilterMap) (view of) n (wides (list.map view arguments.items))) }
{
    match arguments.pop() {
        Some(transform) => {
            let (name, test) = with_name(arguments);
            build::filter_map(alloc, of, name, test, transform)
        }
        None => unreachable!(),
    }
}

/// `transformList` with a predicate and a transform.
fn pair_filter_map(alloc: Global, of: Wide, mut arguments: Vec<Wide>) -> Result<Wide, AllocError>
    requires { AreArguments form.PairFilterMap (list.map view arguments.items) }
    ensures { IfOk result (λ e. (n : List ℕ) → view e ≡ forms.formed (list.Some form.PairFilterMap) (view of) n (wides (list.map view arguments.items))) }
{
    match arguments.pop() {
        Some(transform) => {
            let (names, test) = with_names(arguments);
            build::pair_filter_map(alloc, of, names, test, transform)
        }
        None => unreachable!(),
    }
}

/// The macro of this form.
fn formed(alloc: Global, form: Form, of: Wide, arguments: Vec<Wide>) -> Result<Wide, AllocError>
    requires { AreArguments form (list.map view arguments.items) }
    ensures { IfOk result (λ e. (n : List ℕ) → view e ≡ forms.formed (list.Some form) (view of) n (wides (list.map view arguments.items))) }
{
    match form {
        Form::Fold(found) => {
            let (name, part) = with_name(arguments);
            build::fold(alloc, found, of, name, part)
        }
        Form::OptionalFold(found) => {
            let (name, part) = with_name(arguments);
            build::optional_fold(alloc, found, of, name, part)
        }
        Form::PairFold(found) => {
            let (names, part) = with_names(arguments);
            build::pair_fold(alloc, found, of, names, part)
        }
        Form::FilterMap => filter_map(alloc, of, arguments),
        Form::PairFilterMap => pair_filter_map(alloc, of, arguments),
        Form::ComputedMap => unreachable!(),
    }
}

/// The call of a method, or the macro that it is.
pub fn method(
    alloc: Global,
    of: Wide,
    name: String,
    arguments: Vec<Wide>,
) -> Result<Wide, AllocError>
    ensures { IfOk result (λ e. view e ≡ method_of (view of) (string_bytes name) (wides (list.map view arguments.items))) }
{
    let Some(form) = form_of(name.as_str(), arguments.len()) else {
        return build::method(alloc, of, name, arguments);
    };
    if has_names(form, arguments.as_slice()) {
        formed(alloc, form, of, arguments)
    } else {
        build::method(alloc, of, name, arguments)
    }
}

/// Whether the only argument selects a field without a question mark.
#[tactic(auto, using(crate::proofs::Formed::selection_of_none, crate::proofs::Formed::selection_of_more))]
fn is_selection(arguments: &[Wide]) -> bool
    ensures { result ≡ shapes.is_selection (wides (list.map view arguments.now)) }
{
    match arguments {
        [argument] => matches!(argument, Wide::Select(_, Access::Plain, _)),
        _ => false,
    }
}

/// The test for the field that the only argument selects.
fn has(mut arguments: Vec<Wide>) -> Wide
    requires { (a : node.Wide) × (f : List ℕ) × (list.map view arguments.items ≡ node.select a Plain f ∷ []) }
    ensures { (a : node.Wide) × (f : List ℕ) × (list.map view arguments.items ≡ node.select a Plain f ∷ []) × (view result ≡ node.has a f) }
{
    match arguments.pop() {
        Some(Wide::Select(of, _, field)) => Wide::Has(of, field),
        _ => unreachable!(),
    }
}

/// The call of a function, or the test for a field.
pub fn call(name: String, arguments: Vec<Wide>) -> Wide
    ensures { view result ≡ call_of (string_bytes name) (wides (list.map view arguments.items)) }
{
    if !is_has(name.as_str()) {
        return build::call(name, arguments);
    }
    if is_selection(arguments.as_slice()) {
        has(arguments)
    } else {
        build::call(name, arguments)
    }
}
