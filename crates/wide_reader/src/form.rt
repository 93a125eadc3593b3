//! Macros by their names and numbers of arguments.

ghost use Rattle.std.specs.Prelude.{◌≡◌};
ghost use Rattle.wide_reader.specs.Forms as forms;

use crate::wide::{Macro, OptionalMacro, PairMacro};

/// What a method is resolved to.
#[derive(Clone, Copy)]
pub enum Form {
    /// One iteration name, and a predicate or transform.
    Fold(Macro),
    /// One iteration name, a predicate and a transform.
    FilterMap,
    /// Two iteration names, and a predicate or transform.
    PairFold(PairMacro),
    /// Two iteration names, a predicate and a transform.
    PairFilterMap,
    /// One iteration name and a transform.
    OptionalFold(OptionalMacro),
    /// A macro that builds a map of computed keys.
    ComputedMap,
}

/// The macro of this name with two arguments.
fn of_two(name: &str) -> Option<Form>
    ensures { result ≡ forms.of_two name.now }
{
    match name {
        "all" => Some(Form::Fold(Macro::All)),
        "exists" => Some(Form::Fold(Macro::Exists)),
        "exists_one" => Some(Form::Fold(Macro::ExistsOne)),
        "filter" => Some(Form::Fold(Macro::Filter)),
        "map" => Some(Form::Fold(Macro::Map)),
        "optMap" => Some(Form::OptionalFold(OptionalMacro::Map)),
        "optFlatMap" => Some(Form::OptionalFold(OptionalMacro::FlatMap)),
        _ => None,
    }
}

/// The macro of this name with three arguments.
fn of_three(name: &str) -> Option<Form>
    ensures { result ≡ forms.of_three name.now }
{
    match name {
        "map" => Some(Form::FilterMap),
        "all" => Some(Form::PairFold(PairMacro::All)),
        "exists" => Some(Form::PairFold(PairMacro::Exists)),
        "exists_one" | "existsOne" => Some(Form::PairFold(PairMacro::ExistsOne)),
        "transformList" => Some(Form::PairFold(PairMacro::TransformList)),
        "transformMap" | "transformMapEntry" => Some(Form::ComputedMap),
        _ => None,
    }
}

/// The macro of this name with four arguments.
fn of_four(name: &str) -> Option<Form>
    ensures { result ≡ forms.of_four name.now }
{
    match name {
        "transformList" => Some(Form::PairFilterMap),
        "transformMap" | "transformMapEntry" => Some(Form::ComputedMap),
        _ => None,
    }
}

/// The macro of this name with this number of arguments.
pub fn form_of(name: &str, count: usize) -> Option<Form>
    ensures { result ≡ forms.form_of name.now count }
{
    match count {
        2 => of_two(name),
        3 => of_three(name),
        4 => of_four(name),
        _ => None,
    }
}

/// Whether this is the function name of the macro that tests for a field.
pub fn is_has(name: &str) -> bool
    ensures { result ≡ forms.is_has name.now }
{
    name == "has"
}
