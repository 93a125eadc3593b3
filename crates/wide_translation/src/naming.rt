//! Names, variables, and expressions that are recognised by their form.

ghost use Rattle.std.specs.Prelude.{◌≡◌};
ghost use Rattle.cel_macros.specs.Environment.{lookup};
ghost use Rattle.cel_reader.specs.Tree as node;
ghost use Rattle.cel_reader.specs.Tree.{literal_view};
ghost use Rattle.wide_kinds.specs.Kinds as kinds;
ghost use Rattle.wide_reader.specs.Tree as wide;
ghost use Rattle.wide_meaning.specs.Environment as environment;
ghost use Rattle.wide_meaning.specs.Functions.{qualified_named};
ghost use Rattle.wide_meaning.specs.Meaning.{is_empty_list, namespace_in};
ghost use Rattle.wide_translation.specs.Carried.{plain, taken};
ghost use Rattle.wide_translation.specs.Declarations.{ReturnsCarried, place_view, scope_in};
ghost use Rattle.wide_translation.specs.Layers as layers;
ghost use Rattle.wide_translation.specs.Translated as specs;

use crate::calls::unknown;
use crate::carried::Carried;
use crate::names::{Names, VARIABLES, is_root, variable_kind, written_name};
use crate::place::Place;
use crate::translation_error::TranslationError;
use crate::{build, built, copying};
use cel_reader::{Expr, Literal};
use std::alloc::Global;
use wide_kinds::{Kind, ValueKind, literal_kind};
use wide_meaning::Qualified;
use wide_reader::Wide;

/// A literal.
pub(crate) fn literal(alloc: Global, given: &Literal) -> Result<Carried, TranslationError>
    ensures { let l = literal_view given.now in ReturnsCarried (taken (plain (kinds.literal_kind l) (node.literal l))) result }
{
    let tree = copying::literal(alloc, given)?;
    Ok(Carried::Plain(literal_kind(given), tree))
}

/// A root.
pub(crate) fn root(alloc: Global, name: &str, names: &Names) -> Result<Carried, TranslationError>
    ensures { ReturnsCarried (specs.root_translation (scope_in names.now) name.now) result }
{
    if is_root(name) {
        let tree = build::root(alloc, name, names)?;
        return Ok(Carried::Plain(ValueKind::Dyn, tree));
    }
    Err(unknown(alloc, name))
}

/// An iteration name that is written so.
fn written(alloc: Global, name: &str, place: &Place) -> Result<Carried, TranslationError>
    ensures { ReturnsCarried (specs.place_translation (place_view place.now) name.now) result }
{
    match place {
        Place::Itself(kind) => {
            let tree = Expr::Name(written_name(alloc, name)?);
            Ok(Carried::Plain(*kind, tree))
        }
        Place::Key(pair) => {
            let tree = built::first(alloc, build::name(alloc, pair.as_str()))?;
            Ok(Carried::Plain(ValueKind::Dyn, tree))
        }
        Place::Value(pair) => {
            let second = Ok(Expr::Literal(Literal::Int(1)));
            let tree = built::index(alloc, build::name(alloc, pair.as_str()), second)?;
            Ok(Carried::Plain(ValueKind::Dyn, tree))
        }
        Place::Unused => Err(unknown(alloc, name)),
    }
}

/// A name.
pub(crate) fn name(alloc: Global, given: &str, names: &Names) -> Result<Carried, TranslationError>
    ensures { let s = scope_in names.now in ReturnsCarried (specs.name_translation (lookup given.now s.names) given.now (specs.root_translation s given.now)) result }
{
    match names {
        Names::Outside(_, _) | Names::Condition(_) => root(alloc, given, names),
        Names::Within(first, place, outer) => {
            if *first == given {
                return written(alloc, given, place);
            }
            name(alloc, given, outer)
        }
    }
}

/// A variable.
pub(crate) fn variable(
    alloc: Global,
    name: &str,
    names: &Names,
) -> Result<Carried, TranslationError>
    ensures { ReturnsCarried (specs.variable_translation (lookup name.now (scope_in names.now).variables) name.now) result }
{
    match variable_kind(name, names) {
        Some(Kind::Value(kind)) => {
            let tree = build::variable(alloc, name)?;
            Ok(Carried::Plain(kind, tree))
        }
        Some(Kind::Optional(kind)) => {
            let tree = build::variable(alloc, name)?;
            Ok(Carried::Listed(kind, tree))
        }
        None => Err(unknown(alloc, name)),
    }
}

/// Whether an expression is the name `variables`, which no iteration name hides.
pub(crate) fn denotes_variables(e: &Wide, hidden: bool) -> bool
    ensures { result ≡ environment.denotes_variables (wide.view e.now) hidden }
{
    match e {
        Wide::Name(name) => VARIABLES == name.as_str() && !hidden,
        Wide::Root(name) => VARIABLES == name.as_str(),
        _ => false,
    }
}

/// Whether an expression is the literal `[]`.
#[tactic(auto, using(crate::proofs::Arms::list_is_empty))]
pub(crate) fn is_empty(e: &Wide) -> bool
    ensures { result ≡ is_empty_list (wide.view e.now) }
{
    match e {
        Wide::List(items) => items.is_empty(),
        _ => false,
    }
}

/// The namespace that a name before a method can be; empty for what is no name.
fn namespace(of: &Wide) -> &str
    ensures { result.now ≡ namespace_in (wide.view of.now) }
{
    match of {
        Wide::Name(name) => name.as_str(),
        _ => "",
    }
}

/// The function with a namespace that a method of an operand is.
pub(crate) fn qualified(of: &Wide, name: &str) -> Option<Qualified>
    ensures { result ≡ qualified_named (namespace_in (wide.view of.now)) name.now }
{
    Qualified::of_names(namespace(of), name)
}

/// The unsigned int of an operand that is compared, if it is one.
pub(crate) fn compared_uint(is_compared: bool, e: &Wide) -> Option<u64>
    ensures { result ≡ layers.compared_uint is_compared (wide.view e.now) }
{
    if !is_compared {
        return None;
    }
    match e {
        Wide::Uint(n) => Some(*n),
        _ => None,
    }
}
