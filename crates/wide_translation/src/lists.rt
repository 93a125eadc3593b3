//! List literals, some of whose items are optional values.

ghost use Rattle.std.specs.Prelude.{◌≡◌, IfErr, IfOk, OnOk, false};
ghost use Rattle.std.specs.Prelude as list;
ghost use Rattle.cel_reader.specs.Tree as node;
ghost use Rattle.cel_reader.specs.Tree.{view};
ghost use Rattle.wide_reader.specs.declared.wide.Access.TheVariants as access_of;
ghost use Rattle.wide_kinds.specs.declared.kind.ValueKind.TheVariants as kind;
ghost use Rattle.wide_translation.specs.Carried.{Translation, listed, plain, taken};
ghost use Rattle.wide_translation.specs.Declarations.{ReturnsCarried, carried_view, fault_of, is_memory};
ghost use Rattle.wide_translation.specs.Segments.{after_parts, joined_parts, segment_tree};
ghost use Rattle.wide_translation.specs.Parts.{Parts, list_more, no_parts, one_more};

use crate::calls::as_list;
use crate::carried::Carried;
use crate::composed::Part;
use crate::translation_error::TranslationError;
use crate::{build, built};
use cel_reader::{BinaryOperator, Expr};
use std::alloc::{AllocError, Global};
use wide_kinds::ValueKind;
use wide_reader::Access;

/// The items of a list literal, as far as they are translated: those before each optional value, with its list, and those
/// after the last one.
#[derive(Drop)]
pub(crate) struct ListParts {
    segments: Vec<(Vec<Expr>, Expr)>,
    last: Vec<Expr>,
}

/// The list of some items, of an optional value as a list, and of what comes after.
#[tactic(auto, using(crate::proofs::ItemSteps::segment_none, crate::proofs::ItemSteps::segment_some))]
fn segment(alloc: Global, items: Vec<Expr>, optional: Expr, after: Expr) -> Result<Expr, AllocError>
    ensures { IfOk result (λ e. view e ≡ segment_tree (list.map view items.items, view optional) (view after)) }
{
    let rest = build::binary(alloc, BinaryOperator::Add, optional, after);
    if items.is_empty() {
        return rest;
    }
    built::binary(alloc, BinaryOperator::Add, Ok(build::list(items)), rest)
}

impl ListParts {
    /// No items.
    pub(crate) fn new(alloc: Global) -> Self
        ensures { (ps : Parts) → after_parts result ps ≡ ps }
    {
        ListParts {
            segments: Vec::new(alloc),
            last: Vec::new(alloc),
        }
    }

    /// Adds a value.
    #[tactic(auto, using(crate::proofs::ItemSteps::value_added))]
    fn add_value(&mut self, item: Expr) -> Result<(), AllocError>
        ensures { OnOk result ((ps : Parts) → after_parts self.old (one_more access_of.Plain (taken (plain kind.Dyn (view item))) ps) ≡ after_parts self.new ps) }
    {
        self.last.push(item)?;
        Ok(())
    }

    /// Adds an optional value as a list.
    #[tactic(auto, using(crate::proofs::ItemSteps::list_added))]
    fn add_list(&mut self, alloc: Global, list: Expr) -> Result<(), AllocError>
        ensures { OnOk result ((ps : Parts) → after_parts self.old (list_more (listed kind.Dyn (view list)) ps) ≡ after_parts self.new ps) }
    {
        let items = std::mem::replace(&mut self.last, Vec::new(alloc));
        self.segments.push((items, list))?;
        Ok(())
    }

    /// Adds an item. One with a question mark is an optional value.
    pub(crate) fn add(
        &mut self,
        alloc: Global,
        access: Access,
        item: Carried,
    ) -> Result<(), TranslationError>
        ensures added { OnOk result ((ps : Parts) → after_parts self.old (one_more access (taken (carried_view item)) ps) ≡ after_parts self.new ps) }
        ensures refused { IfErr result (λ e. is_memory e ≡ false → (ps : Parts) → one_more access (taken (carried_view item)) ps ≡ no_parts (fault_of e)) }
    {
        match access {
            Access::Plain => match item {
                Carried::Plain(_, tree) => Ok(self.add_value(tree)?),
                other => {
                    drop(other);
                    Err(TranslationError::OptionalValue)
                }
            },
            Access::Optional => match as_list(alloc, item)? {
                Carried::Listed(_, list) => Ok(self.add_list(alloc, list)?),
                other => {
                    drop(other);
                    Err(TranslationError::OptionalValue)
                }
            },
        }
    }

    /// Adds what an item was translated to.
    #[tactic(auto, using(crate::proofs::ItemSteps::part_refused))]
    pub(crate) fn add_part(
        &mut self,
        alloc: Global,
        access: Access,
        item: Part,
    ) -> Result<(), TranslationError>
        ensures added { OnOk result ((t : Translation) → ReturnsCarried t item → (ps : Parts) → after_parts self.old (one_more access t ps) ≡ after_parts self.new ps) }
        ensures refused { IfErr result (λ e. is_memory e ≡ false → (t : Translation) → ReturnsCarried t item → (ps : Parts) → one_more access t ps ≡ no_parts (fault_of e)) }
    {
        self.add(alloc, access, item?)
    }

    /// The list literal of all items.
    pub(crate) fn list(self, alloc: Global) -> Part
        ensures { ReturnsCarried (taken (plain kind.List (joined_parts self))) result }
    {
        let tree = self.joined(alloc)?;
        Ok(Carried::Plain(ValueKind::List, tree))
    }

    /// The list of all items.
    #[tactic(auto, using(crate::proofs::ItemSteps::joined_popped, crate::proofs::ItemSteps::joined_none))]
    fn joined(self, alloc: Global) -> Result<Expr, AllocError>
        ensures { IfOk result (λ e. view e ≡ joined_parts self) }
    {
        let mut before = self.segments;
        let mut tree = build::list(self.last);
        while let Some((items, optional)) = before.pop() {
            tree = segment(alloc, items, optional, tree)?;
        }
        Ok(tree)
    }
}
