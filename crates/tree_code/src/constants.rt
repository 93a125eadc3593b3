//! The texts that code uses.

ghost use Rattle.std.specs.Prelude.{◌≡◌, map, option_map, length, string_bytes, take, IfOk, OnOk};
ghost use Rattle.cel_macros.specs.CoreTree.{plain_tree};
ghost use Rattle.cel_macros.specs.CoreView.{core_view};
ghost use Rattle.cel_measures.specs.Saturated.{saturated};
ghost use Rattle.tree_code.specs.Code.Expressions.{texts_of};
ghost use Rattle.tree_code.specs.Constants as specs;
ghost use Rattle.tree_code.specs.HasLiterals.{HasLiterals};

use crate::texts::add_texts;
use cel_macros::Core;
use indexmap::IndexSet;
use std::alloc::{AllocError, Global};

/// Adds the text if it is new.
#[tactic(auto, using(crate::proofs::Behind::text_taken))]
fn take_text(alloc: Global, texts: &mut IndexSet<String>, text: &str) -> Result<(), AllocError>
    ensures ok { OnOk result (map string_bytes texts.new.keys ≡ specs.with_text (map string_bytes texts.old.keys) text.now) }
    ensures front { take (length texts.old.keys) texts.new.keys ≡ texts.old.keys }
{
    let text = String::from_str(alloc, text)?;
    texts.insert(text)?;
    Ok(())
}

/// Adds each of these texts that is new. If an allocation fails, the earlier texts are unchanged
/// and come first.
#[tactic(auto, using(crate::proofs::Behind::front_later))]
fn take_each(alloc: Global, texts: &mut IndexSet<String>, used: &[String]) -> Result<(), AllocError>
    ensures ok { OnOk result (map string_bytes texts.new.keys ≡ specs.with_texts (map string_bytes texts.old.keys) (map string_bytes used.now)) }
    ensures front { take (length texts.old.keys) texts.new.keys ≡ texts.old.keys }
{
    for text in used {
        take_text(alloc, texts, text.as_str())?;
    }
    Ok(())
}

/// Adds the texts of the expression that are new, in order of first use. The expression's literals
/// are values. If an allocation fails, the earlier texts are unchanged and come first.
pub fn take_texts(
    alloc: Global,
    texts: &mut IndexSet<String>,
    core: &Core,
) -> Result<(), AllocError>
    ensures ok { OnOk result (map string_bytes texts.new.keys ≡ specs.with_texts (map string_bytes texts.old.keys) (texts_of (core_view core.now))) }
    ensures literals { OnOk result (HasLiterals (plain_tree (core_view core.now))) }
    ensures front { take (length texts.old.keys) texts.new.keys ≡ texts.old.keys }
{
    let mut used = Vec::new(alloc);
    add_texts(alloc, core, &mut used)?;
    take_each(alloc, texts, &used)
}

/// The place of the text among the bytes of all texts, capped at 2^64 - 1.
pub(crate) fn place_of(texts: &[String], text: &str) -> Option<u64>
    ensures { result ≡ option_map saturated (specs.place_of text.now (map string_bytes texts.now)) }
{
    let mut place: u64 = 0;
    for other in texts {
        if text == other.as_str() {
            return Some(place);
        }
        place = place.saturating_add(other.len() as u64);
    }
    None
}

/// The number of bytes of the texts, capped at 2^64 - 1.
pub fn byte_count(texts: &[String]) -> u64
    ensures { result ≡ saturated (length (specs.joined (map string_bytes texts.now))) }
{
    let mut total: u64 = 0;
    for text in texts {
        total = total.saturating_add(text.len() as u64);
    }
    total
}

/// The bytes of all texts, joined.
pub fn joined(alloc: Global, texts: &[String]) -> Result<Vec<u8>, AllocError>
    ensures { IfOk result (λ bytes. bytes.items ≡ specs.joined (map string_bytes texts.now)) }
{
    let mut bytes = Vec::new(alloc);
    for text in texts {
        bytes.extend_from_slice(text.as_bytes())?;
    }
    Ok(bytes)
}
