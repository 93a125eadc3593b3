//! The code of whole expressions.

ghost use Rattle.std.specs.Prelude.{◌≡◌, ◌<◌, ◌≤◌, ◌+◌, ◌*◌, length, option_map, IfOk};
ghost use Rattle.cel_macros.specs.CoreView.{core_view};
ghost use Rattle.cel_measures.specs.Measures as measures;
ghost use Rattle.expression_code.specs.Pieces.{size as size_of_piece};
ghost use Rattle.tree_code.specs.Code.Whole as specs;
ghost use Rattle.expression_code.specs.Gives.Paths.{kept_path_code};
ghost use Rattle.expression_code.specs.Paths.{nothing_kept};
ghost use Rattle.tree_code.specs.Code.KeptLists.{kept_lists, list_limit};
ghost use Rattle.tree_code.specs.Code.Literals.{address_of};
ghost use Rattle.tree_code.specs.FrameWords.{lists_view, path_view, words_of, AreWords};
ghost use Rattle.tree_code.specs.NameTable.{routines_within, texts_within};
ghost use Rattle.expression_code.specs.Limits.{word_limit, node_limit, part_slots_per_node};
ghost use Rattle.insn_codec.specs.Limits.{slot_limit};

use crate::code::Code;
use crate::code::kept_lists::clear_words;
use crate::code::paths::{first_path, walk};
use crate::emit_position::EmitPosition;
use crate::expressions::code_of;
use crate::frame_words::FrameWords;
use crate::instructions::{size, store};
use crate::kept_lists::kept_lists;
use crate::name_table::NameTable;
use crate::path::Path;
use cel_macros::Core;
use cel_measures::need;
use expression_code::limits::WORD_LIMIT;
use insn_codec::{Insn, Register};
use std::alloc::Global;

/// The largest number of lists that a frame keeps beside a path.
const LIMIT_WITH_PATH: usize = 2;

/// The number of slots of the code of a path and of the store that keeps it.
const KEPT_PATH_SLOTS: usize = 6;

/// The path that the expression may keep, if the frame has a word for it, beside this number of
/// lists.
fn front_of(core: &Core, lists: usize) -> Option<Path<'_>>
    requires need { measures.need (core_view core.now) ≤ word_limit }
    requires lists { lists ≡ length (kept_lists (core_view core.now)) }
    ensures { option_map path_view result ≡ specs.front_of (core_view core.now) }
{
    match first_path(core) {
        Some(path) if 1 + need(core) <= WORD_LIMIT && lists <= LIMIT_WITH_PATH => Some(path),
        _ => None,
    }
}

/// The expression's code at the position, after the words of the lists that it keeps are emptied.
#[tactic(auto, using(crate::proofs::Lengths::short_code, crate::proofs::Lengths::size_append, crate::proofs::Lengths::clear_size))]
fn code_keeping(alloc: Global, core: &Core, lists: &[&[Core]], position: EmitPosition) -> Code
    requires lists { (words_of position.words.now).lists ≡ lists_view lists.now }
    requires few { length lists.now ≤ list_limit }
    requires held { AreWords (words_of position.words.now) }
    requires room { position.word + measures.need (core_view core.now) ≤ word_limit }
    requires nodes { measures.nodes (core_view core.now) ≤ node_limit }
    requires slot { position.slot ≤ 0x7fff_0007 }
    ensures code { let texts = texts_within position.entry.around.now in
        let routines = routines_within position.entry.around.now in
        let words = words_of position.entry.words.now in
        IfOk result (λ code. code.items ≡ specs.code_keeping (lists_view lists.now) (core_view core.now) texts routines words position.entry.word position.entry.slot) }
    ensures short { IfOk result (λ code. size_of_piece code.items + 4 ≤ part_slots_per_node * measures.nodes (core_view core.now)) }
{
    let mut code = clear_words(alloc, lists.len())?;
    let behind = EmitPosition {
        slot: position.slot + lists.len(),
        ..position
    };
    let rest = code_of(alloc, core, behind)?;
    code.extend_from_slice(&rest)?;
    Ok(code)
}

/// The expression's code at this slot without a kept path.
#[tactic(auto, using(crate::proofs::Walks::words_outside))]
fn plain_code(
    alloc: Global,
    core: &Core,
    lists: &[&[Core]],
    around: &NameTable,
    slot: usize,
) -> Code
    requires few { length lists.now ≤ list_limit }
    requires need { measures.need (core_view core.now) ≤ word_limit }
    requires nodes { measures.nodes (core_view core.now) ≤ node_limit }
    requires slot { slot ≤ 0x7fff_0001 }
    ensures code { IfOk result (λ code. code.items ≡ specs.code_keeping (lists_view lists.now) (core_view core.now) (texts_within around.now) (routines_within around.now) nothing_kept 0 slot) }
    ensures short { IfOk result (λ code. size_of_piece code.items + 4 ≤ part_slots_per_node * measures.nodes (core_view core.now)) }
{
    let words = FrameWords::Outside(lists);
    let position = EmitPosition {
        around,
        words: &words,
        word: 0,
        slot,
    };
    code_keeping(alloc, core, lists, position)
}

/// The expression's code at this position, after the code of the path and a store that keeps it in
/// word 0.
fn keeping_code(
    alloc: Global,
    path: Path,
    core: &Core,
    lists: &[&[Core]],
    position: EmitPosition,
) -> Code
    requires lists { (words_of position.words.now).lists ≡ lists_view lists.now }
    requires few { length lists.now ≤ list_limit }
    requires held { AreWords (words_of position.words.now) }
    requires room { position.word + measures.need (core_view core.now) ≤ word_limit }
    requires nodes { measures.nodes (core_view core.now) ≤ node_limit }
    requires slot { position.slot ≤ 0x7fff_0007 }
    ensures code { let texts = texts_within position.entry.around.now in
        let routines = routines_within position.entry.around.now in
        let words = words_of position.entry.words.now in
        let rest = specs.code_keeping (lists_view lists.now) (core_view core.now) texts routines words position.entry.word position.entry.slot in
        IfOk result (λ code. code.items ≡ kept_path_code (path_view path.entry) (address_of texts path.entry.field.now) rest) }
    ensures short { IfOk result (λ code. size_of_piece code.items < slot_limit) }
{
    let mut code = walk(alloc, position.around.texts, path)?;
    code.push(store(0, Register::R0))?;
    let rest = code_keeping(alloc, core, lists, position)?;
    code.extend_from_slice(&rest)?;
    Ok(code)
}

/// The shorter of two pieces; the first one if they have the same length.
fn shorter(first: Vec<Insn>, second: Vec<Insn>) -> Vec<Insn>
    requires first { size_of_piece first.items < slot_limit }
    requires second { size_of_piece second.items < slot_limit }
    ensures { result.items ≡ specs.shorter first.items second.items }
{
    if size(&first) <= size(&second) {
        first
    } else {
        second
    }
}

/// The code of a whole expression at this slot, from the start of a frame. It keeps a path if that
/// is shorter.
#[tactic(auto, using(crate::proofs::Walks::words_keeping, crate::proofs::Whole::whole_plain, crate::proofs::Whole::whole_keeping))]
pub fn whole_code(alloc: Global, core: &Core, around: &NameTable, slot: usize) -> Code
    requires need { measures.need (core_view core.now) ≤ word_limit }
    requires nodes { measures.nodes (core_view core.now) ≤ node_limit }
    requires slot { slot ≤ 0x7fff_0001 }
    ensures code { IfOk result (λ code. code.items ≡ specs.whole_code (core_view core.now) (texts_within around.now) (routines_within around.now) slot) }
    ensures short { IfOk result (λ code. size_of_piece code.items + 4 ≤ part_slots_per_node * measures.nodes (core_view core.now)) }
{
    let kept = kept_lists(alloc, core)?;
    let lists = kept.as_slice();
    let plain = plain_code(alloc, core, lists, around, slot)?;
    match front_of(core, lists.len()) {
        Some(path) => {
            let words = FrameWords::Keeping(path, lists);
            let position = EmitPosition {
                around,
                words: &words,
                word: 1,
                slot: slot + KEPT_PATH_SLOTS,
            };
            let keeping = keeping_code(alloc, path, core, lists, position)?;
            Ok(shorter(plain, keeping))
        }
        None => Ok(plain),
    }
}
