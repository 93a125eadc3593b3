//! Lists of literals whose values a frame keeps.
//! Listed in `Code/KeptLists` of `expression_code/specs`, with laws in `Gives/KeptLists`.

ghost use Rattle.std.specs.Prelude.{◌≡◌, ◌<◌, ◌≤◌, ◌+◌, IfOk, IfSome};
ghost use Rattle.expression_code.specs.Code.KeptLists.{clear_code};
ghost use Rattle.expression_code.specs.Limits.{frame_words, jump_limit};
ghost use Rattle.expression_code.specs.Paths.{list_word as word_of_list};
ghost use Rattle.expression_code.specs.Pieces.{size as size_of_piece};
ghost use Rattle.tree_code.specs.Code.KeptLists as specs;

use crate::code::Code;
use crate::instructions::{clear, load, size, store};
use expression_code::instructions::jump_if_imm;
use expression_code::limits::WORD_LIMIT;
use insn_codec::{Comparison, Insn, Register};
use std::alloc::Global;

/// The number of slots before the code of a list that is kept.
const KEPT_FRONT_SLOTS: usize = 2;

/// The word that keeps the value of the list with this number, above the words of expressions.
fn list_word(place: usize) -> usize
    requires { word_of_list place < frame_words }
    ensures { result ≡ word_of_list place }
{
    WORD_LIMIT as usize + place
}

/// The number of slots before the code of a list.
pub(crate) fn list_front(kept: Option<usize>) -> usize
    ensures front { result ≡ specs.list_front kept }
    ensures small { result ≤ 2 }
{
    match kept {
        Some(_) => KEPT_FRONT_SLOTS,
        None => 0,
    }
}

/// The code of a list, given the code that makes it: if it is kept, that runs only if its word is 0.
#[tactic(auto, using(crate::proofs::Lengths::put_together))]
pub(crate) fn kept_or_made(alloc: Global, kept: Option<usize>, made: Vec<Insn>) -> Code
    requires word { IfSome kept (λ place. word_of_list place < frame_words) }
    requires short { size_of_piece made.items + 1 < jump_limit }
    ensures { IfOk result (λ code. code.items ≡ specs.kept_or_made kept made.items) }
{
    match kept {
        Some(place) => {
            let word = list_word(place);
            let mut code = Vec::new(alloc);
            code.push(load(Register::R0, word))?;
            code.push(jump_if_imm(Comparison::Ne, Register::R0, 0, size(&made) + 1))?;
            code.extend_from_slice(&made)?;
            code.push(store(word, Register::R0))?;
            Ok(code)
        }
        None => Ok(made),
    }
}

/// Empties the words of this many lists.
#[tactic(auto, using(crate::proofs::KeptLists::clears))]
pub(crate) fn clear_words(alloc: Global, count: usize) -> Code
    requires { count ≤ specs.list_limit }
    ensures { IfOk result (λ code. code.items ≡ clear_code 0 count) }
{
    let all = [
        clear(list_word(0)),
        clear(list_word(1)),
        clear(list_word(2)),
        clear(list_word(3)),
    ];
    all[..count].to_vec(alloc)
}
