//! Names, and the functions and tests that calls name.
//! Listed in `Code/Names` and `Code/Leaves` of `expression_code/specs`, with laws in
//! `Gives/Leaves`.

ghost use Rattle.std.specs.Prelude.{◌≡◌, ◌<◌, ◌++◌, IfOk, IfSome};
ghost use Rattle.cel_macros.specs.Callee.{callee_view, function_in, test_in};
ghost use Rattle.cel_macros.specs.Environment.{lookup};
ghost use Rattle.expression_code.specs.Code.Calls.{operand_code};
ghost use Rattle.expression_code.specs.Code.Leaves.{leaf_code, IsFrameWord};
ghost use Rattle.expression_code.specs.Code.Names as names;
ghost use Rattle.expression_code.specs.Code.Selection.{size_tail, string_tail as string_tail_code, test_helper};
ghost use Rattle.tree_code.specs.Code.Expressions as specs;
ghost use Rattle.tree_code.specs.FrameWords.{words_of, AreItems, AreWords};
ghost use Rattle.expression_code.specs.Limits.{word_limit, frame_words};

use crate::code::Code;
use crate::code::calls::{operand, operands};
use crate::code::selection::string_tail;
use crate::frame_words::FrameWords;
use crate::instructions::leaf_into;
use crate::part::Part;
use cel_macros::{Callee, Function, TextTest};
use expression_code::helpers;
use expression_code::instructions::call;
use expression_code::references::{ERROR, NAMESPACE_OBJECT, OBJECT, OLD_OBJECT, PARAMS, REQUEST};
use expression_code::simple_operand::SimpleOperand;
use insn_codec::Register;
use std::alloc::Global;

/// The word that holds the item with this iteration name.
fn word_named(name: &str, words: &FrameWords) -> Option<usize>
    requires { AreItems (words_of words.now).items }
    ensures value { result ≡ lookup name.now (words_of words.now).items }
    ensures word { IfSome result (λ k. k < word_limit) }
{
    match words {
        FrameWords::Outside(_) | FrameWords::Keeping(..) => None,
        FrameWords::Within(own, k, outer) => {
            if *own == name {
                Some(*k)
            } else {
                word_named(name, outer)
            }
        }
    }
}

/// The reference of the root with this name; the error's if there is none.
#[tactic(auto, unfolding(expression_code::specs::Code::Names::root_reference))]
pub(crate) fn root_reference(name: &str) -> i32
    ensures { result ≡ names.root_reference name.now }
{
    match name {
        "object" => OBJECT,
        "oldObject" => OLD_OBJECT,
        "params" => PARAMS,
        "namespaceObject" => NAMESPACE_OBJECT,
        "request" => REQUEST,
        _ => ERROR,
    }
}

/// A simple operand as an expression.
pub(crate) fn leaf(alloc: Global, leaf: SimpleOperand) -> Code
    requires { IsFrameWord leaf }
    ensures { IfOk result (λ code. code.items ≡ leaf_code leaf) }
{
    [leaf_into(leaf, Register::R0)].to_vec(alloc)
}

/// The operand that a name denotes.
pub(crate) fn name_leaf(name: &str, words: &FrameWords) -> SimpleOperand
    requires { AreWords (words_of words.now) }
    ensures leaf { result ≡ names.name_leaf name.now (words_of words.now).items }
    ensures word { IsFrameWord result }
{
    match word_named(name, words) {
        Some(k) => SimpleOperand::Word(k),
        None => SimpleOperand::Reference(root_reference(name)),
    }
}

/// The error, for parts that the type checker never accepts.
pub(crate) fn nothing(alloc: Global) -> Code
    ensures { IfOk result (λ code. code.items ≡ specs.no_code) }
{
    leaf(alloc, SimpleOperand::Reference(ERROR))
}

/// The number of code points, items or entries.
fn size_of(alloc: Global, of: &Part) -> Code
    ensures { IfOk result (λ code. code.items ≡ operand_code of.now.leaf of.now.code.items Register.R1 ++ size_tail) }
{
    let mut code = operand(alloc, of, Register::R1)?;
    code.push(call(helpers::SIZE))?;
    Ok(code)
}

/// The conversion to a text.
fn text_of(alloc: Global, of: &Part) -> Code
    ensures { IfOk result (λ code. code.items ≡ operand_code of.now.leaf of.now.code.items Register.R6 ++ string_tail_code) }
{
    let mut code = operand(alloc, of, Register::R6)?;
    code.extend_from_slice(&string_tail())?;
    Ok(code)
}

/// A function call with one argument.
pub(crate) fn function(alloc: Global, callee: &Callee, of: &Part) -> Code
    ensures { IfOk result (λ code. code.items ≡ specs.function_code (function_in (callee_view callee.now)) of.now.leaf of.now.code.items) }
{
    match callee {
        Callee::Function(Function::Size) => size_of(alloc, of),
        Callee::Function(Function::String) => text_of(alloc, of),
        Callee::Function(Function::Dyn) => of.code.to_vec(alloc),
        Callee::Test(_) | Callee::Unknown(_) => nothing(alloc),
    }
}

/// A method call without arguments.
pub(crate) fn method(alloc: Global, callee: &Callee, of: &Part) -> Code
    ensures { IfOk result (λ code. code.items ≡ specs.method_function_code (function_in (callee_view callee.now)) of.now.leaf of.now.code.items) }
{
    match callee {
        Callee::Function(Function::Size) => size_of(alloc, of),
        Callee::Function(Function::String | Function::Dyn) | Callee::Test(_) | Callee::Unknown(_) =>
            nothing(alloc),
    }
}

/// The helper for this test.
fn test_helper(test: TextTest) -> i32
    ensures { result ≡ test_helper test }
{
    match test {
        TextTest::StartsWith => helpers::STARTS,
        TextTest::EndsWith => helpers::ENDS,
        TextTest::Contains => helpers::CONTAINS,
    }
}

/// A test of a text by another text.
pub(crate) fn test(alloc: Global, callee: &Callee, left: &Part, right: &Part, k: usize) -> Code
    requires { k < frame_words }
    ensures { IfOk result (λ code. code.items ≡ specs.test_code (test_in (callee_view callee.now)) left.now.leaf left.now.code.items right.now.leaf right.now.code.items k) }
{
    match callee {
        Callee::Test(test) => {
            let mut code = operands(alloc, left, right, k, (Register::R1, Register::R2))?;
            code.push(call(test_helper(*test)))?;
            Ok(code)
        }
        Callee::Function(_) | Callee::Unknown(_) => nothing(alloc),
    }
}
