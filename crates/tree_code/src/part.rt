//! Parts of expressions.

ghost use Rattle.std.proofs.Props.{props};
ghost use Rattle.std.specs.Prelude.{IfSome};
ghost use Rattle.expression_code.specs.Code.Leaves.{IsFrameWord};

use expression_code::simple_operand::SimpleOperand;
use insn_codec::Insn;

/// A part of an expression.
#[derive(Drop)]
pub(crate) struct Part {
    /// The simple operand for it, if there is one.
    pub(crate) leaf: Option<SimpleOperand>,
    /// Its code, which leaves its value in R0.
    pub(crate) code: Vec<Insn>,
    ghost word: { IfSome leaf IsFrameWord } by { Prim.hlevel props },
}
