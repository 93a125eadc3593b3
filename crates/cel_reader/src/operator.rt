//! Operators.

ghost use Rattle.std.specs.Prelude.{◌≡◌};
ghost use Rattle.cel_reader.specs.Words as specs;

use crate::level::Level;
use cel_tokens::Mark;

/// An operator before its operand.
#[derive(Clone, Copy, Debug, PartialEq, Eq)]
pub enum UnaryOperator {
    Not,
    Negate,
}

/// An operator between its operands.
#[derive(Clone, Copy, Debug, PartialEq, Eq)]
pub enum BinaryOperator {
    Or,
    And,
    Less,
    LessEqual,
    GreaterEqual,
    Greater,
    Equal,
    NotEqual,
    In,
    Add,
    Subtract,
    Multiply,
    Divide,
    Remainder,
}

impl UnaryOperator {
    /// The mark of the operator.
    pub(crate) fn mark(self) -> Mark
        ensures { result ≡ specs.unary_mark self }
    {
        match self {
            UnaryOperator::Not => Mark::Not,
            UnaryOperator::Negate => Mark::Minus,
        }
    }
}

impl BinaryOperator {
    /// The level of the operator.
    pub(crate) fn level(self) -> Level
        ensures { result ≡ specs.level_of self }
    {
        match self {
            BinaryOperator::Or => Level::Or,
            BinaryOperator::And => Level::And,
            BinaryOperator::Less
            | BinaryOperator::LessEqual
            | BinaryOperator::GreaterEqual
            | BinaryOperator::Greater
            | BinaryOperator::Equal
            | BinaryOperator::NotEqual
            | BinaryOperator::In => Level::Relation,
            BinaryOperator::Add | BinaryOperator::Subtract => Level::Sum,
            BinaryOperator::Multiply | BinaryOperator::Divide | BinaryOperator::Remainder => {
                Level::Product
            }
        }
    }
}
