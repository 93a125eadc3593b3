//! Operators.

ghost use Rattle.std.specs.Prelude.{◌≡◌};
ghost use Rattle.cel_reader.specs.Words as marks;
ghost use Rattle.wide_reader.specs.Words as specs;

use crate::level::Level;
use cel_reader::{BinaryOperator, UnaryOperator};
use cel_tokens::Mark;

/// The mark of the operator.
pub fn unary_mark(operator: UnaryOperator) -> Mark
    ensures { result ≡ marks.unary_mark operator }
{
    match operator {
        UnaryOperator::Not => Mark::Not,
        UnaryOperator::Negate => Mark::Minus,
    }
}

/// The level of the operator.
pub fn level_of(operator: BinaryOperator) -> Level
    ensures { result ≡ specs.level_of operator }
{
    match operator {
        BinaryOperator::Or => Level::Or,
        BinaryOperator::And => Level::And,
        BinaryOperator::Less
        | BinaryOperator::LessEqual
        | BinaryOperator::GreaterEqual
        | BinaryOperator::Greater
        | BinaryOperator::Equal
        | BinaryOperator::NotEqual
        | BinaryOperator::In => Level::Relation,
        BinaryOperator::Add | BinaryOperator::Subtract => Level::Sum,
        BinaryOperator::Multiply | BinaryOperator::Divide | BinaryOperator::Remainder => {
            Level::Product
        }
    }
}

/// The binary operator of a mark, if any.
pub fn operator_mark(mark: Mark) -> Option<BinaryOperator>
    ensures { result ≡ marks.operator_mark mark }
{
    match mark {
        Mark::Or => Some(BinaryOperator::Or),
        Mark::And => Some(BinaryOperator::And),
        Mark::Less => Some(BinaryOperator::Less),
        Mark::LessEqual => Some(BinaryOperator::LessEqual),
        Mark::GreaterEqual => Some(BinaryOperator::GreaterEqual),
        Mark::Greater => Some(BinaryOperator::Greater),
        Mark::Equal => Some(BinaryOperator::Equal),
        Mark::NotEqual => Some(BinaryOperator::NotEqual),
        Mark::Plus => Some(BinaryOperator::Add),
        Mark::Minus => Some(BinaryOperator::Subtract),
        Mark::Star => Some(BinaryOperator::Multiply),
        Mark::Slash => Some(BinaryOperator::Divide),
        Mark::Percent => Some(BinaryOperator::Remainder),
        _ => None,
    }
}
