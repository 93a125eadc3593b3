//! Parses a whole text.

ghost use Rattle.std.specs.Prelude.{◌≡◌, ◌<◌, List, length, map, IfOk, MatchResult, Ok, Err};
ghost use Rattle.cel_tokens.specs.Token.{Token as TokenView, token_view};
ghost use Rattle.cel_tokens.specs.Lexis.{Lexes};
ghost use Rattle.cel_tokens.specs.declared.read_error.ReadError.TheVariants.{TextTooLong, Memory};
ghost use Rattle.cel_reader.specs.Tree.{Tree, view};
ghost use Rattle.cel_reader.specs.Look.{words_only, words};
ghost use Rattle.cel_reader.specs.WellFormed.{IsWellFormed};
ghost use Rattle.cel_reader.specs.Answers.{ReadReturns, ErrorIsAt, ParseReturns, ParseErrorIsAt, IsExpression};
ghost use Rattle.cel_tokens.specs.Limits.{text_limit};
ghost use Rattle.cel_reader.specs.Limits.{open_limit};

use crate::expr::Expr;
use crate::limits::OPEN_LIMIT;
use crate::place::placed;
use crate::reader::expression;
use crate::refusal::misfit;
use crate::word::first;
use cel_tokens::{ReadError, Token, tokens};
use std::alloc::Global;

/// The expression that all of the tokens form.
fn whole(alloc: Global, text: &[u8], tokens: &[Token]) -> Result<Expr, ReadError>
    ensures told { ParseReturns (words text.now tokens.now) result }
    ensures places { ParseErrorIsAt (length text.now) (map (token_view text.now) tokens.now) result }
{
    // A text without tokens is refused before anything is allocated.
    let Some(_) = first(text, tokens) else {
        return Err(placed(text, tokens, misfit(tokens)));
    };
    match expression(alloc, text, tokens, OPEN_LIMIT) {
        Ok((tree, rest)) => match first(text, rest) {
            None => Ok(tree),
            Some(_) => Err(placed(text, tokens, misfit(rest))),
        },
        Err(refusal) => Err(placed(text, tokens, refusal)),
    }
}

/// The expression of the text (cel-spec, syntax). The error is `UnknownCharacter`,
/// `InvalidTextLiteral`, `IntOutOfRange` or `TextTooLong` if the text has no tokens; `UnexpectedToken`
/// at the first token that no expression allows there, or at the text's end; `TooManyOpen` at a bracket
/// or a question mark that fits but would be the 101st open one.
pub fn read(alloc: Global, text: &str) -> Result<Expr, ReadError>
    ensures answers { ReadReturns text.now result }
    ensures places { ErrorIsAt text.now result }
    ensures long { text_limit < length text.now → result ≡ Err (TextTooLong text_limit) }
    ensures well_formed { IfOk result (λ e. IsWellFormed (view e)) }
    ensures only { (lexemes : List TokenView) (a : Tree) → Lexes text.now (Ok lexemes) → IsExpression open_limit (words_only lexemes) a → MatchResult result (λ e. view e ≡ a) (λ e. e ≡ Memory) }
{
    let tokens = tokens(alloc, text)?;
    whole(alloc, text.as_bytes(), &tokens)
}
