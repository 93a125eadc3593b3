//! Tokens of texts, and why others have none, worked out by hand.

use super::repeated;
use ReadError::{IntOutOfRange, InvalidTextLiteral, TextTooLong, UnknownCharacter};
use cel_tokens::{ReadError, Token, tokens};
use std::alloc::{AllocError, Global};

/// Texts, and their tokens: position, end and kind of each.
const READ: [(&str, &str); 14] = [
    ("--1", "0-1 Mark 1-3 Int(-1) "),
    ("1-1", "0-1 Int(1) 1-2 Mark 2-3 Int(1) "),
    ("object.metadata", "0-6 Name 6-7 Mark 7-15 Name "),
    ("[,]", "0-1 Mark 1-2 Mark 2-3 Mark "),
    ("R'\\d'", "0-5 Text(\"\\\\d\") "),
    ("'\\X41'", "0-6 Text(\"A\") "),
    ("'\u{e9}\\u00e9'", "0-10 Text(\"\u{e9}\u{e9}\") "),
    ("\"\\377\"", "0-6 Text(\"\u{ff}\") "),
    ("- // x\n 0x1F", "0-12 Int(-31) "),
    ("0x", "0-1 Int(0) 1-2 Name "),
    ("x in -1", "0-1 Name 2-4 Name 5-7 Int(-1) "),
    (")-1", "0-1 Mark 1-2 Mark 2-3 Int(1) "),
    ("-9223372036854775808", "0-20 Int(-9223372036854775808) "),
    ("<=<", "0-2 Mark 2-3 Mark "),
];

/// Texts without tokens, with their errors.
const REFUSED: [(&str, ReadError); 12] = [
    ("a # b", UnknownCharacter(2)),
    ("a | b", UnknownCharacter(2)),
    ("\u{e9}", UnknownCharacter(0)),
    ("'ab", InvalidTextLiteral(0)),
    (" r'a", InvalidTextLiteral(1)),
    ("'\\400'", InvalidTextLiteral(0)),
    ("'\\ud800'", InvalidTextLiteral(0)),
    ("1 '\\x4'", InvalidTextLiteral(2)),
    ("'a\nb'", InvalidTextLiteral(0)),
    ("-(9223372036854775808)", IntOutOfRange(2)),
    ("9223372036854775808", IntOutOfRange(0)),
    ("- 9223372036854775809", IntOutOfRange(2)),
];

/// The token as a debug text.
fn words(alloc: Global, token: &Token) -> Result<String, AllocError> {
    format!(in alloc; "{}-{} {:?} ", token.place, token.end, token.kind)
}

/// The tokens as debug texts.
fn spelled(alloc: Global, tokens: &[Token]) -> Result<String, AllocError> {
    let mut out = String::new(alloc);
    for token in tokens {
        out.push_str(words(alloc, token)?.as_str())?;
    }
    Ok(out)
}

/// Whether the tokens have these debug texts.
fn has_words(alloc: Global, tokens: &[Token], words: &str) -> bool {
    match spelled(alloc, tokens) {
        Ok(text) => text.as_str() == words,
        Err(_) => false,
    }
}

/// Whether the tokens of the text have these debug texts.
fn has_tokens(alloc: Global, text: &str, words: &str) -> bool {
    match tokens(alloc, text) {
        Ok(found) => has_words(alloc, found.as_slice(), words),
        Err(_) => false,
    }
}

/// The error of the text, if it has no tokens.
fn refusal(alloc: Global, text: &str) -> Option<ReadError> {
    tokens(alloc, text).err()
}

#[test]
fn reads_texts(rt: HostRuntime) {
    for (text, words) in &READ {
        assert!(rt; has_tokens(rt.alloc(), text, words), "row {text}");
    }
}

#[test]
fn refuses_texts(rt: HostRuntime) {
    for (text, cause) in &REFUSED {
        assert!(rt; refusal(rt.alloc(), text) == Some(*cause), "row {text}");
    }
}

/// Whether the repeated text and the text after it have this error.
fn ends_so(alloc: Global, unit: &str, count: usize, more: &str, cause: Option<ReadError>) -> bool {
    match repeated(alloc, unit, count, more) {
        Ok(text) => refusal(alloc, text.as_str()) == cause,
        Err(_) => false,
    }
}

/// How often a text is repeated before another, and the error of the whole.
const LIMITS: [(&str, usize, &str, Option<ReadError>); 6] = [
    ("(", 4_096, "", None),
    ("(", 65_536, "", Some(TextTooLong(4_096))),
    ("(", 4_096, " 'a", Some(TextTooLong(4_097))),
    ("(", 4_096, " #", Some(UnknownCharacter(4_097))),
    (" ", 65_536, "", None),
    (" ", 65_537, "", Some(TextTooLong(65_536))),
];

#[test]
fn keeps_the_limits(rt: HostRuntime) {
    for (unit, count, more, cause) in &LIMITS {
        assert!(rt;
            ends_so(rt.alloc(), unit, *count, more, *cause),
            "row {count} {more}"
        );
    }
}
