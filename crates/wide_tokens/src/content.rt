//! Text literals after their opening.

ghost use Rattle.std.specs.Prelude.{◌≡◌, ◌≤◌, ◌++◌, List, ℕ, [], true, false, None, length, drop, get_or, IfSome, IfOk, OnOk, option_map, string_bytes};
ghost use Rattle.std.specs.Str.{IsUtf8};
ghost use Rattle.cel_tokens.specs.Limits.{text_limit};
ghost use Rattle.cel_tokens.specs.Texts.{is_quote};
ghost use Rattle.wide_tokens.specs.Texts as texts;
ghost use Rattle.wide_tokens.specs.Pieces.{said_by};

use crate::bytes::{is_line_end, tail};
use crate::escape::escape;
use crate::opening::{Opening, two_more};
use std::alloc::{AllocError, Global};

/// One piece of a text literal.
#[derive(Clone, Copy, Debug, PartialEq, Eq)]
pub enum Piece {
    /// A byte that represents itself.
    Byte(u8),
    /// An escape: its code point, and its length after the backslash.
    Escape(char, usize),
}

/// The piece at the front.
fn piece_at(bytes: &[u8], raw: bool, long: bool) -> Option<Piece>
    ensures value { option_map said_by result ≡ texts.piece raw long bytes.now }
    ensures within { IfSome result (λ p. (1 ≤ (said_by p).0) × ((said_by p).0 ≤ length bytes.now)) }
    ensures utf8 { IfSome result (λ p. (said : List ℕ) → IsUtf8 (said ++ bytes.now) → IsUtf8 ((said ++ (said_by p).1) ++ drop (said_by p).0 bytes.now)) }
{
    let first = *bytes.first()?;
    if is_line_end(first) {
        return if long { Some(Piece::Byte(first)) } else { None };
    }
    if raw || first != b'\\' {
        return Some(Piece::Byte(first));
    }
    let (code, len) = escape(tail(bytes, 1))?;
    Some(Piece::Escape(code, len))
}

/// The length of the piece in bytes.
fn piece_len(piece: Piece) -> usize
    requires { (said_by piece).0 ≤ text_limit }
    ensures { result ≡ (said_by piece).0 }
{
    match piece {
        Piece::Byte(_) => 1,
        Piece::Escape(_, len) => len + 1,
    }
}

/// Appends the value of the piece.
fn add(said: &mut Vec<u8>, piece: Piece) -> Result<(), AllocError>
    ensures { OnOk result (said.new.items ≡ said.old.items ++ (said_by piece).1) }
{
    match piece {
        Piece::Byte(byte) => said.extend_from_slice(&[byte]),
        Piece::Escape(code, _) => {
            let mut buffer = [0; 4];
            said.extend_from_slice(code.encode_utf8(&mut buffer).as_bytes())
        }
    }
}

/// The text with these bytes.
fn text_of(said: Vec<u8>) -> String
    requires { IsUtf8 said.items }
    ensures { string_bytes result ≡ said.items }
{
    String::from_utf8(said).unwrap()
}

/// The length of the literal's end, if it is at the front.
fn end_at(opening: Opening, bytes: &[u8]) -> Option<usize>
    ensures ends { IfSome result (λ n. (texts.closes opening.long opening.quote bytes.now ≡ true) × (n ≡ texts.closing_len opening.long) × (1 ≤ length bytes.now) × (n ≤ length bytes.now)) }
    ensures first { IfSome result (λ n. get_or bytes.now 0 0 ≡ opening.quote) }
    ensures goes_on { result ≡ None → texts.closes opening.long opening.quote bytes.now ≡ false }
{
    let first = *bytes.first()?;
    if first != opening.quote {
        return None;
    }
    if !opening.long {
        return Some(1);
    }
    if two_more(opening.quote, tail(bytes, 1)) {
        Some(3)
    } else {
        None
    }
}

/// The value of a text literal up to its end, and its length with that end.
pub fn content(
    alloc: Global,
    bytes: &[u8],
    opening: Opening,
) -> Result<Option<(usize, String)>, AllocError>
    requires text { IsUtf8 bytes.now }
    requires short { length bytes.now ≤ text_limit }
    requires quoted { is_quote opening.quote ≡ true }
    ensures value { IfOk result (λ o. option_map (λ x. (x.0, string_bytes x.1)) o ≡ texts.content opening 0 0 [] bytes.now) }
    ensures within { IfOk result (λ o. IfSome o (λ x. x.0 ≤ length bytes.now)) }
{
    let mut said = Vec::new(alloc);
    let mut n = 0;
    while n < bytes.len() {
        let rest = tail(bytes, n);
        if let Some(end) = end_at(opening, rest) {
            return Ok(Some((n + end, text_of(said))));
        }
        let Some(piece) = piece_at(rest, opening.raw, opening.long) else {
            return Ok(None);
        };
        add(&mut said, piece)?;
        n += piece_len(piece);
    }
    Ok(None)
}
