//! Text literals.

ghost use Rattle.std.specs.Prelude.{◌≡◌, ◌≤◌, ◌++◌, List, ℕ, [], true, length, drop, IfSome, IfOk, OnOk, option_map, string_bytes};
ghost use Rattle.std.specs.Str.{IsUtf8};
ghost use Rattle.cel_tokens.specs.Texts as texts;
ghost use Rattle.cel_tokens.specs.Pieces.{said_by};
ghost use Rattle.cel_tokens.specs.Limits.{text_limit};

use crate::bytes::{is_line_end, tail};
use crate::escape::escape;
use std::alloc::{AllocError, Global};
use text_kernels::skip_plain;

/// One piece of a text literal.
#[derive(Clone, Copy, Debug, PartialEq, Eq)]
pub enum Piece {
    /// A byte that represents itself.
    Byte(u8),
    /// An escape: its code point, and its length after the backslash.
    Escape(char, usize),
}

/// The piece at the front.
fn piece_at(bytes: &[u8], raw: bool) -> Option<Piece>
    ensures value { option_map said_by result ≡ texts.piece raw bytes.now }
    ensures within { IfSome result (λ p. (1 ≤ (said_by p).0) × ((said_by p).0 ≤ length bytes.now)) }
    ensures utf8 { IfSome result (λ p. (said : List ℕ) → IsUtf8 (said ++ bytes.now) → IsUtf8 ((said ++ (said_by p).1) ++ drop (said_by p).0 bytes.now)) }
{
    let first = *bytes.first()?;
    if is_line_end(first) {
        return None;
    }
    if raw || first != b'\\' {
        return Some(Piece::Byte(first));
    }
    let (code, len) = escape(tail(bytes, 1))?;
    Some(Piece::Escape(code, len))
}

/// The length of the piece in bytes.
fn piece_len(piece: Piece) -> usize
    requires { (said_by piece).0 ≤ text_limit }
    ensures { result ≡ (said_by piece).0 }
{
    match piece {
        Piece::Byte(_) => 1,
        Piece::Escape(_, len) => len + 1,
    }
}

/// Appends the value of the piece.
fn add(said: &mut Vec<u8>, piece: Piece) -> Result<(), AllocError>
    ensures { OnOk result (said.new.items ≡ said.old.items ++ (said_by piece).1) }
{
    match piece {
        Piece::Byte(byte) => said.extend_from_slice(&[byte]),
        Piece::Escape(code, _) => {
            let mut buffer = [0; 4];
            said.extend_from_slice(code.encode_utf8(&mut buffer).as_bytes())
        }
    }
}

/// The text with these bytes.
fn text_of(said: Vec<u8>) -> String
    requires { IsUtf8 said.items }
    ensures { string_bytes result ≡ said.items }
{
    String::from_utf8(said).unwrap()
}

/// The value of a text literal up to its closing quote, and its length with that quote.
pub fn content(
    alloc: Global,
    bytes: &[u8],
    raw: bool,
    quote: u8,
) -> Result<Option<(usize, String)>, AllocError>
    requires text { IsUtf8 bytes.now }
    requires short { length bytes.now ≤ text_limit }
    requires quoted { texts.is_quote quote ≡ true }
    ensures value { IfOk result (λ o. option_map (λ x. (x.0, string_bytes x.1)) o ≡ texts.content raw quote 0 0 [] bytes.now) }
    ensures within { IfOk result (λ o. IfSome o (λ x. x.0 ≤ length bytes.now)) }
{
    let mut said = Vec::new(alloc);
    let mut n = 0;
    while n < bytes.len() {
        let rest = tail(bytes, n);
        let plain = skip_plain(rest);
        if plain > 0 {
            said.extend_from_slice(&rest[..plain])?;
            n += plain;
            continue;
        }
        if bytes[n] == quote {
            return Ok(Some((n + 1, text_of(said))));
        }
        let Some(piece) = piece_at(rest, raw) else {
            return Ok(None);
        };
        add(&mut said, piece)?;
        n += piece_len(piece);
    }
    Ok(None)
}
