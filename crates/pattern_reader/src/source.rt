//! Reads a pattern.

ghost use Rattle.std.specs.Prelude.{◌≡◌, ◌≤◌, length, IfOk};
ghost use Rattle.std.specs.Str.{chars};
ghost use Rattle.pattern_reader.specs.Patterns as patterns;
ghost use Rattle.pattern_reader.specs.Patterns.{PatternReadReturns, SyntaxReturns};

use crate::flags::flags_at;
use crate::pattern_error::PatternError;
use crate::purpose::Purpose;
use crate::reader::items;
use crate::syntax::Syntax;
use std::alloc::{AllocError, Global};

/// The greatest length of a pattern in bytes.
pub const PATTERN_LIMIT: usize = 1024;

/// The code points of a text.
#[tactic(auto, using(std::proofs::lemmas::Str::chars_from_encodes))]
fn points_of(alloc: Global, text: &str) -> Result<Vec<char>, AllocError>
    ensures { IfOk result (λ points. points.items ≡ chars text.now) }
{
    text.chars().collect(alloc)
}

/// The number of bytes of the code points before this position.
#[tactic(auto, using(crate::proofs::Bytes::encoded_more))]
fn byte_at(points: &[char], at: usize) -> usize
    requires short { length points.now ≤ 1024 }
    requires within { at ≤ length points.now }
    ensures { result ≡ patterns.byte_at points.now at }
{
    let mut bytes = 0;
    for c in &points[..at] {
        bytes += c.len_utf8();
    }
    bytes
}

/// The items of the pattern with these code points.
fn syntax_of(alloc: Global, points: &[char], purpose: Purpose) -> Result<Syntax, PatternError>
    requires { length points.now ≤ 1024 }
    ensures { SyntaxReturns purpose points.now result }
{
    let (flags, len) = flags_at(points);
    match items(alloc, points, len, purpose, flags.fold)? {
        Ok(items) => Ok(Syntax { flags, items }),
        Err(at) => Err(PatternError::Misfit(byte_at(points, at))),
    }
}

/// Reads a pattern. The error is the first one from the left, at its byte.
pub fn read(alloc: Global, text: &str, purpose: Purpose) -> Result<Syntax, PatternError>
    ensures { PatternReadReturns purpose text.now result }
{
    if text.len() > PATTERN_LIMIT {
        return Err(PatternError::TooLong);
    }
    let points = points_of(alloc, text)?;
    syntax_of(alloc, &points, purpose)
}
