//! A pattern that texts are searched for.

ghost use Rattle.std.specs.Prelude.{◌≡◌, IfOk, is_some, map, option_map};
ghost use Rattle.regex.specs.Patterns.{find_str, find_all_str, span};
ghost use Rattle.regex.specs.Strings.{match_span, regex_pattern};
ghost use Rattle.pattern_reader.specs.Patterns.{PatternReturns, CompileReturns, regex_of};

use crate::pattern_error::PatternError;
use crate::purpose::Purpose;
use crate::source::read;
use crate::writer::written;
use regex::{Error, Match, Regex};
use std::alloc::{AllocError, Global};

/// A pattern that texts are searched for.
#[derive(Drop)]
pub struct Pattern {
    pub(crate) regex: Regex,
}

/// The pattern with this text for the `regex` crate.
fn compiled(alloc: Global, source: &str) -> Result<Pattern, PatternError>
    ensures { CompileReturns source.now result }
{
    match Regex::new(alloc, source) {
        Ok(regex) => Ok(Pattern { regex }),
        Err(Error::OutOfMemory) => Err(PatternError::Memory),
        Err(error) => Err(PatternError::NotCompiled(error)),
    }
}

/// Where a match starts and ends, in bytes.
fn span_of(found: Match<'_>) -> (usize, usize)
    ensures { result ≡ match_span found.entry }
{
    (found.start(), found.end())
}

impl Pattern {
    /// Reads a pattern and compiles it. The error is the first one from the left, at its byte.
    pub fn read(alloc: Global, text: &str, purpose: Purpose) -> Result<Pattern, PatternError>
        ensures { PatternReturns purpose text.now result }
    {
        let syntax = read(alloc, text, purpose)?;
        let source = written(alloc, &syntax)?;
        compiled(alloc, source.as_str())
    }

    /// Whether a part of the text matches.
    pub fn matches(&self, alloc: Global, text: &str) -> Result<bool, AllocError>
        ensures { IfOk result (λ found. found ≡ is_some (find_str (regex_pattern (regex_of self.now)) text.now 0)) }
    {
        let mut matcher = self.regex.matcher(alloc)?;
        Ok(matcher.is_match(text))
    }

    /// Where the first match starts and ends, in bytes.
    pub fn find(&self, alloc: Global, text: &str) -> Result<Option<(usize, usize)>, AllocError>
        ensures { IfOk result (λ found. found ≡ option_map span (find_str (regex_pattern (regex_of self.now)) text.now 0)) }
    {
        let mut matcher = self.regex.matcher(alloc)?;
        match matcher.find(text) {
            Some(found) => Ok(Some(span_of(found))),
            None => Ok(None),
        }
    }

    /// Where the matches start and end, in bytes, from the left and without overlap.
    pub fn find_all(&self, alloc: Global, text: &str) -> Result<Vec<(usize, usize)>, AllocError>
        ensures { IfOk result (λ spans. spans.items ≡ map span (find_all_str (regex_pattern (regex_of self.now)) text.now)) }
    {
        let mut matcher = self.regex.matcher(alloc)?;
        let mut spans = Vec::new(alloc);
        for found in matcher.find_iter(text) {
            spans.push(span_of(found))?;
        }
        Ok(spans)
    }
}
