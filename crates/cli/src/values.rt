//! Reads single values of a command's matches. Each function is total.
ghost use Rattle.std.specs.Prelude.{◌≡◌, codes, option_map, string_bytes, unwrap_or, [], IfOk};
ghost use Rattle.clap.specs.Words.{first_of, found_of, one_of, rows_of};
ghost use Rattle.cli.specs.Number.{number_of};
ghost use Rattle.cli.specs.Limits.{default_reads, default_steps};

use crate::limits::{DEFAULT_READS, DEFAULT_STEPS};
use clap::ArgMatches;
use std::alloc::{AllocError, Global};

// the value of the argument `id`, if there is one
pub fn text_in<'a>(matches: &ArgMatches<'a>, id: &str) -> Option<&'a str>
    ensures { option_map (λ s. s.now) result ≡ first_of id.now (rows_of (found_of matches.now)) }
{
    matches.get_str(id)
}

// the value of the argument `id`, or the empty text
pub fn text_or_empty<'a>(matches: &ArgMatches<'a>, id: &str) -> &'a str
    ensures { result.now ≡ unwrap_or (first_of id.now (rows_of (found_of matches.now))) [] }
{
    text_in(matches, id).unwrap_or("")
}

// a copy of the value of the argument `id`, if there is one
pub fn name_in(alloc: Global, matches: &ArgMatches, id: &str) -> Result<Option<String>, AllocError>
    ensures { IfOk result (λ name. option_map string_bytes name ≡ first_of id.now (rows_of (found_of matches.now))) }
{
    match text_in(matches, id) {
        Some(name) => Ok(Some(String::from_str(alloc, name)?)),
        None => Ok(None),
    }
}

// the number of the argument `id`, if there is one
pub fn number_in(matches: &ArgMatches, id: &str) -> Option<u64>
    ensures { result ≡ number_of (one_of id.now (rows_of (found_of matches.now))) }
{
    matches.get_one::<u64>(id)
}

// the value of --steps
pub fn steps_in(matches: &ArgMatches) -> u64
    ensures { result ≡ unwrap_or (number_of (one_of (codes "steps") (rows_of (found_of matches.now)))) default_steps }
{
    number_in(matches, "steps").unwrap_or(DEFAULT_STEPS)
}

// the value of --reads
pub fn reads_in(matches: &ArgMatches) -> u64
    ensures { result ≡ unwrap_or (number_of (one_of (codes "reads") (rows_of (found_of matches.now)))) default_reads }
{
    number_in(matches, "reads").unwrap_or(DEFAULT_READS)
}
