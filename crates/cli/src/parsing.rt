//! Parses the words of a command line with `clap`.
ghost use Rattle.std.specs.Prelude.{◌≡◌, map, true, IfOk};
ghost use Rattle.clap.specs.Words.{app_of, fault_of, is_simple_and_free, HasMatchesOf, IsParsedFrom};
ghost use Rattle.cli.specs.Parsing.{TakesWords};

use clap::error::ErrorKind;
use clap::{ArgMatches, Command};
use host::OrderError;

/// The arguments that `clap` finds in the words for this command. The program's name comes first.
///
/// # Errors
///
/// `InvalidArguments` exactly if `clap` refuses the words. `Memory` if an allocation fails, which
/// says nothing about the words.
pub fn parse<'a>(command: Command<'a>, words: &'a [&'a str]) -> Result<ArgMatches<'a>, OrderError>
    ensures parsed { IfOk result (λ m. IsParsedFrom command.entry m) }
    ensures matches { IfOk result (HasMatchesOf (app_of command.entry) (map (λ s. s.now) words.entry.now)) }
    ensures taken { is_simple_and_free (app_of command.entry) ≡ true → TakesWords (fault_of (app_of command.entry) (map (λ s. s.now) words.entry.now)) (λ _. Unit {0}) result }
{
    match command.try_get_matches_from(words) {
        Ok(matches) => Ok(matches),
        Err(error) => match error.kind() {
            ErrorKind::OutOfMemory => Err(OrderError::Memory),
            _ => Err(OrderError::InvalidArguments),
        },
    }
}
