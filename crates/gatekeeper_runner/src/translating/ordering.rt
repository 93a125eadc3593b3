//! Reads the command line of a translation.
ghost use Rattle.std.specs.Prelude.{◌≡◌, map, IfOk};
ghost use Rattle.std.specs.List.{list_any};
ghost use Rattle.clap.specs.Words.{app_of, fault_of, found_of, matches_of, rows_of};
ghost use Rattle.cli.specs.Parsing.{TakesWords};
ghost use Rattle.gatekeeper_runner.specs.Orders.{asks_translation, is_translate, translation_app, translation_from, translation_order_view};

use crate::command_line::switch_argument;
use crate::ordering::rule_in;
use crate::translating::order::TranslationOrder;
use clap::{ArgMatches, Command};
use cli::{parse, required_option_argument, text_or_empty};
use host::OrderError;
use std::alloc::{AllocError, Global};

/// Whether one of the words after the program's name is --translate.
pub fn asks_translation(words: &[&str]) -> bool
    ensures { result ≡ asks_translation (map (λ s. s.now) words.now) }
{
    match words {
        [] => false,
        [_, words @ ..] => has_translate(words),
    }
}

/// Whether one of these words is --translate.
fn has_translate(words: &[&str]) -> bool
    ensures { result ≡ list_any (λ s. is_translate s.now) words.now }
{
    words.iter().any(|word| is_translate(word))
}

/// Whether the word is --translate, or that with a value.
#[tactic(auto, unfolding(crate::specs::Orders::is_translate))]
fn is_translate(word: &str) -> bool
    ensures { result ≡ is_translate word.now }
{
    word == "--translate" || word.as_bytes().starts_with(b"--translate=")
}

/// Reads the words of a command line that asks for a translation.
///
/// # Errors
///
/// `InvalidArguments` exactly if `clap` refuses the words. `Memory` if an allocation fails, which
/// implies nothing about the words.
pub fn translation_of<'a>(
    alloc: Global,
    words: &'a [&'a str],
) -> Result<TranslationOrder, OrderError>
    ensures { TakesWords (fault_of translation_app (map (λ s. s.now) words.entry.now)) (λ o. translation_order_view o ≡ translation_from (matches_of translation_app (map (λ s. s.now) words.entry.now))) result }
{
    let matches = translation_matches(alloc, words)?;
    Ok(translation_from(alloc, &matches)?)
}

/// The arguments that `clap` finds in the words, or its error.
fn translation_matches<'a>(
    alloc: Global,
    words: &'a [&'a str],
) -> Result<ArgMatches<'a>, OrderError>
    ensures rows { IfOk result (λ m. rows_of (found_of m) ≡ matches_of translation_app (map (λ s. s.now) words.entry.now)) }
    ensures taken { TakesWords (fault_of translation_app (map (λ s. s.now) words.entry.now)) (λ _. Unit {0}) result }
{
    let command = translation_command(alloc)?;
    parse(command, words)
}

fn translation_command<'a>(alloc: Global) -> Result<Command<'a>, AllocError>
    ensures { IfOk result (λ c. app_of c ≡ translation_app) }
{
    let file = required_option_argument(alloc, "translate");
    let command = Command::new(alloc, "gatekeeper").arg(file)?;
    command.arg(switch_argument(alloc, "leave-messages"))
}

#[tactic(auto, unfolding(crate::specs::Orders::translation_from))]
fn translation_from(alloc: Global, matches: &ArgMatches) -> Result<TranslationOrder, AllocError>
    ensures { IfOk result (λ o. translation_order_view o ≡ translation_from (rows_of (found_of matches.now))) }
{
    let file = String::from_str(alloc, text_or_empty(matches, "translate"))?;
    let rule = rule_in(matches);
    Ok(TranslationOrder { alloc, file, rule })
}
