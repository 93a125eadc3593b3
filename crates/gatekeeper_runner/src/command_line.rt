//! The command line as it is declared to `clap`.
ghost use Rattle.std.specs.Prelude.{◌≡◌, map, IfOk, false};
ghost use Rattle.clap.specs.Words.{app_of, fault_of, found_of, rows_of, rule_of};
ghost use Rattle.cli.specs.Parsing.{TakesWords};
ghost use Rattle.gatekeeper_runner.specs.Orders.{entered, files_rule, gatekeeper_app, lines_app, max_line_rule, policies_app, switch_rule};

use clap::{Arg, ArgAction, ArgMatches, Command, value_parser};
use cli::{option_argument, parse, reads_argument, steps_argument, with_documents};
use host::OrderError;
use std::alloc::{AllocError, Global};

/// The largest value of `--max-line`, in bytes, and its default.
pub const LONGEST_LINE: u64 = 16_777_216;

// --policy F, one or more times
#[tactic(auto, unfolding(crate::specs::Orders::files_rule))]
fn files_argument<'a>(alloc: Global, name: &'a str) -> Arg<'a>
    ensures rule { rule_of result ≡ files_rule name.entry.now }
    ensures local { result.global ≡ false }
{
    option_argument(alloc, name).action(ArgAction::Append)
}

// a switch
#[tactic(auto, unfolding(crate::specs::Orders::switch_rule))]
pub fn switch_argument<'a>(alloc: Global, name: &'a str) -> Arg<'a>
    ensures rule { rule_of result ≡ switch_rule name.entry.now }
    ensures local { result.global ≡ false }
{
    option_argument(alloc, name).action(ArgAction::SetTrue)
}

// --max-line N, the largest length of a line in bytes
#[tactic(auto, unfolding(crate::specs::Orders::max_line_rule))]
fn max_line_argument<'a>(alloc: Global) -> Arg<'a>
    ensures rule { rule_of result ≡ max_line_rule }
    ensures local { result.global ≡ false }
{
    Arg::new(alloc, "max-line")
        .long("max-line")
        .value_parser(value_parser!(u64).range(1..=LONGEST_LINE as i64))
        .default_value("16777216")
}

fn policies_command<'a>(alloc: Global) -> Result<Command<'a>, AllocError>
    ensures { IfOk result (λ c. app_of c ≡ policies_app) }
{
    let command = Command::new(alloc, "gatekeeper").arg(files_argument(alloc, "policy"))?;
    with_documents(alloc, command)
}

fn lines_command<'a>(alloc: Global) -> Result<Command<'a>, AllocError>
    ensures { IfOk result (λ c. app_of c ≡ lines_app) }
{
    let command = policies_command(alloc)?.arg(files_argument(alloc, "cluster"))?;
    let command = command
        .arg(switch_argument(alloc, "partial"))?
        .arg(steps_argument(alloc))?;
    let command = command.arg(reads_argument(alloc))?;
    let command = command.arg(max_line_argument(alloc))?;
    let command = command.arg(switch_argument(alloc, "verbose"))?;
    command.arg(switch_argument(alloc, "status"))
}

fn gatekeeper_command<'a>(alloc: Global) -> Result<Command<'a>, AllocError>
    ensures { IfOk result (λ c. app_of c ≡ gatekeeper_app) }
{
    let command = lines_command(alloc)?.arg(switch_argument(alloc, "profile"))?;
    command.arg(switch_argument(alloc, "leave-messages"))
}

/// The arguments that `clap` finds in the words, or its error. The program's name comes first.
pub fn gatekeeper_matches<'a>(
    alloc: Global,
    words: &'a [&'a str],
) -> Result<ArgMatches<'a>, OrderError>
    ensures rows { IfOk result (λ m. rows_of (found_of m) ≡ entered (map (λ s. s.now) words.entry.now)) }
    ensures taken { TakesWords (fault_of gatekeeper_app (map (λ s. s.now) words.entry.now)) (λ _. Unit {0}) result }
{
    let command = gatekeeper_command(alloc)?;
    parse(command, words)
}
