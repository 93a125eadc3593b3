//! The arguments that both programs accept, and the gatekeeper's limit of reads, as they are
//! declared to `clap`.
ghost use Rattle.std.specs.Prelude.{◌≡◌, IfOk, false};
ghost use Rattle.clap.specs.Words.{app_of, rule_of};
ghost use Rattle.clap.specs.declared.builder.command.Command.TheViews.{out-Command as fields_of};
ghost use Rattle.cli.specs.Arguments.{option_rule, reads_rule, required_option_rule, steps_rule, with_documents};

use crate::limits::{MOST_READS, STEP_LIMIT};
use clap::{Arg, Command, value_parser};
use std::alloc::{AllocError, Global};

// an optional file name
#[tactic(auto, unfolding(crate::specs::Arguments::option_rule))]
pub fn option_argument<'a>(alloc: Global, name: &'a str) -> Arg<'a>
    ensures rule { rule_of result ≡ option_rule name.entry.now }
    ensures local { result.global ≡ false }
{
    Arg::new(alloc, name).long(name)
}

// a required file name
#[tactic(auto, unfolding(crate::specs::Arguments::required_option_rule))]
pub fn required_option_argument<'a>(alloc: Global, name: &'a str) -> Arg<'a>
    ensures rule { rule_of result ≡ required_option_rule name.entry.now }
    ensures local { result.global ≡ false }
{
    Arg::new(alloc, name).long(name).required(true)
}

// --steps N, the largest number of instructions that may run
#[tactic(auto, unfolding(crate::specs::Arguments::steps_rule))]
pub fn steps_argument<'a>(alloc: Global) -> Arg<'a>
    ensures rule { rule_of result ≡ steps_rule }
    ensures local { result.global ≡ false }
{
    Arg::new(alloc, "steps")
        .long("steps")
        .value_parser(value_parser!(u64).range(0..=STEP_LIMIT as i64))
        .default_value("10000000")
}

// --reads N, the most bytes that helper calls may read
#[tactic(auto, unfolding(crate::specs::Arguments::reads_rule))]
pub fn reads_argument<'a>(alloc: Global) -> Arg<'a>
    ensures rule { rule_of result ≡ reads_rule }
    ensures local { result.global ≡ false }
{
    Arg::new(alloc, "reads")
        .long("reads")
        .value_parser(value_parser!(u64).range(0..=MOST_READS as i64))
        .default_value("16777216")
}

// the command with the options for a namespace and for params
#[tactic(auto, unfolding(crate::specs::Arguments::with_documents))]
pub fn with_documents<'a>(alloc: Global, command: Command<'a>) -> Result<Command<'a>, AllocError>
    ensures shape { IfOk result (λ c. app_of c ≡ with_documents (app_of command.entry)) }
    ensures local { (fields_of command.entry).has_globals ≡ false → IfOk result (λ c. (fields_of c).has_globals ≡ false) }
{
    let command = command.arg(option_argument(alloc, "namespace"))?;
    command.arg(option_argument(alloc, "params"))
}
