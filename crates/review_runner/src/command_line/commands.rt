//! The commands of the program as they are declared to `clap`.
ghost use Rattle.std.specs.Prelude.{◌≡◌, ◌∷◌, [], codes, map, take, IfOk, false, true};
ghost use Rattle.clap.specs.Words.{app_of, has_subcommand, rule_of, subcommand_rows_of};
ghost use Rattle.clap.specs.declared.builder.command.Command.TheViews.{out-Command as fields_of};
ghost use Rattle.review_runner.specs.Commands.{celbpf_app, command, commands, file_rule, with_commands};
ghost use Rattle.cli.specs.Arguments.{option_rule, required_option_rule, steps_rule};
ghost use Rattle.cli.specs.Parsing.{TakesWords};
ghost use Rattle.review_runner.specs.Commands.{faults, entered};

use clap::{Arg, ArgMatches, Command};
use cli::{option_argument, parse, required_option_argument, steps_argument, with_documents};
use host::OrderError;
use std::alloc::{AllocError, Global};

// a required file name
#[tactic(auto, unfolding(crate::specs::Commands::file_rule))]
fn file_argument<'a>(alloc: Global, name: &'a str) -> Arg<'a>
    ensures rule { rule_of result ≡ file_rule name.entry.now }
    ensures local { result.global ≡ false }
{
    Arg::new(alloc, name).required(true)
}

#[tactic(auto, unfolding(crate::specs::Commands::command))]
fn run_image_command<'a>(alloc: Global) -> Result<Command<'a>, AllocError>
    ensures shape { IfOk result (λ c. app_of c ≡ command (codes "run-image") (file_rule (codes "IMAGE") ∷ steps_rule ∷ [])) }
    ensures local { IfOk result (λ c. (fields_of c).has_globals ≡ false) }
{
    let command = Command::new(alloc, "run-image").arg(file_argument(alloc, "IMAGE"))?;
    command.arg(steps_argument(alloc))
}

// a command that makes the file of an image from another file
#[tactic(auto, unfolding(crate::specs::Commands::command))]
fn making_command<'a>(
    alloc: Global,
    name: &'a str,
    source: &'a str,
) -> Result<Command<'a>, AllocError>
    ensures shape { IfOk result (λ c. app_of c ≡ command name.entry.now (file_rule source.entry.now ∷ file_rule (codes "IMAGE") ∷ [])) }
    ensures local { IfOk result (λ c. (fields_of c).has_globals ≡ false) }
{
    let command = Command::new(alloc, name).arg(file_argument(alloc, source))?;
    command.arg(file_argument(alloc, "IMAGE"))
}

#[tactic(auto, unfolding(crate::specs::Commands::command))]
fn list_command<'a>(alloc: Global) -> Result<Command<'a>, AllocError>
    ensures shape { IfOk result (λ c. app_of c ≡ command (codes "list") (file_rule (codes "IMAGE") ∷ [])) }
    ensures local { IfOk result (λ c. (fields_of c).has_globals ≡ false) }
{
    Command::new(alloc, "list").arg(file_argument(alloc, "IMAGE"))
}

#[tactic(auto, unfolding(crate::specs::Commands::command, cli::specs::Arguments::with_documents))]
fn debug_command<'a>(alloc: Global) -> Result<Command<'a>, AllocError>
    ensures shape { let documents = option_rule (codes "review") ∷ option_rule (codes "namespace") ∷ option_rule (codes "params") ∷ [] in
        IfOk result (λ c. app_of c ≡ command (codes "debug") (file_rule (codes "IMAGE") ∷ documents)) }
    ensures local { IfOk result (λ c. (fields_of c).has_globals ≡ false) }
{
    let command = Command::new(alloc, "debug").arg(file_argument(alloc, "IMAGE"))?;
    with_documents(alloc, command.arg(option_argument(alloc, "review"))?)
}

#[tactic(auto, unfolding(crate::specs::Commands::command, cli::specs::Arguments::with_documents))]
fn review_command<'a>(alloc: Global) -> Result<Command<'a>, AllocError>
    ensures shape { let further = option_rule (codes "namespace") ∷ option_rule (codes "params") ∷ steps_rule ∷ [] in
        IfOk result (λ c. app_of c ≡ command (codes "review") (required_option_rule (codes "policy") ∷ required_option_rule (codes "review") ∷ further)) }
    ensures local { IfOk result (λ c. (fields_of c).has_globals ≡ false) }
{
    let command = Command::new(alloc, "review").arg(required_option_argument(alloc, "policy"))?;
    let command = command.arg(required_option_argument(alloc, "review"))?;
    with_documents(alloc, command)?.arg(steps_argument(alloc))
}

// the program, with the commands that run an image
#[tactic(auto, unfolding(crate::specs::Commands::with_commands, crate::specs::Commands::commands))]
fn running_command<'a>(alloc: Global) -> Result<Command<'a>, AllocError>
    ensures shape { IfOk result (λ c. app_of c ≡ with_commands (take 2 commands)) }
    ensures local { IfOk result (λ c. (fields_of c).has_globals ≡ false) }
{
    let run_image = run_image_command(alloc)?;
    let command = Command::new(alloc, "celbpf").subcommand_required(true);
    let command = command.subcommand(run_image)?;
    match debug_command(alloc) {
        Ok(debug) => command.subcommand(debug),
        Err(error) => {
            drop(command);
            Err(error)
        }
    }
}

// these commands, and the one that compiles a policy
#[tactic(auto, unfolding(crate::specs::Commands::with_commands, crate::specs::Commands::commands))]
fn compiling_command<'a>(alloc: Global) -> Result<Command<'a>, AllocError>
    ensures shape { IfOk result (λ c. app_of c ≡ with_commands (take 3 commands)) }
    ensures local { IfOk result (λ c. (fields_of c).has_globals ≡ false) }
{
    let command = running_command(alloc)?;
    match making_command(alloc, "compile", "POLICY") {
        Ok(compile) => command.subcommand(compile),
        Err(error) => {
            drop(command);
            Err(error)
        }
    }
}

// these commands, and the one that decides a review
#[tactic(auto, unfolding(crate::specs::Commands::with_commands, crate::specs::Commands::commands))]
fn deciding_command<'a>(alloc: Global) -> Result<Command<'a>, AllocError>
    ensures shape { IfOk result (λ c. app_of c ≡ with_commands (take 4 commands)) }
    ensures local { IfOk result (λ c. (fields_of c).has_globals ≡ false) }
{
    let command = compiling_command(alloc)?;
    match review_command(alloc) {
        Ok(review) => command.subcommand(review),
        Err(error) => {
            drop(command);
            Err(error)
        }
    }
}

// these commands, and the one that assembles a text
#[tactic(auto, unfolding(crate::specs::Commands::with_commands, crate::specs::Commands::commands))]
fn assembling_command<'a>(alloc: Global) -> Result<Command<'a>, AllocError>
    ensures shape { IfOk result (λ c. app_of c ≡ with_commands (take 5 commands)) }
    ensures local { IfOk result (λ c. (fields_of c).has_globals ≡ false) }
{
    let command = deciding_command(alloc)?;
    match making_command(alloc, "asm", "TEXT") {
        Ok(assemble) => command.subcommand(assemble),
        Err(error) => {
            drop(command);
            Err(error)
        }
    }
}

// the program, with all its commands
#[tactic(auto, unfolding(crate::specs::Commands::celbpf_app, crate::specs::Commands::with_commands, crate::specs::Commands::commands))]
fn celbpf_command<'a>(alloc: Global) -> Result<Command<'a>, AllocError>
    ensures shape { IfOk result (λ c. app_of c ≡ celbpf_app) }
    ensures local { IfOk result (λ c. (fields_of c).has_globals ≡ false) }
{
    let command = assembling_command(alloc)?;
    match list_command(alloc) {
        Ok(list) => command.subcommand(list),
        Err(error) => {
            drop(command);
            Err(error)
        }
    }
}

// the arguments that `clap` finds in the words, or its error. The program's name comes first.
pub fn celbpf_matches<'a>(alloc: Global, words: &'a [&'a str]) -> Result<ArgMatches<'a>, OrderError>
    ensures rows { IfOk result (λ m. subcommand_rows_of m ≡ entered (map (λ s. s.now) words.entry.now)) }
    ensures taken { TakesWords (faults (map (λ s. s.now) words.entry.now)) (λ _. Unit {0}) result }
    ensures named { IfOk result (λ m. has_subcommand m ≡ true) }
{
    let command = celbpf_command(alloc)?;
    parse(command, words)
}
