//! Reads the command line.
ghost use Rattle.std.specs.Prelude.{map, IfOk};
ghost use Rattle.clap.specs.Words.{found_of, rows_of};
ghost use Rattle.review_runner.specs.Order.{assemble_in, compile_in, debug_in, list_in, order_view, review_in, run_image_in, order_named};
ghost use Rattle.review_runner.specs.Order.{CommandReturns, IsWithinLimits, OrderReturns};

use crate::command_line::commands::celbpf_matches;
use crate::command_line::order::Order;
use crate::documents::document_names::DocumentNames;
use crate::documents::review_names::ReviewNames;
use clap::ArgMatches;
use cli::{name_in, steps_in, text_or_empty};
use host::OrderError;
use std::alloc::Global;

#[tactic(auto, unfolding(crate::specs::Order::compile_in))]
fn compile_order(alloc: Global, matches: &ArgMatches) -> Result<Order, OrderError>
    ensures { CommandReturns (compile_in (rows_of (found_of matches.now))) result }
{
    let policy = String::from_str(alloc, text_or_empty(matches, "POLICY"))?;
    let image = String::from_str(alloc, text_or_empty(matches, "IMAGE"))?;
    Ok(Order::Compile { policy, image })
}

#[tactic(auto, unfolding(crate::specs::Order::review_in))]
fn review_order(alloc: Global, matches: &ArgMatches) -> Result<Order, OrderError>
    ensures { CommandReturns (review_in (rows_of (found_of matches.now))) result }
{
    let files = ReviewNames {
        policy: String::from_str(alloc, text_or_empty(matches, "policy"))?,
        review: String::from_str(alloc, text_or_empty(matches, "review"))?,
        namespace: name_in(alloc, matches, "namespace")?,
        params: name_in(alloc, matches, "params")?,
    };
    let steps = steps_in(matches);
    Ok(Order::Review { files, steps })
}

#[tactic(auto, unfolding(crate::specs::Order::run_image_in))]
fn run_image_order(alloc: Global, matches: &ArgMatches) -> Result<Order, OrderError>
    ensures { CommandReturns (run_image_in (rows_of (found_of matches.now))) result }
{
    let image = String::from_str(alloc, text_or_empty(matches, "IMAGE"))?;
    let steps = steps_in(matches);
    Ok(Order::RunImage { image, steps })
}

#[tactic(auto, unfolding(crate::specs::Order::assemble_in))]
fn assemble_order(alloc: Global, matches: &ArgMatches) -> Result<Order, OrderError>
    ensures { CommandReturns (assemble_in (rows_of (found_of matches.now))) result }
{
    let text = String::from_str(alloc, text_or_empty(matches, "TEXT"))?;
    let image = String::from_str(alloc, text_or_empty(matches, "IMAGE"))?;
    Ok(Order::Assemble { text, image })
}

#[tactic(auto, unfolding(crate::specs::Order::list_in))]
fn list_order(alloc: Global, matches: &ArgMatches) -> Result<Order, OrderError>
    ensures { CommandReturns (list_in (rows_of (found_of matches.now))) result }
{
    let image = String::from_str(alloc, text_or_empty(matches, "IMAGE"))?;
    Ok(Order::List { image })
}

#[tactic(auto, unfolding(crate::specs::Order::debug_in))]
fn debug_order(alloc: Global, matches: &ArgMatches) -> Result<Order, OrderError>
    ensures { CommandReturns (debug_in (rows_of (found_of matches.now))) result }
{
    let image = String::from_str(alloc, text_or_empty(matches, "IMAGE"))?;
    let documents = DocumentNames {
        review: name_in(alloc, matches, "review")?,
        namespace: name_in(alloc, matches, "namespace")?,
        params: name_in(alloc, matches, "params")?,
    };
    Ok(Order::Debug { image, documents })
}

// the order of the command `name`; any name that is left is the last command's
fn order_named(alloc: Global, name: &str, matches: &ArgMatches) -> Result<Order, OrderError>
    ensures { CommandReturns (order_named name.now (rows_of (found_of matches.now))) result }
{
    match name {
        "compile" => compile_order(alloc, matches),
        "review" => review_order(alloc, matches),
        "run-image" => run_image_order(alloc, matches),
        "asm" => assemble_order(alloc, matches),
        "list" => list_order(alloc, matches),
        _ => debug_order(alloc, matches),
    }
}

// the order that the words give
fn given_order<'a>(alloc: Global, words: &'a [&'a str]) -> Result<Order, OrderError>
    ensures { OrderReturns (map (λ s. s.now) words.entry.now) result }
{
    let matches = celbpf_matches(alloc, words)?;
    match matches.subcommand() {
        Some((name, inner)) => order_named(alloc, name, inner),
        None => unreachable!(),
    }
}

/// Reads the words of a command line. The program's name comes first.
///
/// A number may have a leading `+` and leading zeros. A file name may be empty.
///
/// # Errors
///
/// `InvalidArguments` exactly if `clap` refuses the words, as it does for `--help`. `Memory` if an
/// allocation fails, which says nothing about the words.
#[tactic(auto, using(crate::proofs::Limit::within_limits))]
pub fn order<'a>(alloc: Global, words: &'a [&'a str]) -> Result<Order, OrderError>
    ensures answer { OrderReturns (map (λ s. s.now) words.entry.now) result }
    ensures limits { IfOk result (λ o. IsWithinLimits (order_view o)) }
{
    given_order(alloc, words)
}
