//! Reads the command line.
ghost use Rattle.std.specs.Prelude.{◌≡◌, map, string_bytes, IfOk};
ghost use Rattle.clap.specs.Words.{found_of, rows_of};
ghost use Rattle.cli.specs.Parsing.{TakesWords};
ghost use Rattle.gatekeeper_runner.specs.Orders.{cluster_from, cluster_order_view, entered, go_together, has_switch, is_named, language_from, lines_faults, lines_order_view, order_from, order_view, policies_from, rule_from, settings_from, texts_of, GatekeeperOrderReturns};

use crate::cluster::order::ClusterOrder;
use crate::command_line::{LONGEST_LINE, gatekeeper_matches};
use crate::order::Order;
use crate::policies::order::PolicyOrder;
use crate::settings::Settings;
use crate::translating::ordering::{asks_translation, translation_of};
use admission::{Language, Limits, MessageRule};
use clap::ArgMatches;
use cli::{name_in, number_in, reads_in, steps_in, text_in};
use host::OrderError;
use std::alloc::{AllocError, Global};

/// Reads the words of a command line. The program's name comes first.
///
/// # Errors
///
/// `InvalidArguments` exactly if `clap` refuses the words. `Memory` if an allocation fails, which
/// implies nothing about the words.
pub fn order_of<'a>(alloc: Global, words: &'a [&'a str]) -> Result<Order, OrderError>
    ensures { GatekeeperOrderReturns (map (λ s. s.now) words.entry.now) result }
{
    if asks_translation(words) {
        return Ok(Order::Translation(translation_of(alloc, words)?));
    }
    lines_order_of(alloc, words)
}

/// Reads words that do not ask for a translation.
fn lines_order_of<'a>(alloc: Global, words: &'a [&'a str]) -> Result<Order, OrderError>
    ensures { TakesWords (lines_faults (map (λ s. s.now) words.entry.now)) (λ o. order_from (entered (map (λ s. s.now) words.entry.now)) ≡ lines_order_view o) result }
{
    let matches = gatekeeper_matches(alloc, words)?;
    if !go_together(&matches) {
        return Err(OrderError::InvalidArguments);
    }
    Ok(order_from(alloc, &matches)?)
}

/// Whether the arguments go together.
fn go_together(matches: &ArgMatches) -> bool
    ensures { result ≡ go_together (rows_of (found_of matches.now)) }
{
    if is_named(matches, "cluster") {
        !is_named(matches, "policy")
            && !is_named(matches, "namespace")
            && !is_named(matches, "params")
            && !(has_switch(matches, "profile") && has_switch(matches, "leave-messages"))
    } else {
        is_named(matches, "policy")
            && !has_switch(matches, "partial")
            && !has_switch(matches, "leave-messages")
    }
}

/// Whether the argument `id` was given.
fn is_named(matches: &ArgMatches, id: &str) -> bool
    ensures { result ≡ is_named id.now (rows_of (found_of matches.now)) }
{
    text_in(matches, id).is_some()
}

/// Whether the switch was given.
fn has_switch(matches: &ArgMatches, id: &str) -> bool
    ensures { result ≡ has_switch id.now (rows_of (found_of matches.now)) }
{
    match text_in(matches, id) {
        Some(text) => text == "true",
        None => false,
    }
}

/// The language of the policies.
fn language_in(matches: &ArgMatches) -> Language
    ensures { result ≡ language_from (rows_of (found_of matches.now)) }
{
    if has_switch(matches, "profile") {
        Language::Profile
    } else {
        Language::Wide(rule_in(matches))
    }
}

/// What happens to message expressions that are refused.
pub fn rule_in(matches: &ArgMatches) -> MessageRule
    ensures { result ≡ rule_from (rows_of (found_of matches.now)) }
{
    if has_switch(matches, "leave-messages") {
        MessageRule::LeftOut
    } else {
        MessageRule::Required
    }
}

fn order_from(alloc: Global, matches: &ArgMatches) -> Result<Order, AllocError>
    ensures { IfOk result (λ o. lines_order_view o ≡ order_from (rows_of (found_of matches.now))) }
{
    if is_named(matches, "cluster") {
        Ok(Order::Cluster(cluster_from(alloc, matches)?))
    } else {
        Ok(Order::Policies(policies_from(alloc, matches)?))
    }
}

#[tactic(auto, unfolding(crate::specs::Orders::policies_from))]
fn policies_from(alloc: Global, matches: &ArgMatches) -> Result<PolicyOrder, AllocError>
    ensures { IfOk result (λ o. order_view o ≡ policies_from (rows_of (found_of matches.now))) }
{
    Ok(PolicyOrder {
        alloc,
        policies: names_in(alloc, matches, "policy")?,
        namespace: name_in(alloc, matches, "namespace")?,
        params: name_in(alloc, matches, "params")?,
        settings: settings_in(matches),
    })
}

#[tactic(auto, unfolding(crate::specs::Orders::cluster_from))]
fn cluster_from(alloc: Global, matches: &ArgMatches) -> Result<ClusterOrder, AllocError>
    ensures { IfOk result (λ o. cluster_order_view o ≡ cluster_from (rows_of (found_of matches.now))) }
{
    Ok(ClusterOrder {
        alloc,
        files: names_in(alloc, matches, "cluster")?,
        partial: has_switch(matches, "partial"),
        settings: settings_in(matches),
    })
}

/// How lines are answered.
fn settings_in(matches: &ArgMatches) -> Settings
    ensures { result ≡ settings_from (rows_of (found_of matches.now)) }
{
    Settings {
        language: language_in(matches),
        limits: Limits {
            steps: steps_in(matches),
            reads: reads_in(matches),
        },
        max_line: number_in(matches, "max-line").unwrap_or(LONGEST_LINE),
        verbose: has_switch(matches, "verbose"),
        status: has_switch(matches, "status"),
    }
}

// the values of the argument `id`
fn names_in(alloc: Global, matches: &ArgMatches, id: &str) -> Result<Vec<String>, AllocError>
    ensures { IfOk result (λ names. map string_bytes names.items ≡ texts_of id.now (rows_of (found_of matches.now))) }
{
    match matches.get_strs(id) {
        Some(texts) => names_of(alloc, texts),
        None => Ok(Vec::new(alloc)),
    }
}

// copies of the texts
fn names_of(alloc: Global, texts: &[&str]) -> Result<Vec<String>, AllocError>
    ensures { IfOk result (λ names. map string_bytes names.items ≡ map (λ s. s.now) texts.now) }
{
    let mut names = Vec::new(alloc);
    for text in texts {
        names.push(String::from_str(alloc, text)?)?;
    }
    Ok(names)
}
