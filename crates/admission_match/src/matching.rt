//! Whether match resources match a request.
ghost use Rattle.std.specs.Prelude.{◌≡◌, map, option_map};
ghost use Rattle.admission_match.specs.Matching.{after_rules, at_rules, beside_namespace, labels_in, match_answer, match_view, namespace_answer, object_passes, passes_if, selects_object};
ghost use Rattle.admission_match.specs.Requests.{attributes_view, resource_view};
ghost use Rattle.admission_match.specs.Rules.{covers_one, fits, may_fit, rule_view, rules_answer};
ghost use Rattle.std.specs.List.{list_any};
ghost use Rattle.label_selectors.specs.Selectors.{selector_view, selects};

use crate::answer::Answer;
use crate::attributes::Attributes;
use crate::equivalents::may_fit;
use crate::match_policy::MatchPolicy;
use crate::match_resources::MatchResources;
use crate::namespace_answer::NamespaceAnswer;
use crate::namespaces::Namespaces;
use crate::patterns::covers_one;
use crate::rule::Rule;
use crate::rules_answer::RulesAnswer;
use crate::trouble::Trouble;
use label_selectors::{LabelPairs, LabelSelector, Labels};

impl MatchResources {
    /// Whether the match resources match the request. The order of the rules does not matter.
    #[tactic(auto, unfolding(crate::specs::Matching::match_answer))]
    pub fn matches<L: Labels, N: Namespaces>(
        &self,
        request: &Attributes<'_, L>,
        namespaces: &N,
    ) -> Answer
        ensures { result ≡ match_answer (match_view self.now) (N.labels namespaces.now) (attributes_view L.map request.now) }
    {
        let namespace = namespace_answer(&self.namespace_selector, namespaces, request);
        match namespace {
            NamespaceAnswer::KeptOut => Answer::No,
            NamespaceAnswer::Passes => beside_namespace(self, request, namespace),
            NamespaceAnswer::NoLabels(_) => beside_namespace(self, request, namespace),
        }
    }
}

/// The answer of the objects, the excluding rules and the rules, given that of the namespace.
fn beside_namespace<L: Labels>(
    resources: &MatchResources,
    request: &Attributes<'_, L>,
    namespace: NamespaceAnswer,
) -> Answer
    ensures { result ≡ beside_namespace (λ rs. rules_answer resources.now.match_policy rs (attributes_view L.map request.now))
        (match_view resources.now) (attributes_view L.map request.now) namespace }
{
    if !object_passes(&resources.object_selector, request) {
        return Answer::No;
    }
    match rules_answer(
        resources.match_policy,
        &resources.exclude_resource_rules,
        request,
    ) {
        RulesAnswer::SomeFits => Answer::No,
        RulesAnswer::NotKnown => Answer::Unknown,
        RulesAnswer::NoneFits => {
            let rules = rules_answer(resources.match_policy, &resources.resource_rules, request);
            at_rules(namespace, &resources.resource_rules, rules)
        }
    }
}

/// Whether the namespace selector lets the request pass.
fn namespace_answer<L: Labels, N: Namespaces>(
    selector: &LabelSelector,
    namespaces: &N,
    request: &Attributes<'_, L>,
) -> NamespaceAnswer
    ensures { result ≡ namespace_answer (selector_view selector.now) (N.labels namespaces.now) (attributes_view L.map request.now) }
{
    if request.is_outside_namespaces() {
        return NamespaceAnswer::Passes;
    }
    if selector.is_empty() {
        return NamespaceAnswer::Passes;
    }
    if request.writes_namespace() {
        return passes_if(selects_written(selector, &request.object));
    }
    if request.namespace.is_empty() {
        return NamespaceAnswer::NoLabels(Trouble::NoName);
    }
    match namespaces.selected(request.namespace, selector) {
        Some(selected) => passes_if(selected),
        None => NamespaceAnswer::NoLabels(Trouble::NotFound),
    }
}

fn passes_if(selected: bool) -> NamespaceAnswer
    ensures { result ≡ passes_if selected }
{
    if selected {
        NamespaceAnswer::Passes
    } else {
        NamespaceAnswer::KeptOut
    }
}

/// Whether the selector selects the object. A missing object has no labels.
fn selects_written<L: Labels>(selector: &LabelSelector, object: &Option<L>) -> bool
    ensures { result ≡ selects (selector_view selector.now) (labels_in (option_map L.map object.now)) }
{
    match object {
        Some(labels) => selector.selects(labels),
        None => selector.selects(&LabelPairs { pairs: &[] }),
    }
}

/// Whether the object selector lets the request pass.
fn object_passes<L: Labels>(selector: &LabelSelector, request: &Attributes<'_, L>) -> bool
    ensures { result ≡ object_passes (selector_view selector.now) (attributes_view L.map request.now) }
{
    selector.is_empty()
        || selects_object(selector, &request.object)
        || selects_object(selector, &request.old_object)
}

/// Whether there is an object with metadata that the selector selects.
fn selects_object<L: Labels>(selector: &LabelSelector, object: &Option<L>) -> bool
    ensures { result ≡ selects_object (selector_view selector.now) (option_map L.map object.now) }
{
    match object {
        Some(labels) => selector.selects(labels),
        None => false,
    }
}

/// The answer of a list of rules. Most policies are for other resources, which is tested first.
#[tactic(auto, using(crate::proofs::Covered::none_covered))]
fn rules_answer<L: Labels>(
    policy: MatchPolicy,
    rules: &[Rule],
    request: &Attributes<'_, L>,
) -> RulesAnswer
    ensures { result ≡ rules_answer policy (map rule_view rules.now) (attributes_view L.map request.now) }
{
    if !one_covers(rules, request) {
        return RulesAnswer::NoneFits;
    }
    match policy {
        MatchPolicy::Exact => {
            if one_fits(rules, request) {
                RulesAnswer::SomeFits
            } else {
                RulesAnswer::NoneFits
            }
        }
        MatchPolicy::Equivalent => {
            if one_fits(rules, request) {
                RulesAnswer::SomeFits
            } else if one_may_fit(rules, request) {
                RulesAnswer::NotKnown
            } else {
                RulesAnswer::NoneFits
            }
        }
    }
}

/// Whether a rule covers the request's resource. Otherwise none fits, and none may fit.
fn one_covers<L: Labels>(rules: &[Rule], request: &Attributes<'_, L>) -> bool
    ensures { result ≡ list_any (λ r. covers_one r.resources request.now.resource.resource.now request.now.subresource.now) (map rule_view rules.now) }
{
    some_covers(rules, request)
}

fn some_covers<L: Labels>(rules: &[Rule], request: &Attributes<'_, L>) -> bool
    ensures { result ≡ list_any (λ r. covers_one (rule_view r).resources request.now.resource.resource.now request.now.subresource.now) rules.now }
{
    rules.iter().any(|rule| {
        covers_one(
            &rule.resources,
            request.resource.resource,
            request.subresource,
        )
    })
}

/// Whether a rule fits the request.
fn one_fits<L: Labels>(rules: &[Rule], request: &Attributes<'_, L>) -> bool
    ensures { result ≡ list_any (λ r. fits r (attributes_view L.map request.now) (resource_view request.now.resource)) (map rule_view rules.now) }
{
    some_fits(rules, request)
}

fn some_fits<L: Labels>(rules: &[Rule], request: &Attributes<'_, L>) -> bool
    ensures { result ≡ list_any (λ r. fits (rule_view r) (attributes_view L.map request.now) (resource_view request.now.resource)) rules.now }
{
    rules.iter().any(|rule| rule.fits(request))
}

/// Whether a rule may fit the request under another resource: one that a server may store in the
/// same place as the named one.
fn one_may_fit<L: Labels>(rules: &[Rule], request: &Attributes<'_, L>) -> bool
    ensures { result ≡ list_any (λ r. may_fit r (attributes_view L.map request.now)) (map rule_view rules.now) }
{
    some_may_fit(rules, request)
}

fn some_may_fit<L: Labels>(rules: &[Rule], request: &Attributes<'_, L>) -> bool
    ensures { result ≡ list_any (λ r. may_fit (rule_view r) (attributes_view L.map request.now)) rules.now }
{
    rules.iter().any(|rule| may_fit(rule, request))
}

/// The answer given that of the rules. An empty list of rules matches every request.
fn at_rules(namespace: NamespaceAnswer, rules: &[Rule], answer: RulesAnswer) -> Answer
    ensures { result ≡ at_rules namespace (map rule_view rules.now) answer }
{
    if rules.is_empty() {
        return after_rules(namespace);
    }
    match answer {
        RulesAnswer::SomeFits => after_rules(namespace),
        RulesAnswer::NoneFits => Answer::No,
        RulesAnswer::NotKnown => Answer::Unknown,
    }
}

/// The answer if everything except the namespace matches.
fn after_rules(namespace: NamespaceAnswer) -> Answer
    ensures { result ≡ after_rules namespace }
{
    match namespace {
        NamespaceAnswer::Passes => Answer::Yes,
        NamespaceAnswer::KeptOut => Answer::No,
        NamespaceAnswer::NoLabels(trouble) => Answer::Trouble(trouble),
    }
}
