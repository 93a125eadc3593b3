//! Laws of the definitions, each the clause of a function that does nothing.
ghost use Rattle.cluster_response.specs.Laws.{AllowedExactly, RefusalsHideNoFail, WarningsAreThoseOfEvents};

/// A request is allowed exactly if no event denies it, the dispatch does not end and each policy
/// decides; it is not allowed exactly if an event denies it or the dispatch ends.
pub fn allowed_exactly()
    ensures { AllowedExactly }
{}

/// A policy under `Ignore` is told of those that do not decide only if each policy under `Fail`
/// decides.
pub fn refusals_hide_no_fail()
    ensures { RefusalsHideNoFail }
{}

/// The warnings are the texts by which an event warns, so their set does not depend on the order of
/// the events.
pub fn warnings_are_those_of_events()
    ensures { WarningsAreThoseOfEvents }
{}
