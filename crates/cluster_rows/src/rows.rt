//! Rows worked by hand, each record of them a clause of an empty function.
ghost use Rattle.cluster_rows.specs.Commands.{EndRowsHold, HeldRowsHold, CommandWordsHold};
ghost use Rattle.cluster_rows.specs.Depths.{DepthRowsHold};
ghost use Rattle.cluster_rows.specs.Gatekeeper.{FaultLineRowsHold, FaultNameRowsHold, GatekeeperLinesHold, TellingRowsHold, TogetherRowsHold};
ghost use Rattle.cluster_rows.specs.Gates.{BlockRowsHold, CompiledRowsHold, ErrorRowsHold, JsonTextsHold};
ghost use Rattle.cluster_rows.specs.Lines.{BlankRowsHold};
ghost use Rattle.cluster_rows.specs.Matching.{EquivalentAnswersHold, ExactRowsHold, ExemptGroupsHold, NamespaceAnswersHold, RuleRowsHold, SharedRowsHold};
ghost use Rattle.cluster_rows.specs.Refusals.{MemoryRefusalsHold};
ghost use Rattle.cluster_rows.specs.Responses.{EventAnswerRowsHold};
ghost use Rattle.cluster_rows.specs.Reviews.{CodeRowsHold, OutcomeRowsHold, RootRowsHold};
ghost use Rattle.cluster_rows.specs.Selectors.{SelectorOperatorsHold, PrefixRowsHold, ValueRowsHold};
ghost use Rattle.cluster_rows.specs.State.{ActionRowsHold, DueNameRowsHold, DueRowsHold, ListRowsHold, ParamAnswersHold};
ghost use Rattle.cluster_rows.specs.Translations.{WrittenTranslationsHold};
ghost use Rattle.cluster_rows.specs.Words.{CommandOrdersHold, FaultRowsHold, HelpRowsHold, TranslationOrdersHold};

/// Characters of keys and values of labels, and an operator without values.
pub fn selector_rows_stand()
    ensures values { ValueRowsHold }
    ensures prefixes { PrefixRowsHold }
    ensures operators { SelectorOperatorsHold }
{}

/// Rules on requests, under Exact and under Equivalent.
pub fn matching_rows_stand()
    ensures rules { RuleRowsHold }
    ensures shared { SharedRowsHold }
    ensures exact { ExactRowsHold }
    ensures equivalent { EquivalentAnswersHold }
    ensures exempt { ExemptGroupsHold }
    ensures namespaces { NamespaceAnswersHold }
{}

/// Lists, bindings and kinds of params of a cluster's state.
pub fn state_rows_stand()
    ensures lists { ListRowsHold }
    ensures refusals { DueRowsHold }
    ensures named { DueNameRowsHold }
    ensures actions { ActionRowsHold }
    ensures kinds { ParamAnswersHold }
{}

/// Blank lines, and the ends of lines.
pub fn line_rows_stand()
    ensures { BlankRowsHold }
{}

/// Answers by events in another order.
pub fn response_rows_stand()
    ensures { EventAnswerRowsHold }
{}

/// Outcomes that allow, refusals of roots, and the codes of errors.
pub fn review_rows_stand()
    ensures outcomes { OutcomeRowsHold }
    ensures roots { RootRowsHold }
    ensures names { CodeRowsHold }
{}

/// Texts of refusals for failed allocations.
pub fn refusal_rows_stand()
    ensures { MemoryRefusalsHold }
{}

/// Blocked policies, refusals of evaluations, and texts of documents.
pub fn gate_rows_stand()
    ensures blocks { BlockRowsHold }
    ensures errors { ErrorRowsHold }
    ensures texts { JsonTextsHold }
    ensures documents { CompiledRowsHold }
{}

/// Command lines of celbpf, statuses of runs, and ends of sessions.
pub fn command_rows_stand()
    ensures lines { CommandWordsHold }
    ensures ends { EndRowsHold }
    ensures held { HeldRowsHold }
{}

/// Command lines of the gatekeeper with what they ask for, and its help.
pub fn word_rows_stand()
    ensures orders { CommandOrdersHold }
    ensures translations { TranslationOrdersHold }
    ensures faults { FaultRowsHold }
    ensures help { HelpRowsHold }
{}

/// Policies that `gatekeeper --translate` writes.
pub fn translation_rows_stand()
    ensures { WrittenTranslationsHold }
{}

/// Depths of expressions, and the refusal of one that is too deep.
pub fn depth_rows_stand()
    ensures { DepthRowsHold }
{}

/// What the gatekeeper writes: answers to lines, joined decisions, and lines on a cluster's policies.
pub fn gatekeeper_rows_stand()
    ensures lines { GatekeeperLinesHold }
    ensures together { TogetherRowsHold }
    ensures refusals { FaultLineRowsHold }
    ensures named { FaultNameRowsHold }
    ensures policies { TellingRowsHold }
{}
