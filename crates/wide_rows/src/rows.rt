//! Rows by the crate whose definitions they pin; each function is empty, and its contract is the rows.
ghost use Rattle.wide_rows.specs.DecisionRows.{WideDecisionRowsStand};
ghost use Rattle.wide_rows.specs.MacroMeaningRows.{MacroMeaningRowsStand};
ghost use Rattle.wide_rows.specs.KindRows.{FittingRowsStand, KindRowsStand};
ghost use Rattle.wide_rows.specs.MeaningRows.{AccessRowsStand, FunctionRowsStand, NameRowsStand};
ghost use Rattle.wide_rows.specs.MeaningRows.{WideOperatorRowsStand, OptionalValueRowsStand};
ghost use Rattle.wide_rows.specs.PolicyRows.{WideNamedRowsStand, WideNullRowsStand, WideNullTextRowsStand};
ghost use Rattle.wide_rows.specs.PolicyRows.{WideValidationRowsStand, WideVersionRowsStand};
ghost use Rattle.wide_rows.specs.PolicyRows.{RefusedPartRowsStand, TabledRowsStand, TakenRowsStand, WidePartRowsStand};
ghost use Rattle.wide_rows.specs.PolicyRows.{WideRefusalRowsStand};
ghost use Rattle.wide_rows.specs.ReaderRows.{WideFormRowsStand, WideMacroRowsStand, WideErrorRowsStand, WideFaultRowsStand};
ghost use Rattle.wide_rows.specs.ReaderRows.{WideSequenceRowsStand, WideWordRowsStand};
ghost use Rattle.wide_rows.specs.TableRows.{WrappingRowsStand};
ghost use Rattle.wide_rows.specs.TokenRows.{MemoryRowsStand, WideSignRowsStand, WideTokenRowsStand, TokenWordRowsStand};

/// Gaps, numbers, texts and names at the front of a text, and signs after a token.
#[tactic(auto, unfolding(crate::proofs::OnLiterals::tokens_on_literals))]
pub fn token_rows_stand()
    ensures fronts { WideTokenRowsStand }
    ensures signs { WideSignRowsStand }
    ensures words { TokenWordRowsStand }
{}

/// Where an allocation may fail.
pub fn memory_rows_stand()
    ensures { MemoryRowsStand }
{}

/// Words, and sequences of expressions.
pub fn word_rows_stand()
    ensures words { WideWordRowsStand }
    ensures sequences { WideSequenceRowsStand }
{}

/// Macros, their faults, and errors.
#[tactic(auto, unfolding(crate::proofs::OnLiterals::faults_on_literals))]
pub fn macro_rows_stand()
    ensures forms { WideFormRowsStand }
    ensures macros { WideMacroRowsStand }
    ensures faults { WideFaultRowsStand }
    ensures errors { WideErrorRowsStand }
{}

/// Kinds of expressions and of values.
pub fn kind_rows_stand()
    ensures kinds { KindRowsStand }
    ensures fitting { FittingRowsStand }
{}

/// Meanings of accesses and operators.
#[tactic(auto, unfolding(crate::proofs::OnLiterals::meanings_on_literals))]
pub fn access_rows_stand()
    ensures accesses { AccessRowsStand }
    ensures operators { WideOperatorRowsStand }
{}

/// Meanings of functions, methods and optional values.
#[tactic(auto, unfolding(crate::proofs::OnLiterals::meanings_on_literals))]
pub fn function_rows_stand()
    ensures functions { FunctionRowsStand }
    ensures names { NameRowsStand }
    ensures optional { OptionalValueRowsStand }
{}

/// Meanings of macros.
#[tactic(auto, unfolding(crate::proofs::OnLiterals::meanings_on_literals))]
pub fn macro_meanings_stand()
    ensures { MacroMeaningRowsStand }
{}

/// Versions of policies, and fields of servers.
#[tactic(auto, unfolding(crate::proofs::OnLiterals::documents_on_literals))]
pub fn version_rows_stand()
    ensures { WideVersionRowsStand }
{}

/// Null fields of a specification.
#[tactic(auto, unfolding(crate::proofs::OnLiterals::documents_on_literals))]
pub fn null_rows_stand()
    ensures { WideNullRowsStand }
{}

/// Failure policies, conditions and variables.
#[tactic(auto, unfolding(crate::proofs::OnLiterals::documents_on_literals))]
pub fn named_rows_stand()
    ensures { WideNamedRowsStand }
{}

/// Null fields of a validation.
#[tactic(auto, unfolding(crate::proofs::OnLiterals::documents_on_literals))]
pub fn null_text_rows_stand()
    ensures { WideNullTextRowsStand }
{}

/// Lists of validations.
#[tactic(auto, unfolding(crate::proofs::OnLiterals::documents_on_literals))]
pub fn validation_rows_stand()
    ensures { WideValidationRowsStand }
{}

/// Parts of documents.
pub fn document_rows_stand()
    ensures { WidePartRowsStand }
{}

/// Codes and places of refusals.
pub fn refusal_rows_stand()
    ensures { WideRefusalRowsStand }
{}

/// Policies for which the table of indices is long enough.
#[tactic(auto, unfolding(crate::proofs::OnLiterals::ranges_on_literals))]
pub fn tabled_rows_stand()
    ensures { TabledRowsStand }
{}

/// Expressions that are taken, and the policies of them.
#[tactic(auto, unfolding(crate::proofs::OnLiterals::printed_on_literals))]
pub fn part_rows_stand()
    ensures { TakenRowsStand }
{}

/// Refusals of parts of policies.
pub fn refused_parts_stand()
    ensures { RefusedPartRowsStand }
{}

/// Decisions of policies by what their wide expressions mean.
#[tactic(auto, unfolding(crate::proofs::OnLiterals::decisions_on_literals))]
pub fn decision_rows_stand()
    ensures { WideDecisionRowsStand }
{}

/// Roots with a table of indices beside the params.
pub fn table_rows_stand()
    ensures { WrappingRowsStand }
{}
