//! Rows by the crate whose definitions they pin; each function is empty, and its contract is the rows.
ghost use Rattle.cel_rows.specs.KubernetesRows.{AuthorizerRowsStand, FieldNameRowsStand, KubernetesRowsStand};
ghost use Rattle.cel_rows.specs.TokenRows.{CommentRowsStand, IntRowsStand, OpeningRowsStand, TextEscapeRowsStand};
ghost use Rattle.cel_rows.specs.ReaderRows.{GrammarRowsStand, OperatorRowsStand, CommaRowsStand, NestingRowsStand, WordRowsStand, SequenceRowsStand};
ghost use Rattle.cel_rows.specs.MacroRows.{ExpansionRowsStand, CalleeRowsStand, FaultRowsStand};
ghost use Rattle.cel_rows.specs.TypeRows.{OperandRowsStand, BinaryRowsStand, CallRowsStand, MacroTypesStand, AgreementRowsStand, ThreeArgumentRowsStand};
ghost use Rattle.cel_rows.specs.MeasureRows.{NeedRowsStand, DepthRowsStand};
ghost use Rattle.cel_rows.specs.CodeRows.{CodeLimitRowsStand, TextRowsStand, ConstantRowsStand, KeptRowsStand, ConditionalRowsStand};
ghost use Rattle.cel_rows.specs.PolicyRows.{DocumentRowsStand, FieldRowsStand, FormRowsStand};
ghost use Rattle.cel_rows.specs.PartRows.{JudgedRowsStand, ErrorRowsStand, TreeRowsStand, DepthOfPolicyRowsStand};

/// Blanks, comments, ints and marks at the front of a text.
#[tactic(auto, unfolding(cel_tokens::specs::Bytes::run, cel_tokens::specs::Bytes::between, cel_tokens::specs::Ints::number_from, cel_tokens::specs::Lexed::front))]
pub fn token_rows_stand()
    ensures comments { CommentRowsStand }
    ensures ints { IntRowsStand }
{}

/// Openings of text literals, and escapes in them.
#[tactic(auto, unfolding(cel_tokens::specs::Bytes::run, cel_tokens::specs::Ints::number_from, cel_tokens::specs::Texts::escape))]
pub fn text_rows_stand()
    ensures openings { OpeningRowsStand }
    ensures escapes { TextEscapeRowsStand }
{}

/// The rows of the grammar, and the operators of each.
pub fn grammar_rows_stand()
    ensures grammar { GrammarRowsStand }
    ensures operators { OperatorRowsStand }
{}

/// The comma that may end a literal.
pub fn comma_rows_stand()
    ensures { CommaRowsStand }
{}

/// Words, the marks that open something, and sequences of expressions.
#[tactic(auto, unfolding(cel_reader::specs::Words::is_reserved))]
pub fn word_rows_stand()
    ensures openings { NestingRowsStand }
    ensures words { WordRowsStand }
    ensures sequences { SequenceRowsStand }
{}

/// Expansions, callees and faults of macros.
#[tactic(auto, unfolding(cel_macros::specs::Environment::is_root, cel_macros::specs::Functions::function_named, cel_macros::specs::Functions::test_named, cel_macros::specs::Macros::macro_named, cel_macros::specs::Macros::is_map, cel_macros::specs::Macros::is_has, cel_macros::specs::Macros::is_variables, cel_macros::specs::CoreTree::expanded, cel_macros::specs::Callee::callee_named))]
pub fn macro_rows_stand()
    ensures expansions { ExpansionRowsStand }
    ensures callees { CalleeRowsStand }
    ensures faults { FaultRowsStand }
{}

/// The table of types.
#[tactic(auto, unfolding(cel_macros::specs::Environment::is_root, cel_types::specs::Scope::name_type, cel_types::specs::Scope::variable_type))]
pub fn type_rows_stand()
    ensures operands { OperandRowsStand }
    ensures binary { BinaryRowsStand }
    ensures calls { CallRowsStand }
    ensures macros { MacroTypesStand }
    ensures agreement { AgreementRowsStand }
{}

/// Types of calls with several arguments.
#[tactic(auto, unfolding(cel_macros::specs::Environment::is_root, cel_macros::specs::Functions::function_named, cel_macros::specs::Functions::test_named, cel_macros::specs::Macros::macro_named, cel_macros::specs::Macros::is_map, cel_macros::specs::Macros::is_has, cel_macros::specs::Macros::is_variables, cel_types::specs::Scope::name_type, cel_types::specs::Scope::variable_type, cel_types::specs::Typing::typing))]
pub fn typing_rows_stand()
    ensures { ThreeArgumentRowsStand }
{}

/// Nodes, stack words and depths.
#[tactic(auto, unfolding(cel_measures::specs::Measures::nodes, cel_measures::specs::Measures::need, cel_measures::specs::Measures::deepest))]
pub fn measure_rows_stand()
    ensures needs { NeedRowsStand }
    ensures depths { DepthRowsStand }
{}

/// Limits and texts of code, and costs of what a macro keeps.
#[tactic(auto, unfolding(tree_code::specs::Code::Expressions::texts_of))]
pub fn code_rows_stand()
    ensures limits { CodeLimitRowsStand }
    ensures texts { TextRowsStand }
    ensures constants { ConstantRowsStand }
    ensures costs { KeptRowsStand }
{}

/// Costs of conditionals.
#[tactic(auto, unfolding(cel_macros::specs::Environment::is_root, cel_macros::specs::Functions::function_named, cel_macros::specs::Functions::test_named, cel_macros::specs::Macros::macro_named, cel_macros::specs::Macros::is_map, cel_macros::specs::Macros::is_has, cel_macros::specs::Macros::is_variables, cel_macros::specs::Environment::name_value, cel_macros::specs::Environment::variable_value, cel_macros::specs::Meaning::meaning, tree_code::specs::Cost::cost))]
pub fn cost_rows_stand()
    ensures { ConditionalRowsStand }
{}

/// Documents of policies.
#[tactic(auto, unfolding(crate::proofs::OnLiterals::documents_on_literals))]
pub fn document_rows_stand()
    ensures documents { DocumentRowsStand }
    ensures fields { FieldRowsStand }
    ensures forms { FormRowsStand }
{}

/// Parts of policies, and errors.
#[tactic(auto, unfolding(crate::proofs::OnLiterals::policies_on_literals, policy_glue::specs::Naming::names))]
pub fn part_rows_stand()
    ensures judged { JudgedRowsStand }
    ensures errors { ErrorRowsStand }
    ensures trees { TreeRowsStand }
    ensures deep { DepthOfPolicyRowsStand }
{}

/// Policies that a cluster refuses and that are taken here.
#[tactic(auto, unfolding(crate::proofs::OnLiterals::documents_on_literals))]
pub fn kubernetes_rows_stand()
    ensures { KubernetesRowsStand }
{}

/// A name that a cluster has and that is unknown here.
#[tactic(auto, unfolding(cel_macros::specs::Environment::is_root, cel_types::specs::Scope::name_type, cel_types::specs::Typing::typing))]
pub fn authorizer_rows_stand()
    ensures { AuthorizerRowsStand }
{}

/// Fields have their own names, also those that a cluster writes as escapes.
#[tactic(auto, unfolding(cel_macros::specs::Environment::is_root, cel_macros::specs::Functions::function_named, cel_macros::specs::Functions::test_named, cel_macros::specs::Macros::macro_named, cel_macros::specs::Macros::is_map, cel_macros::specs::Macros::is_has, cel_macros::specs::Macros::is_variables, cel_macros::specs::Environment::name_value, cel_macros::specs::Environment::variable_value, cel_macros::specs::Meaning::meaning, tree_code::specs::Cost::cost))]
pub fn field_names_stand()
    ensures { FieldNameRowsStand }
{}
