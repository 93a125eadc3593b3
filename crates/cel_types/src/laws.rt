//! Laws of types. Each is the contract of an empty function.

ghost use Rattle.cel_types.specs.Rows.{TypingRows};
ghost use Rattle.cel_types.specs.Laws.{TypedIsExpanded, TypesStay};
ghost use Rattle.cel_types.specs.Relation.{FaultsAreFirst, OneTypeOrFault, TypesAreRows};
ghost use Rattle.cel_types.specs.Soundness.{IsSound};

/// Expressions have the types that were worked out by hand from the type table.
pub fn rows_stand()
    ensures { TypingRows }
{}

/// The value of an accepted expression has the expression's type or is the error, in each
/// environment that fits its scope.
pub fn is_sound()
    ensures { IsSound }
{}

/// An expanded expression has the same type or fault as the plain one.
pub fn types_stay()
    ensures { TypesStay }
{}

/// An expression of the core that has a type is the expansion of its plain tree.
pub fn typed_is_expanded()
    ensures { TypedIsExpanded }
{}

/// An expression has the type that a row of the table gives for the types of its parts, or the
/// fault of its first part without a row. It has exactly one type or one fault, never both.
pub fn types_are_rows()
    ensures types { TypesAreRows }
    ensures faults { FaultsAreFirst }
    ensures one { OneTypeOrFault }
{}
