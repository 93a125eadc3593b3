//! Literal documents, and what the definitions read in them.
ghost use Rattle.admission_documents.specs.Rows.{CoreNamespaceRowsHold, LabelPartRowsHold, LabelRowsHold, MatchDocumentRowsHold, MatchPartRowsHold, RequestPartRowsHold, RequestReadRowsHold, RequestRowsHold, SelectorDocumentRowsHold, SelectorPartRowsHold, UpdateRowHolds};

/// Selectors, and values that are not selectors.
pub fn selector_rows_hold()
    ensures { SelectorDocumentRowsHold }
{}

/// The labels of objects.
pub fn label_rows_hold()
    ensures { LabelRowsHold }
{}

/// Match resources, and values that are not.
pub fn match_rows_hold()
    ensures { MatchDocumentRowsHold }
{}

/// The parts of a request.
pub fn update_row_holds()
    ensures { UpdateRowHolds }
{}

/// Values that are requests, and others.
pub fn request_rows_hold()
    ensures { RequestRowsHold }
{}

/// Selectors with lists of two, each operator, and parts of the wrong form.
pub fn selector_part_rows_hold()
    ensures { SelectorPartRowsHold }
{}

/// The labels of objects: the last of two, the empty value, and values that are not labels.
pub fn label_part_rows_hold()
    ensures { LabelPartRowsHold }
{}

/// Match resources with each of their parts, their defaults, and parts of the wrong form.
pub fn match_part_rows_hold()
    ensures { MatchPartRowsHold }
{}

/// The required parts of a request, and those that must be equal.
pub fn request_part_rows_hold()
    ensures { RequestPartRowsHold }
{}

/// What is read from requests: defaults, operations and objects.
pub fn request_read_rows_hold()
    ensures { RequestReadRowsHold }
{}

/// Kinds that are the Namespace of the core group, and others.
pub fn core_namespace_rows_hold()
    ensures { CoreNamespaceRowsHold }
{}
