//! Answers to requests, worked by hand.
ghost use Rattle.cluster_response.specs.Rows.{AnswerRowsHold, NameRowsHold};

/// Names that are shown, and texts in Go's quotes and escapes.
pub fn name_rows_hold()
    ensures { NameRowsHold }
{}

/// Answers by events.
pub fn answer_rows_hold()
    ensures { AnswerRowsHold }
{}
