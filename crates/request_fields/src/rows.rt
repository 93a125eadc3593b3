//! Documents whose fields were worked out by hand.
ghost use Rattle.request_fields.specs.Rows.{FieldRowsHold};

/// Reviews, and what is kept of them.
pub fn field_rows_hold()
    ensures { FieldRowsHold }
{}
