//! Literal documents with the values that the definitions give for them.
ghost use Rattle.admission.specs.RootRows.{RootRowsStand};

/// Documents of reviews, with the values of their roots or their refusals.
pub fn root_rows_stand()
    ensures { RootRowsStand }
{}
