//! Laws of the definitions, each the clause of a function that does nothing.
ghost use Rattle.request_fields.specs.Same.{RequestIsKept};

/// What is read of the kept fields is what is read of the whole review.
pub fn request_is_kept()
    ensures { RequestIsKept }
{}
