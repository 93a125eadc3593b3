//! Bytes, escapes, marks and fronts of texts, with the values that the definitions give them.
ghost use Rattle.cel_tokens.specs.Rows.{ByteRowsStand, EscapeRowsStand, FrontRowsStand, TokenLimitRowsStand, MarkRowsStand, SignRowsStand};

/// The classes of bytes at their boundaries, the limits, and the code of each error.
pub fn byte_rows_stand()
    ensures bytes { ByteRowsStand }
    ensures limits { TokenLimitRowsStand }
{}

/// Escapes after a backslash.
#[tactic(auto, unfolding(crate::specs::Bytes::run, crate::specs::Ints::number_from, crate::specs::Texts::escape))]
pub fn escape_rows_stand()
    ensures { EscapeRowsStand }
{}

/// The marks, and those after which a sign may be.
pub fn mark_rows_stand()
    ensures marks { MarkRowsStand }
    ensures signs { SignRowsStand }
{}

/// The front of a text.
pub fn front_rows_stand()
    ensures { FrontRowsStand }
{}
