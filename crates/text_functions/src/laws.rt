//! Laws of the definitions, and texts with the values that they give. Each is the clause of a function that does nothing.
ghost use Rattle.text_functions.specs.Laws.{PiecesHaveNone, PiecesJoin, ReplacedJoin};
ghost use Rattle.text_functions.specs.Rows.{FormatRowsHold, IntRowsHold, LetterRowsHold, PartRowsHold, PieceRowsHold, PlaceRowsHold};

/// Ints in texts.
pub fn int_rows_hold()
    ensures { IntRowsHold }
{}

/// Letters of ASCII and white space.
pub fn letter_rows_hold()
    ensures { LetterRowsHold }
{}

/// Parts by the places of code points.
pub fn part_rows_hold()
    ensures { PartRowsHold }
{}

/// Places of parts.
pub fn place_rows_hold()
    ensures { PlaceRowsHold }
{}

/// Pieces of texts, and texts with parts replaced.
pub fn piece_rows_hold()
    ensures { PieceRowsHold }
{}

/// Formats of names.
#[tactic(auto, unfolding(crate::specs::Formats::is_label, crate::specs::Formats::is_dns1123_label, crate::specs::Formats::is_dns1123_subdomain, crate::specs::Formats::is_dns1035_label, crate::specs::Formats::is_label_value))]
pub fn format_rows_hold()
    ensures { FormatRowsHold }
{}

/// The pieces of a text, with the separator between each two, are the text.
pub fn pieces_join()
    ensures { PiecesJoin }
{}

/// No piece of a text that is cut at each separator has the separator.
pub fn pieces_have_none()
    ensures { PiecesHaveNone }
{}

/// A text with a part replaced by another is its pieces around the part, with the other between each two.
pub fn replaced_join()
    ensures { ReplacedJoin }
{}
