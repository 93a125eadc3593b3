//! The helpers by name.
ghost use Rattle.std.specs.Prelude.{◌≡◌};
ghost use Rattle.helper_table.specs.Numbers.{numbered, of_number};

use crate::operands::place_of;

/// A helper. Its arguments are the words of the registers R1 to R5: references to values, words, and
/// addresses and lengths of ranges of the constants.
#[derive(Clone, Copy, Debug, PartialEq, Eq)]
pub(crate) enum Helper {
    /// The kind of a value.
    Kind,
    /// An int as a word.
    IntOf,
    /// A word as an int, read as signed.
    IntNew,
    /// The text in a range of constants.
    TextConst,
    /// The value of a map at a key in the constants.
    Field,
    /// Whether a map has a key in the constants.
    Has,
    /// An item of a list at an int, or a map's value at a text.
    Index,
    /// The number of code points, items or entries, as a value.
    Size,
    /// Whether two values are equal.
    Equal,
    /// Whether the first of two values is less than the second.
    Less,
    /// The concatenation of two texts or two lists.
    Join,
    /// Whether a text begins with another.
    Starts,
    /// Whether a text ends with another.
    Ends,
    /// Whether a text contains another.
    Contains,
    /// Whether a value is an item of a list, or a key of a map.
    Member,
    /// An empty list.
    ListNew,
    /// A list with one more item.
    Push,
    /// An empty map.
    MapNew,
    /// A map with one more entry.
    Put,
    /// An item of a list, or a key of a map, at a position.
    Item,
    /// The number of items or entries, as a word.
    Count,
    /// The decimal text of an int.
    TextOfInt,
    /// The negation of a bool.
    Not,
}

/// The helpers in the order of their numbers, starting with helper 1.
const HELPERS: [Helper; 23] = [
    Helper::Kind,
    Helper::IntOf,
    Helper::IntNew,
    Helper::TextConst,
    Helper::Field,
    Helper::Has,
    Helper::Index,
    Helper::Size,
    Helper::Equal,
    Helper::Less,
    Helper::Join,
    Helper::Starts,
    Helper::Ends,
    Helper::Contains,
    Helper::Member,
    Helper::ListNew,
    Helper::Push,
    Helper::MapNew,
    Helper::Put,
    Helper::Item,
    Helper::Count,
    Helper::TextOfInt,
    Helper::Not,
];

impl Helper {
    /// The helper with a number, if any.
    #[tactic(auto, unfolding(crate::specs::Numbers::of_number))]
    pub(crate) fn of_number(id: i32) -> Option<Helper>
        ensures { result ≡ of_number id }
    {
        match place_of(i64::from(id)) {
            Some(number) => numbered(number),
            None => None,
        }
    }
}

fn numbered(number: u64) -> Option<Helper>
    ensures { result ≡ numbered number }
{
    if number >= 1 && number <= HELPERS.len() as u64 {
        Some(HELPERS[number as usize - 1])
    } else {
        None
    }
}
