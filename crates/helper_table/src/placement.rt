//! What a call that returns a word has to place.

/// How the word of a call is obtained. References and positions are those of the store.
#[derive(Clone, Copy)]
pub(crate) enum Placement<'a> {
    /// The word is given.
    Word(u64),
    /// An int is placed.
    Int(i64),
    /// A text is placed.
    Text(&'a str),
    /// The decimal text of an int is placed.
    Decimal(i64),
    /// An item of a list or a value of a map is placed.
    Part(u64, u64),
    /// A key of a map is placed.
    Key(u64, u64),
    /// The concatenation of two texts or lists is placed.
    Join(u64, u64),
    /// An empty list is placed.
    List,
    /// An empty map is placed.
    Map,
    /// A list with one more item is placed.
    Push(u64, u64),
    /// A map with one more entry is placed.
    Put(u64, u64, u64),
}
