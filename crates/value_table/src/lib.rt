//! The values that a program uses: at first those of a review's five roots, then those that the
//! program creates.
#![tactic(auto)]

mod cell;
mod chunks;
mod content;
mod documents;
mod entries;
mod equality;
mod gathering;
mod heap;
mod items;
mod lengths;
mod lookup;
mod measure;
mod order;
mod places;
mod reserving;
mod roots;
mod search;
mod seeing;
mod sequence;
mod table;
mod texts;
mod writing;

pub use cell::Cell;
pub use content::Content;
pub use heap::Heap;
pub use roots::first_places;
pub use sequence::Sequence;
pub use shared_lists::small;
pub use table::Table;
pub use value_backings::Part;
