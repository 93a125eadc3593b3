//! The functions on texts that an API server's CEL library has beside the standard ones: ints in texts, letters, parts
//! and pieces.
#![tactic(auto)]

mod cuts;
mod formats;
mod ints;
pub mod laws;
mod letters;
mod parts;
mod pieces;
mod places;
mod replacing;
mod searches;
mod sizes;

pub use formats::{is_dns1035_label, is_dns1123_label, is_dns1123_subdomain, is_label_value};
pub use ints::int;
pub use letters::{lower_ascii, trim, upper_ascii};
pub use parts::{char_at, substring, substring_from};
pub use pieces::split;
pub use replacing::replace;
pub use searches::{index_of, index_of_from, last_index_of, last_index_of_to};
