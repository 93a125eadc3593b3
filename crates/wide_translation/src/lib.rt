//! Translates expressions as clusters store them into the expressions that are compiled.
#![tactic(auto)]

mod build;
mod built;
mod calls;
mod carried;
mod composed;
mod composed_calls;
mod composed_macros;
mod computed_indices;
mod conversions;
mod copying;
mod entries;
mod entry_part;
mod fields;
mod indices;
mod laws;
mod list_calls;
mod list_functions;
mod list_methods;
mod lists;
mod method_names;
mod name_uses;
mod names;
mod naming;
mod operators;
mod pair_macros;
mod pair_names;
mod pair_ranges;
mod pair_use;
mod place;
mod presence;
mod ranges;
mod scope;
mod together;
mod translated;
mod translating;
mod translation_error;

pub use laws::{
    condition_means_the_same, policy_means_the_same, rows_stand, translation_means_the_same,
};
pub use name_uses::{needs_indices, uses};
pub use scope::{Scope, Variable};
pub use translated::{Translated, translate, translate_condition};
pub use translation_error::TranslationError;
