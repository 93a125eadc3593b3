//! The calls of a page in a browser. `policies` has those on policies, `images` those on images of
//! policies. Each is a function of its documents: nothing is kept between two calls.
#![tactic(auto)]

mod debugged;
mod images;
mod listings;
mod output;
mod policies;
mod sessions;
#[cfg(test)]
mod tests;
mod text;
