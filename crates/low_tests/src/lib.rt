//! Tests of words, instructions, texts, images, memory, listings, sources and label selectors.
#![tactic(auto)]

#[cfg(test)]
mod tests;
