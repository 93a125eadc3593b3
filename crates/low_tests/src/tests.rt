//! The tests, a file for each subject.

mod errors;
mod images;
mod instructions;
mod lines;
mod listings;
mod memory;
mod scans;
mod selectors;
mod sources;
mod words;
