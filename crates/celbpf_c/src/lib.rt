//! Admission decisions for programs in C and in languages that call C. `gates` has the calls on a
//! gate that the caller holds, `without_gate` those without one. `embed/c/celbpf.h` declares both
//! and states what the C side must ensure, which nothing checks.
#![tactic(auto)]

mod box_parts;
mod gate_place;
mod gates;
#[cfg(test)]
mod tests;
mod without_gate;
