//! Policies that the words name.

use crate::settings::Settings;
use std::alloc::Global;

/// The names of files, and how lines are answered.
#[derive(Drop)]
pub struct PolicyOrder {
    pub alloc: Global,
    /// The files of the policies, in the order of the words.
    pub policies: Vec<String>,
    pub namespace: Option<String>,
    pub params: Option<String>,
    pub settings: Settings,
}
