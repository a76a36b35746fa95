//! A run that was refused.
use mt_status::{Notes, Status};
use std::alloc::Global;

/// A run that was refused.
#[derive(Clone, Copy)]
pub struct Refusal<'a> {
    /// Where memory for what is said is taken from.
    pub alloc: Global,
    /// How it ended.
    pub status: &'a Status,
    /// What it noted.
    pub notes: Notes,
}
