//! Formulas: tokens are read into math lists (The TeXbook, chapters 17, 18 and 26).
#![tactic(auto)]

mod actions;
mod formula;
pub mod items;
mod laws;
mod reading;
mod tokens;

pub use laws::{
    parts_of_lists_count_no_turns, reading_counts_no_turns, tokens_are_a_formula_or_at_fault,
};
pub use mt_scan::ReadError;
pub use tokens::{read_formula, read_spans};
