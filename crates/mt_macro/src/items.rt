//! Braces, parameters and macros in lists of items that are read as tokens: the calls of the same names at
//! the top of the crate for whatever a [`mt_token::Lexicon`] knows.

pub use crate::braces::{
    closes_none, closing_brace, first_unmatched, is_close, is_open, level_after,
};
pub use crate::definition::body_fault;
pub use crate::expansion::{expands_to_itself, matched_expands_to_itself};
pub use crate::parameters::first_bad_parameter;
