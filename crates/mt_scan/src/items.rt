//! The parts of a formula in front of items of any kind.
//!
//! Each call takes the items as a slice `&[T]`, and tables that know which token an item is read as
//! (`R: Lexicon<T>`) or also what it is in a formula (`R: Roles<T>`). Its clauses speak of the tokens
//! `map (R.token tables.now) items.now`.

pub use crate::delimiters::{character_delimiter, scan_delimiter};
pub use crate::dimensions::{dimension, glue};
pub use crate::numbers::{number_to, whole_number};
pub use crate::spaces::{after_blanks, after_spaces};
