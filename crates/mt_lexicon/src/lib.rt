//! Tokens of four bytes, which have the numbers of their names, and the names by these numbers.
#![tactic(auto)]

mod lexicon;
mod names;
mod word;

pub use names::Names;
pub use word::{Word, WordKind, name_number};
