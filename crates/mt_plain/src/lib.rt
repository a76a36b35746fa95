//! The tables of plain TeX for formulas (The TeXbook, Appendix B): the codes of characters and
//! names, the commands, and the macros.
#![tactic(auto)]

mod characters;
mod codes;
mod error;
mod lexicon;
mod macro_texts;
mod macros;
mod meaning;
mod meanings;
mod names;

pub use codes::{Codes, MAX_DELIMITER_CODE, MAX_MATH_CODE};
pub use error::CodeError;
pub use macros::plain_macros;
pub use meaning::{Command, Meaning};
pub use names::meaning_name;
