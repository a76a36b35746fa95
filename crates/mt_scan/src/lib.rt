//! The parts of a formula that have no lists in them: what a token means, numbers, dimensions, glue and
//! delimiters (The TeXbook, chapters 17, 24 and 26; tex.web, part 26).
#![tactic(auto)]

mod decimals;
mod delimiters;
mod dimensions;
mod fault;
pub mod items;
mod numbers;
mod role;
mod roles;
mod scanned;
mod spaces;
mod symbols;
mod tokens;
mod units;

pub use delimiters::MAX_DELIMITER;
pub use fault::{Fault, ReadCause, ReadError, read_cause_text};
pub use numbers::MAX_MATH_CHAR;
pub use role::{
    Amount, Bar, FieldKind, NamedItem, Preamble, Role, Side, Simple, character_role, name_role,
    role_of,
};
pub use roles::Roles;
pub use scanned::Scanned;
pub use symbols::{class_of, code_symbol, current_family, delim_of, null_delim};
pub use tokens::{
    after_blanks, after_spaces, character_delimiter, dimension, glue, number_to, scan_delimiter,
    whole_number,
};
