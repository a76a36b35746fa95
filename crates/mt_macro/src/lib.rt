//! Macros and their expansion, as TeX does it for macros with undelimited parameters (The TeXbook,
//! chapter 20; tex.web part 25).
#![tactic(auto)]

mod arguments;
mod bodies;
mod braces;
mod closing;
mod definition;
mod ends;
mod expander;
mod expansion;
mod filling;
pub mod items;
mod name_marks;
mod own;
mod parameters;
mod parts;
mod passing;
mod run;
mod stack;
mod table;
mod traced;
mod tracing;

pub use bodies::{Bodies, Call, Found};
pub use definition::{MAX_OWN_NAMES, MAX_PARAMS, MacroError};
pub use expander::{Expander, MAX_TOKENS};
pub use expansion::{ExpandError, expand};
pub use own::{
    closes_none, closing_brace, expands_to_itself, first_bad_parameter, is_close, is_open,
    level_after,
};
pub use table::{Entry, Macro, Macros};
pub use traced::{Trace, Traced};
pub use tracing::trace;
