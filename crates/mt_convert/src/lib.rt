//! Math lists converted to rows (The TeXbook, Appendix G; tex.web, sections 719 to 767).
#![tactic(auto)]

mod context;
mod fault;
mod flat;
mod half;
mod halfway;
mod laws;
mod list;
mod lone;
mod passes;
mod placed;
mod placing;
mod second;
mod set;
mod taking;

pub use fault::SetFault;
pub use half::{Half, HalfList};
pub use halfway::Halfway;
pub use laws::turns_of_a_list_are_enough;
pub use passes::{first_pass, set_list, set_span};
pub use second::pass::second_pass;
