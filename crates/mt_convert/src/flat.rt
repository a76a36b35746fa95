//! The flat list (The TeXbook, Appendix G, rules 2 to 4 and 14): what is left of a list is rewritten
//! at its front, and its items are passed on to be set.

pub mod current;
pub mod front;
pub mod joining;
pub mod passed;
pub mod turn;
