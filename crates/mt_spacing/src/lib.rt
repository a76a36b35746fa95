//! The final classes of atoms, and the spaces between them (The TeXbook, chapters 17 and 18; Appendix G, rules 5, 6
//! and 20).
//!
//! Two passes over the atoms of a list give their classes: [`forward`] from left to right, then [`settled`].
#![tactic(auto)]

mod classes;
mod gap;

pub use classes::{forward, settled};
pub use gap::{Gap, math_glue, space_between};
