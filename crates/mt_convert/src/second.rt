//! The second pass (The TeXbook, Appendix G, rules 19 and 20): the rows of the items side by side,
//! with spaces and boundaries.

pub mod boundary;
pub mod join;
pub mod pass;
pub mod pieces;
pub mod runs;
pub mod space;
