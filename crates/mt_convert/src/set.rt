//! Items of the flat list set (The TeXbook, Appendix G, rules 1 to 18): the row of an atom, spaces and
//! kerns, and the final classes of all items.

pub mod answers;
pub mod clean;
pub mod form;
pub mod lengths;
pub mod nucleus;
pub mod parts;
pub mod row;
pub mod scripts;
pub mod settle;
pub mod tables;
