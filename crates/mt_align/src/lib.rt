//! Matrices and aligned equations: cells in rows and columns, centred on the axis, on marks and as
//! boxes. The rules follow plain TeX's `\matrix` and `\eqalign` (The TeXbook, chapters 18 and 19
//! and Appendix B).
#![tactic(auto)]

mod cells;
mod equations;
mod levels;
mod lines;
mod look;
mod matrix;
mod placing;
mod pushing;
mod widths;

pub use cells::{CellExtents, CellRow, CellRows, TableExtents};
pub use equations::{align_equations, equations_on_marks};
pub use matrix::{align_matrix, matrix_on_marks};
