//! Lines of formulas, and the pages that they are on.
//!
//! A formula in the text is a line by itself. A display is in a line of a given width, with its
//! number beside it or on a line of its own (The TeXbook, chapter 19); a display of several lines is
//! one line, as wide as the page. Lines are one below another, with the gaps of plain TeX
//! (\baselineskip and \lineskip).
#![tactic(auto)]

mod display;
mod display_row;
mod equations;
mod error;
mod fit;
mod inline;
mod line;
mod line_stack;
mod numbered;
mod open_rows;
mod rows;
mod slot;
mod stack;

pub use display::place_display;
pub use equations::{EquationRow, EquationRows, place_equations};
pub use error::StackError;
pub use inline::place_inline;
pub use line::{Line, Lines, Numbered};
pub use line_stack::{LineStack, NumberSide};
pub use rows::place_rows;
pub use stack::stack_lines;
