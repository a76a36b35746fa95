//! Math lists in one vector: each list is a span of it, and lists inside it are spans before that one.
//!
//! Contracts see the lists as mt_rules does, as sequences of elements.
#![tactic(auto)]

mod arena;
mod equations;
mod formulas;
mod from_lists;
mod rest;
mod rows;
mod thing;
mod to_lists;

pub use arena::Arena;
pub use equations::{EquationSpans, equation_spans, next_cell};
pub use formulas::{SpanBody, SpanFormula, SpanTag, formula_of};
pub use from_lists::{put_list, short_amount, short_glue, short_thickness};
pub use rest::Rest;
pub use rows::{next_cells, next_row};
pub use thing::{Cell, ChoiceSpans, FractionNoad, Noad, RootParts, ShortGlue, Span, Thing};
pub use to_lists::list_of;
