//! The pages of a source, set in its fonts, and pages as texts.
#![tactic(auto)]

mod display_rows;
mod document;
mod formula_lines;
mod laws;
mod listings;
mod page_lines;
mod page_sink;
mod pages;
mod source;
mod summaries;
mod text_line;

pub use laws::{cut_and_set, cut_pages_are_those_of_the_parts, refused_formula_has_a_cause};
pub use listings::listing;
pub use source::{source_file, source_listing, source_pages, source_summary};
pub use summaries::summary;
