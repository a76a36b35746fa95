//! Documents: a source is read into pages of formulas (The TeXbook, chapters 17, 20 and 24).
#![tactic(auto)]

mod arena_page;
mod assignments;
mod counted_turn;
mod definitions;
mod document_error;
mod document_state;
mod document_tables;
mod document_turn;
mod documents;
mod dollars;
mod expanded_items;
mod laws;
mod outside_cause;
mod outside_role;
mod page_reader;
mod source_faults;
mod stop;
mod token_tables;
mod turn_ahead;
mod word_source;
mod word_tables;

pub use arena_page::{ArenaPage, PageFormula};
pub use document_error::DocError;
pub use document_tables::DocumentTables;
pub use documents::read_document;
pub use laws::{
    cut_document_is_its_parts, cut_source_is_its_parts, definitions_of_a_part_are_enough,
    reading_goes_on_after_a_page, reading_stops_at_the_fault, tokens_are_a_document_or_refused,
    turns_of_a_document_are_enough,
};
pub use mt_formula::{ReadError, read_formula};
pub use outside_cause::{OutsideCause, outside_cause_text};
pub use page_reader::PageReader;
pub use stop::{Stop, StopCause, StopFormula, read_to_stop};
pub use token_tables::TokenTables;
