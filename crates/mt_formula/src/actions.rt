//! What a token begins, without the lists that are read for it.

pub mod action;
pub mod groups;
pub mod table;
pub mod table_form;
pub mod words;
