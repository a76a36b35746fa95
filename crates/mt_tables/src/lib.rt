//! What words mean: the codes of characters, what names are in a formula, and macros, by the numbers
//! of names.
#![tactic(auto)]

mod definition;
mod kept;
mod loading;
mod lookups;
mod name_roles;
mod places;
mod putting;
mod reading;
mod tables;

pub use tables::Tables;
