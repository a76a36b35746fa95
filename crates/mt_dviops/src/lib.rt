//! Pages of DVI files, picked and joined.
#![tactic(auto)]

mod append;
mod copies;
mod copy;
mod edges;
mod error;
mod laws;
mod open;
mod page;
mod select;
mod selected;
mod source;
mod totals;
mod write;

pub use append::append_files;
pub use error::OpError;
pub use laws::cut_and_joined;
pub use select::select_pages;
pub use source::FileBytes;
