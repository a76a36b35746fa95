//! DVI files (tex.web, part 31): what their bytes mean, as a definition, and a writer of them.
#![tactic(auto)]

mod defined;
mod edges;
mod emit;
pub mod encode;
mod error;
mod file;
mod fonts;
mod moves;
pub mod opcode;
mod page;
mod write;

pub use error::DviWriteError;
pub use file::{DviBytes, DviFile};
pub use moves::{MAX_COORDINATE, MoveForm, move_code};
pub use write::{MAX_DVI_PAGES, MAX_PLACES, write_dvi};
