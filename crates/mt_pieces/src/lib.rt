//! Pieces of the rows of a formula that is being set, one after another on one stack.
#![tactic(auto)]

mod gaps;
mod items;
mod last;
mod limits;
mod lines;
mod packing;
mod parts;
mod pieces;
mod placing;
mod putting;
mod rows;
mod runs;
mod scripts;
mod tables;

pub use gaps::{Gap, Run};
pub use items::PlacedItem;
pub use pieces::{Pieces, Space};
pub use runs::PieceAt;
pub use scripts::Scripts;
