//! How a run ends: [`Status`], the number and the line of the log of each status, and what it means in words.
#![tactic(auto)]

mod causes;
mod explanation;
mod font_refusals;
mod log;
mod log_part;
mod notes;
mod status;
mod subject;

pub use causes::MISSING_ARGUMENT;
pub use explanation::write_explanation;
pub use font_refusals::font_refusal;
pub use log::write_line;
pub use notes::Notes;
pub use status::{Much, Status};
pub use subject::{Characters, DviFault, NamedFamily, Numbers, Subject};
