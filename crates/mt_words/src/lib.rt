//! What the words of a command line ask for: [`read_words`] reads them by `clap`.
#![tactic(auto)]

mod command_line;
mod forms;
mod number;
mod range;
mod request;

pub use command_line::DEFAULT_LINE;
pub use forms::read_words;
pub use range::MAX_PAGE;
pub use request::{DviFiles, DviPages, DviSource, Request, Sample, Source};
