//! What is said of a refusal, for a person: its place in the file that is at fault, the line shown, and the names of
//! what is refused. [`write_located`] writes what the program says below the line of its log.
#![tactic(auto)]

mod dvi_files;
mod dvi_fonts;
mod excerpt;
mod explain;
mod family_lines;
mod files;
mod files_again;
mod font_files;
mod fonts;
mod formula_words;
mod group_words;
mod list_lines;
mod missing_words;
mod names;
mod names_data;
mod nearest;
mod place;
mod position;
mod refusal;
mod source_lines;
mod source_words;
mod text;
mod tokens;
mod window;

pub use explain::write_located;
pub use files_again::FilesAgain;
