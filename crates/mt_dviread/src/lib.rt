//! Reading DVI files (tex.web, part 31): the places of their pages, or their first fault; the files opcode
//! by opcode; and the opcode at an offset.
#![tactic(auto)]

mod coordinate;
mod deed;
mod definitions;
mod error;
mod file;
mod machine;
mod number;
mod numbered;
mod opcode;
mod operands;
mod operation;
mod read;
mod run;

pub use deed::{Deed, Mark};
pub use error::{DviError, dvi_cause_text};
pub use file::OpenFile;
pub use opcode::{Opcode, opcode_at};
pub use read::{MAX_DVI, read_dvi};
pub use run::RunOpcode;
