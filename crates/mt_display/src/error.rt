//! Why the places of lines were not found.
ghost use Rattle.std.specs.Prelude.{◌≡◌};
ghost use Rattle.mt_display.specs.declared.error.StackError.TheVariants.{OutOfMemory as StackMemory};

use std::alloc::AllocError;
use thiserror::Error;

/// Why the places of lines were not found. Lines are counted from 0.
#[derive(Clone, Copy, Debug, PartialEq, Eq, Error)]
pub enum StackError {
    /// A coordinate of a place of this line that is out of range, in scaled points.
    #[error("a place of line {line} would be at {value}sp")]
    OutOfRange { line: u32, value: i128 },
    /// A place of this line, for which there is no room.
    #[error("too many places, at line {line}")]
    TooMany { line: u32 },
    /// There was no memory for the list.
    #[error("out of memory")]
    OutOfMemory,
}

impl From<AllocError> for StackError {
    ghost from_gives = { λ _ e. e ≡ StackMemory };

    fn from(_: AllocError) -> Self {
        StackError::OutOfMemory
    }
}
