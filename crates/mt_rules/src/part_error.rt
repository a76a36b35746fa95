//! Why a part of a formula was not set.

use mt_box::PackError;
use std::alloc::AllocError;
use thiserror::Error;

/// Why a part of a formula was not set.
#[derive(Clone, Copy, Debug, PartialEq, Eq, Error)]
pub enum PartError {
    /// This extent of what was made, in scaled points, is greater than 2^30 - 1 in size.
    #[error("a part has an extent of {0}sp")]
    Overflow(i64),
    /// A delimiter would need the repeatable piece of its recipe this many times, which is more
    /// than 2,000 ([`mt_box::MAX_REPEATS`]).
    #[error("a delimiter needs {0} repeats")]
    TooTall(u64),
    /// There is no memory left.
    #[error("out of memory")]
    OutOfMemory,
}

impl From<AllocError> for PartError {
    ghost use Rattle.std.specs.Prelude.{◌≡◌};
    ghost use Rattle.mt_rules.specs.declared.part_error.PartError.TheVariants.{OutOfMemory};

    ghost from_gives = { λ _ e. e ≡ OutOfMemory };

    fn from(_: AllocError) -> Self {
        PartError::OutOfMemory
    }
}

impl From<PackError> for PartError {
    ghost use Rattle.mt_rules.specs.PartErrors.{FromPacking};

    ghost from_gives = { FromPacking };

    fn from(error: PackError) -> Self {
        match error {
            PackError::Overflow(value) => PartError::Overflow(value),
            PackError::OutOfMemory => PartError::OutOfMemory,
        }
    }
}
