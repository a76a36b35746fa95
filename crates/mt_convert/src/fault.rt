//! Why a math list was not set.

use mt_box::PackError;
use mt_family::Size;
use mt_rules::PartError;
use std::alloc::AllocError;
use thiserror::Error;

/// Why a math list was not set: the first fault, in the order in which its parts are found and made.
#[derive(Clone, Copy, Debug, PartialEq, Eq, Error)]
pub enum SetFault {
    /// A family has no font at a size.
    #[error("family {fam} has no font")]
    MissingFamily {
        /// The number of the family.
        fam: u8,
        /// The size.
        size: Size,
    },
    /// The font of a family at a size has no such character.
    #[error("family {fam} has no character {code}")]
    MissingChar {
        /// The number of the family.
        fam: u8,
        /// The size.
        size: Size,
        /// The code of the character.
        code: u8,
    },
    /// The font of a family at a size has a ligature for two characters that keeps one of them,
    /// which is not set.
    #[error("characters {first} and {second} of family {fam} form a ligature that is not set")]
    SmartLigature {
        /// The number of the family.
        fam: u8,
        /// The size.
        size: Size,
        /// The code of the first character.
        first: u8,
        /// The code of the second character.
        second: u8,
    },
    /// This length, in scaled points, is greater than 2^30 - 1 in size.
    #[error("a length of {0}sp is out of range")]
    Overflow(i64),
    /// A delimiter would need the repeatable piece of its recipe this many times, which is more
    /// than 2,000.
    #[error("a delimiter needs {0} repeats")]
    TooTall(u64),
    /// There is no memory left.
    #[error("out of memory")]
    OutOfMemory,
}

impl From<AllocError> for SetFault {
    ghost use Rattle.std.specs.Prelude.{◌≡◌};
    ghost use Rattle.mt_convert.specs.declared.fault.SetFault.TheVariants.{OutOfMemory};

    ghost from_gives = { λ _ e. e ≡ OutOfMemory };

    fn from(_: AllocError) -> Self {
        SetFault::OutOfMemory
    }
}

impl From<PackError> for SetFault {
    ghost use Rattle.mt_convert.specs.Faults.{FaultFromPacking};

    ghost from_gives = { FaultFromPacking };

    fn from(error: PackError) -> Self {
        match error {
            PackError::Overflow(value) => SetFault::Overflow(value),
            PackError::OutOfMemory => SetFault::OutOfMemory,
        }
    }
}

impl From<PartError> for SetFault {
    ghost use Rattle.mt_convert.specs.Faults.{FaultFromPart};

    ghost from_gives = { FaultFromPart };

    fn from(error: PartError) -> Self {
        match error {
            PartError::Overflow(value) => SetFault::Overflow(value),
            PartError::TooTall(count) => SetFault::TooTall(count),
            PartError::OutOfMemory => SetFault::OutOfMemory,
        }
    }
}
