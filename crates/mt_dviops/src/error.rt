//! Why there is no file of the chosen pages.
ghost use Rattle.std.specs.Prelude.{◌≡◌};

use mt_dviread::DviError;
use std::alloc::AllocError;
use thiserror::Error;

/// Why there is no file of the chosen pages: the first of these in this order.
#[derive(Clone, Copy, Debug, PartialEq, Eq, Error)]
pub enum OpError {
    /// A file is refused: the first file with a fault, counted from 0, and its first fault.
    #[error("file {file}: {cause}")]
    BadFile {
        /// The file, counted from 0.
        file: u32,
        /// Its first fault; never lack of memory.
        cause: DviError,
    },
    /// The first number asked for that is 0 or above the number of pages.
    #[error("no page {0}")]
    PageOutOfRange(u32),
    /// The first file, counted from 0, whose magnification is not that of file 0.
    #[error("file {0}: another magnification")]
    MagClash(u32),
    /// More than `MAX_DVI_PAGES` pages in the result; their number.
    #[error("{0} pages, more than a DVI file can have")]
    TooManyPages(u64),
    /// More than `MAX_PLACES` places in the result; their number.
    #[error("{0} places, more than a DVI file can have")]
    TooManyPlaces(u64),
    /// The result would have more than `MAX_DVI` bytes; their number.
    #[error("{0} bytes, more than a DVI file can have")]
    TooLong(u64),
    /// Memory ran out.
    #[error("out of memory")]
    OutOfMemory,
}

impl From<AllocError> for OpError {
    ghost use Rattle.mt_dviops.specs.declared.error.OpError.TheVariants.{OutOfMemory};

    ghost from_gives = { λ _ e. e ≡ OutOfMemory };

    fn from(_: AllocError) -> Self {
        OpError::OutOfMemory
    }
}
