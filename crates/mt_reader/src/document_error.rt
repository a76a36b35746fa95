//! Why a source has no document.
ghost use Rattle.std.specs.Prelude.{◌≡◌};
ghost use Rattle.mt_reader.specs.declared.document_error.DocError.TheVariants.{OutOfMemory};

use crate::outside_cause::OutsideCause;
use mt_formula::ReadError;
use mt_macro::ExpandError;
use mt_plain::CodeError;
use mt_token::TokenError;
use std::alloc::AllocError;
use thiserror::Error;

/// Why a source has no document: the first fault in the order of the source.
///
/// A formula's number `n` counts from 1. Outside of formulas it is one more than the number of formulas before.
#[derive(Clone, Copy, Debug, PartialEq, Eq, Error)]
pub enum DocError {
    /// A byte that no source may have there, or too many bytes. It comes before all others.
    #[error("{0}")]
    Source(TokenError),
    /// A token outside of formulas.
    #[error("token {place}, before the end of formula {n}: {cause}")]
    Outside {
        /// The number of the formula that begins there, or of the next one.
        n: u32,
        /// The index of the token in the tokens of the source, counted from 0.
        place: u32,
        /// The cause.
        cause: OutsideCause,
    },
    /// A formula whose macros are not expanded.
    #[error("formula {n}: {cause}")]
    Expand {
        /// The number of the formula.
        n: u32,
        /// Why it is not expanded; never that memory ran out.
        cause: ExpandError,
    },
    /// A formula that is not read.
    #[error("formula {n}: {cause}")]
    Read {
        /// The number of the formula.
        n: u32,
        /// Why it is not read, with the index in its expanded tokens; never that memory ran out.
        cause: ReadError,
    },
    /// With this formula the expanded tokens of all formulas are more than 1,000,000.
    #[error("formula {n}: {count} tokens after expansion")]
    Total {
        /// The number of the formula.
        n: u32,
        /// How many tokens they are.
        count: u64,
    },
    /// A formula begins this page, and a document has at most 5,000.
    #[error("page {0} is too many")]
    Pages(u32),
    /// Memory ran out.
    #[error("out of memory")]
    OutOfMemory,
}

impl From<AllocError> for DocError {
    ghost from_gives = { λ _ e. e ≡ OutOfMemory };

    fn from(_: AllocError) -> Self {
        DocError::OutOfMemory
    }
}

impl From<CodeError> for DocError {
    ghost from_gives = { λ _ e. e ≡ OutOfMemory };

    fn from(_: CodeError) -> Self {
        DocError::OutOfMemory
    }
}
