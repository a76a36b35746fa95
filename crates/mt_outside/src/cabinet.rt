//! Where files come from.
ghost use Rattle.std.specs.Prelude.{◌≡◌, ◌<◌, ◌≤◌, ◌^◌, ℕ, List, Option, IfOk, IfSome, length};
ghost use Rattle.mt_outside.specs.Files.{content};
ghost use Rattle.mt_outside.specs.Counts.{FetchLeaves};
ghost use Rattle.mt_outside.specs.declared.files.Held.{Held};
ghost use Rattle.mt_outside.specs.declared.cabinet.FetchError.TheVariants.{OutOfMemory};

use mt_scaled::Bytes;
use std::alloc::{AllocError, Global};
use thiserror::Error;

/// Why a file was not given.
#[derive(Clone, Copy, Debug, PartialEq, Eq, Error)]
pub enum FetchError {
    /// The file could not be read. The cabinet counts it, and keeps the name.
    #[error("the file could not be read")]
    Failed,
    /// The file has more bytes than the limit.
    #[error("the file is too long")]
    TooLong,
    /// There is no memory left.
    #[error("out of memory")]
    OutOfMemory,
}

impl From<AllocError> for FetchError {
    ghost from_gives = { λ _ e. e ≡ OutOfMemory };

    fn from(_: AllocError) -> Self {
        FetchError::OutOfMemory
    }
}

/// Gives files by their names.
pub trait Cabinet {
    /// The files that it holds, where they are known.
    ghost holds: { Self → Option (List Held) };

    /// How often a call failed, up to 2^64 - 1. It never falls.
    ghost faults: { Self → ℕ };

    /// The name of the last call that failed, if there was one.
    ghost lost: { Self → Option (List ℕ) };

    /// The whole file of that name, of at most `limit` bytes. A name that is not held counts as an
    /// empty file.
    ///
    /// # Errors
    ///
    /// [`FetchError::Failed`] raises the count of faults and keeps the name; every other answer
    /// leaves both. [`FetchError::TooLong`] comes where the file is longer than `limit`.
    /// [`FetchError::OutOfMemory`] may come always.
    fn fetch(&mut self, alloc: Global, name: &str, limit: u64) -> Result<Bytes, FetchError>
        requires { limit < 2 ^ 40 }
        ensures within { IfOk result (λ bytes. length bytes ≤ limit) }
        ensures bytes { IfOk result (λ bytes. IfSome (holds self.old)
            (λ files. bytes ≡ content files name.now)) }
        ensures too_long { result ≡ Err FetchError.TooLong
            → IfSome (holds self.old) (λ files. limit < length (content files name.now)) }
        ensures holds { holds self.new ≡ holds self.old }
        ensures leaves { FetchLeaves (faults self.old) (faults self.new) (lost self.old)
            (lost self.new) name.now result };
}
