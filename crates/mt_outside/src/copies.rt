//! Files found by their names, and copies of bytes.
ghost use Rattle.std.specs.Prelude.{◌≡◌, ◌<◌, ◌≤◌, IfOk, IsErrOf, OnOk, Err, length};
ghost use Rattle.std.specs.Option.{option_copied};
ghost use Rattle.mt_outside.specs.Files.{find_file};

use crate::{FetchError, Held};
use mt_scaled::Bytes;
use std::alloc::Global;

/// The first file of that name.
pub(crate) fn find_first<'a>(files: &'a [Held], name: &[u8]) -> Option<&'a Held>
    ensures { option_copied result ≡ find_file files.now name.now }
{
    files.iter().find(|file| file.name.as_slice() == name)
}

/// A copy of the bytes, if there are no more than `limit`.
pub(crate) fn copy_within(alloc: Global, bytes: &[u8], limit: u64) -> Result<Bytes, FetchError>
    ensures bytes { IfOk result (λ copy. copy ≡ bytes.now) }
    ensures within { OnOk result (length bytes.now ≤ limit) }
    ensures too_long { IsErrOf result FetchError.TooLong → limit < length bytes.now }
    ensures refused { limit < length bytes.now → result ≡ Err FetchError.TooLong }
    ensures failed { IsErrOf result FetchError.Failed → ⊥ }
{
    if bytes.len() as u64 > limit {
        return Err(FetchError::TooLong);
    }
    Ok(Bytes::from_vec(Vec::from_slice(alloc, bytes)?))
}
