//! A file that was opened, or any other reader, read to its end.
ghost use Rattle.std.specs.Prelude.{◌≡◌, ◌<◌, ◌≤◌, ◌^◌, IfOk, IfSome, MatchResult, Err, length, vec_len, ⊤};

use crate::FetchError;
use std::alloc::Global;
use std::io::{self, Read};

/// All the bytes of a file that was opened, if they are no more than `limit`. One that could not be opened has failed.
pub(crate) fn read_opened<F: Read + Drop>(
    opened: io::Result<F>,
    alloc: Global,
    limit: u64,
) -> Result<Vec<u8>, FetchError>
    requires { limit < 2 ^ 40 }
    ensures within { IfOk result (λ bytes. vec_len bytes ≤ limit) }
    ensures all { MatchResult opened
        (λ file. IfOk result (λ bytes. IfSome (F.remaining file) (λ left. bytes.items ≡ left)))
        (λ error. result ≡ Err FetchError.Failed) }
    ensures too_long { MatchResult opened
        (λ file. result ≡ Err FetchError.TooLong
        → IfSome (F.remaining file) (λ left. limit < length left))
        (λ error. ⊤) }
{
    match opened {
        Ok(mut file) => read_within(&mut file, alloc, limit),
        Err(_) => Err(FetchError::Failed),
    }
}

/// All the bytes that a reader has left, if they are no more than `limit`.
pub(crate) fn read_within<F: Read>(
    file: &mut F,
    alloc: Global,
    limit: u64,
) -> Result<Vec<u8>, FetchError>
    requires { limit < 2 ^ 40 }
    ensures within { IfOk result (λ bytes. vec_len bytes ≤ limit) }
    ensures all { IfOk result (λ bytes. IfSome (F.remaining file.old)
        (λ left. bytes.items ≡ left)) }
    ensures too_long { result ≡ Err FetchError.TooLong
        → IfSome (F.remaining file.old) (λ left. limit < length left) }
{
    let mut bytes = Vec::new(alloc);
    let mut buffer = [0u8; 4096];
    while bytes.len() as u64 <= limit {
        let count = match file.read(&mut buffer) {
            Ok(count) => count,
            Err(_) => return Err(FetchError::Failed),
        };
        if count == 0 {
            return Ok(bytes);
        }
        bytes.extend_from_slice(&buffer[..count])?;
    }
    Err(FetchError::TooLong)
}
