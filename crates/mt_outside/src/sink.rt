//! Where bytes go.
ghost use Rattle.std.specs.Prelude.{◌<◌, ◌≤◌, ℕ, List, Option, IfOk, IfErr, length};
ghost use Rattle.mt_outside.specs.Counts.{WriteLeaves};
ghost use Rattle.mt_outside.specs.Appends.{Appends, put_prefix, write_prefix};

use thiserror::Error;

/// Why bytes were not taken.
#[derive(Clone, Copy, Debug, PartialEq, Eq, Error)]
pub enum PutError {
    /// They could not be written. The sink counts it.
    #[error("the bytes could not be written")]
    Failed,
}

/// Takes bytes.
pub trait Sink {
    /// The bytes that it has taken, where they are known. Where they are known after a call, they
    /// were known before it.
    ghost written: { Self → Option (List ℕ) };

    /// How often a call failed, up to 2^64 - 1. It never falls.
    ghost faults: { Self → ℕ };

    /// Takes the first bytes of a piece, and says how many: at least one of a piece that is not
    /// empty.
    ///
    /// # Errors
    ///
    /// [`PutError::Failed`] raises the count of faults and takes nothing; an `Ok` leaves the count.
    fn put(&mut self, bytes: &[u8]) -> Result<usize, PutError>
        ensures within { IfOk result (λ count. count ≤ length bytes.now) }
        ensures progress { IfOk result (λ count. 0 < length bytes.now → 0 < count) }
        ensures appended { Appends (written self.old) (written self.new)
            (put_prefix result bytes.now) }
        ensures leaves { WriteLeaves (faults self.old) (faults self.new) result };
}

/// Writes all the bytes, by as many puts as it takes.
///
/// # Errors
///
/// Where a put fails, the number of bytes that were taken before: exactly those, the first ones,
/// are written.
pub fn write_all<S: Sink>(sink: &mut S, bytes: &[u8]) -> Result<(), u64>
    ensures within { IfErr result (λ count. count ≤ length bytes.now) }
    ensures appended { Appends (S.written sink.old) (S.written sink.new)
        (write_prefix result bytes.now) }
    ensures leaves { WriteLeaves (S.faults sink.old) (S.faults sink.new) result }
{
    let mut done: usize = 0;
    while done < bytes.len() {
        match sink.put(&bytes[done..]) {
            Ok(count) => done += count,
            Err(_) => return Err(done as u64),
        }
    }
    Ok(())
}
