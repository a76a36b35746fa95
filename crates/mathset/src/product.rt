//! What a run is to write, and its end.
ghost use Rattle.mathset.specs.inner.Runs.{EndLeaves, LeavesOutput};
ghost use Rattle.mathset.specs.Product.{IsLean, Makes, Product};

use mt_outside::{Sink, write_all};
use mt_scaled::Bytes;
use mt_status::Status;

fn put_bytes<K: Sink>(out: &mut K, bytes: &[u8]) -> Status
    ensures { (product : Product) → Makes product bytes.now → IsLean product bytes.now
        → LeavesOutput K.written K.faults product out.old out.new result }
{
    match write_all(out, bytes) {
        Ok(()) => Status::Done,
        Err(written) => Status::WriteFault { written },
    }
}

/// Writes what was made in memory, or tells the refusal that came in its place.
pub fn write_end<K: Sink>(made: Result<Bytes, Status>, out: &mut K) -> Status
    ensures { EndLeaves K.written K.faults made out.old out.new result }
{
    match made {
        Ok(bytes) => put_bytes(out, bytes.as_slice()),
        Err(status) => status,
    }
}
