//! A sink over a stream. What it holds is not known; its own clauses say what the stream got.
ghost use Rattle.std.specs.Prelude.{◌≡◌, ◌<◌, ◌≤◌, IfOk, OnErr, None, length, nat_lt};
ghost use Rattle.std.specs.Io.KnownBytes.{WriteAppends};
ghost use Rattle.mt_outside.specs.Counts.{WriteLeaves, next_count};

use crate::{PutError, Sink};
use std::io::Write;
use std::marker::Model;

/// A stream that bytes are written to. Contracts see what the stream holds, where that is known,
/// and the count of faults.
///
/// It never flushes, so it asks for a stream that puts out what its `write` takes, as standard
/// output does. A stream that keeps bytes back, as a `BufWriter` does, has to be flushed by its owner,
/// and a flush that fails is not counted here.
#[derive(Drop)]
pub struct StreamSink<W: Write + Drop> {
    stream: W,
    faults: u64,
}

impl<W: Write + Drop> Model for StreamSink<W> {
    ghost use Rattle.mt_outside.specs.Memory.{StreamState};

    ghost Value = { StreamState };

    ghost view = { λ s. record { contents = W.contents s.stream; faults = s.faults } };
}

impl<W: Write + Drop> StreamSink<W> {
    /// A sink over this stream. Takes no memory.
    pub fn new(stream: W) -> Self
        ensures { result ≡ record { contents = W.contents stream; faults = 0 } }
    {
        StreamSink { stream, faults: 0 }
    }

    /// Whether a call failed.
    pub fn has_failed(&self) -> bool
        ensures { result ≡ nat_lt 0 self.now.faults }
    {
        self.faults > 0
    }
}

impl<W: Write + Drop> Sink for StreamSink<W> {
    ghost written = { λ s. None };

    ghost faults = { λ s. s.faults };

    fn put(&mut self, bytes: &[u8]) -> Result<usize, PutError>
        ensures within { IfOk result (λ count. count ≤ length bytes.now) }
        ensures progress { IfOk result (λ count. 0 < length bytes.now → 0 < count) }
        ensures passed { WriteAppends self.old.contents self.new.contents result bytes.now }
        ensures leaves { WriteLeaves self.old.faults self.new.faults result }
        ensures raises { OnErr result (self.new.faults ≡ next_count self.old.faults) }
    {
        match self.stream.write(bytes) {
            Ok(0) if !bytes.is_empty() => {}
            Ok(count) => return Ok(count),
            Err(_) => {}
        }
        self.faults = self.faults.saturating_add(1);
        Err(PutError::Failed)
    }
}
