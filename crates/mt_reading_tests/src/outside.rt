//! Cabinets and sinks in memory, and streams.
ghost use Rattle.std.specs.Prelude.{◌<◌, ◌^◌};

use mt_outside::{
    Cabinet, CallList, FetchError, FileList, Held, MemoryCabinet, MemorySink, PutError, Sink,
    SteadyCabinet, SteadySink, StreamSink, write_all,
};
use mt_scaled::{Bytes, Name};
use std::alloc::{AllocError, Global};
use std::io::{self, Write};
use std::process::Abort;

/// A stream that takes at most two bytes at a call, until it has no more room. Then it takes none,
/// or breaks.
#[derive(Drop)]
struct ShortWrites {
    room: usize,
    breaks: bool,
}

impl Write for ShortWrites {
    fn write(&mut self, bytes: &[u8]) -> io::Result<usize> {
        if self.breaks && self.room == 0 {
            return Err(io::ErrorKind::BrokenPipe.into());
        }
        let count = bytes.len().min(2).min(self.room);
        self.room -= count;
        Ok(count)
    }

    fn flush(&mut self) -> io::Result<()> {
        Ok(())
    }
}

// Two files of one name, then one of another.
fn files(alloc: Global) -> Result<FileList, AllocError> {
    let mut files = Vec::new(alloc);
    for (name, bytes) in [("a", b"first"), ("a", b"again"), ("b", b"other")] {
        files.push(Held {
            name: Name::from_slice(alloc, name.as_bytes())?,
            bytes: Bytes::from_vec(bytes.to_vec(alloc)?),
        })?;
    }
    Ok(FileList::from_vec(files))
}

// The calls that fail.
fn calls(rt: &impl Abort, alloc: Global, numbers: &[u64]) -> CallList {
    CallList::from_vec(numbers.to_vec(alloc).expect(rt, "memory"))
}

// Whether a cabinet gives these bytes for a name.
fn gives<C: Cabinet>(
    alloc: Global,
    cabinet: &mut C,
    name: &str,
    limit: u64,
    bytes: &[u8],
) -> Result<bool, FetchError>
    requires { limit < 2 ^ 40 }
{
    match cabinet.fetch(alloc, name, limit) {
        Ok(found) => Ok(found.as_slice() == bytes),
        Err(error) => Err(error),
    }
}

#[test]
fn a_memory_cabinet_gives_fails_and_goes_on(rt: HostRuntime) {
    let alloc = rt.alloc();
    let files = files(alloc).expect(&rt, "memory");
    let mut cabinet = MemoryCabinet::new(files, calls(&rt, alloc, &[2]));
    assert!(rt; gives(alloc, &mut cabinet, "a", 5, b"first") == Ok(true));
    assert!(rt; gives(alloc, &mut cabinet, "a", 5, b"first") == Err(FetchError::Failed));
    assert!(rt; gives(alloc, &mut cabinet, "a", 4, b"firs") == Err(FetchError::TooLong));
    assert!(rt; gives(alloc, &mut cabinet, "c", 5, b"") == Err(FetchError::Failed));
    assert!(rt; gives(alloc, &mut cabinet, "b", 9, b"other") == Ok(true));
}

#[test]
fn a_steady_cabinet_gives_what_it_lacks_as_empty(rt: HostRuntime) {
    let alloc = rt.alloc();
    let mut cabinet = SteadyCabinet::new(files(alloc).expect(&rt, "memory"));
    assert!(rt; gives(alloc, &mut cabinet, "a", 5, b"first") == Ok(true));
    assert!(rt; gives(alloc, &mut cabinet, "c", 0, b"") == Ok(true));
    assert!(rt; gives(alloc, &mut cabinet, "b", 4, b"othe") == Err(FetchError::TooLong));
}

#[test]
fn a_memory_sink_fails_between_two_pieces(rt: HostRuntime) {
    let calls = calls(&rt, rt.alloc(), &[2]);
    let mut sink = MemorySink::new(rt.alloc(), 7, calls).expect(&rt, "memory");
    assert!(rt; write_all(&mut sink, b"one") == Ok(()));
    assert!(rt; write_all(&mut sink, b"two") == Err(0));
    assert!(rt; sink.put(b"too long") == Err(PutError::Failed));
    assert!(rt; sink.put(b"four") == Ok(4));
    assert!(rt; sink.bytes() == b"onefour".as_slice());
}

#[test]
fn a_steady_sink_tells_until_its_room_is_past(rt: HostRuntime) {
    let mut sink = SteadySink::new(rt.alloc(), 4).expect(&rt, "memory");
    assert!(rt; write_all(&mut sink, b"four") == Ok(()));
    assert!(rt; sink.bytes() == Some(b"four".as_slice()));
    assert!(rt; sink.put(b"!") == Ok(1));
    assert!(rt; sink.bytes().is_none());
}

#[test]
fn a_stream_that_takes_no_more_or_breaks_is_a_fault(rt: HostRuntime) {
    for breaks in [false, true] {
        let mut sink = StreamSink::new(ShortWrites { room: 5, breaks });
        assert_eq!(rt; write_all(&mut sink, b"four"), Ok(()));
        assert_eq!(rt; write_all(&mut sink, b"more"), Err(1));
        assert_eq!(rt; sink.put(b"x"), Err(PutError::Failed));
    }
}
