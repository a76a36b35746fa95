//! The parts of a line, which are gathered and written at once.
ghost use Rattle.std.specs.Prelude.{OnErr, OnOk};
ghost use Rattle.mt_outside.specs.Counts.{WriteLeaves};
ghost use Rattle.mt_status.specs.Log.{Gets};
ghost use Rattle.mt_status.specs.inner.LogParts.{Gathers, WritesFront, parts_bytes, part_bytes};

use arrayvec::ArrayVec;
use itoa::Buffer;
use mt_family::Size;
use mt_outside::{Sink, write_all};

/// A part of a line: a text, or a number that is printed in decimal.
#[derive(Clone, Copy)]
pub enum LogPart<'a> {
    /// Bytes as they are.
    Text(&'a [u8]),
    /// A cause, a family or a character code.
    Byte(u8),
    /// A line, a font, a formula, a page, a file or a place in a list of tokens.
    Word(u32),
    /// An offset, or a count.
    Long(u64),
    /// A length in scaled points.
    Signed(&'a i128),
    /// A size, by its number from 0.
    Size(Size),
}

/// How many bytes are gathered before they are written: more than any line has without the name of a file.
const GATHERED: usize = 512;

// Puts bytes after those that are gathered. Where there is no room for them, all these are written.
fn gather<S: Sink>(sink: &mut S, held: &mut ArrayVec<u8, GATHERED>, bytes: &[u8]) -> Result<(), u64>
    ensures gathers { OnOk result (Gathers (S.written sink.old) (S.written sink.new)
        held.old.items held.new.items bytes.now) }
    ensures front { OnErr result (WritesFront (S.written sink.old) (S.written sink.new)
        held.old.items bytes.now) }
    ensures leaves { WriteLeaves (S.faults sink.old) (S.faults sink.new) result }
{
    match held.try_extend_from_slice(bytes) {
        Ok(()) => Ok(()),
        Err(_) => {
            write_all(sink, held.as_slice())?;
            held.clear();
            write_all(sink, bytes)
        }
    }
}

fn gather_part<S: Sink>(
    sink: &mut S,
    held: &mut ArrayVec<u8, GATHERED>,
    part: LogPart<'_>,
) -> Result<(), u64>
    ensures gathers { OnOk result (Gathers (S.written sink.old) (S.written sink.new)
        held.old.items held.new.items (part_bytes part.entry)) }
    ensures front { OnErr result (WritesFront (S.written sink.old) (S.written sink.new)
        held.old.items (part_bytes part.entry)) }
    ensures leaves { WriteLeaves (S.faults sink.old) (S.faults sink.new) result }
{
    let mut buffer = Buffer::new();
    match part {
        LogPart::Text(text) => gather(sink, held, text),
        LogPart::Byte(n) => gather(sink, held, buffer.format(n).as_bytes()),
        LogPart::Word(n) => gather(sink, held, buffer.format(n).as_bytes()),
        LogPart::Long(n) => gather(sink, held, buffer.format(n).as_bytes()),
        LogPart::Signed(n) => gather(sink, held, buffer.format(*n).as_bytes()),
        LogPart::Size(size) => gather(sink, held, buffer.format(size.index()).as_bytes()),
    }
}

/// Writes parts one after another, up to the first fault of the sink; at once, where they have no more than 512 bytes, so
/// that lines of programs that run side by side do not mix.
pub fn write_parts<S: Sink>(sink: &mut S, parts: &[LogPart<'_>])
    ensures { Gets S.written S.faults sink.old sink.new (parts_bytes parts.entry.now) }
{
    let mut held = ArrayVec::new();
    for part in parts {
        match gather_part(sink, &mut held, *part) {
            Ok(()) => {}
            Err(_) => return,
        }
    }
    let _ = write_all(sink, held.as_slice());
}
