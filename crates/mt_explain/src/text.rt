//! Texts that are put together in memory.
use itoa::{Buffer, Integer};
use mt_outside::SteadySink;
use mt_status::{Status, write_explanation};
use std::alloc::{AllocError, AllocFailed, Global};

/// Room for the explanation of a refusal that names no file.
const ROOM: usize = 1_000;

/// No more is said than the explanation of the status: a file cannot be read, or does not have what the status names,
/// or memory ran out.
#[derive(Clone, Copy, Debug)]
pub struct Unsaid;

impl From<AllocError> for Unsaid {
    fn from(_: AllocError) -> Self {
        Unsaid
    }
}

impl<T: Drop> From<AllocFailed<T>> for Unsaid {
    fn from(_: AllocFailed<T>) -> Self {
        Unsaid
    }
}

/// A text that is put together piece by piece, with whether memory ran out on the way.
#[derive(Drop)]
pub struct Text {
    bytes: Vec<u8>,
    is_whole: bool,
}

impl Text {
    /// No bytes so far.
    pub fn new(alloc: Global) -> Text {
        Text {
            bytes: Vec::new(alloc),
            is_whole: true,
        }
    }

    /// Adds bytes.
    pub fn push(&mut self, bytes: &[u8]) {
        self.is_whole &= self.bytes.extend_from_slice(bytes).is_ok();
    }

    /// Adds pieces, one after another.
    pub fn push_all(&mut self, pieces: &[&[u8]]) {
        for piece in pieces {
            self.push(piece);
        }
    }

    /// Adds what another text has.
    pub fn push_text(&mut self, other: &Text) {
        self.push(&other.bytes);
        self.is_whole &= other.is_whole;
    }

    /// Adds a byte so many times.
    pub fn push_repeated(&mut self, byte: u8, count: usize) {
        for _ in 0..count {
            self.push(&[byte]);
        }
    }

    /// Adds a number, in decimal.
    pub fn push_number<I: Integer>(&mut self, n: I) {
        self.push(Buffer::new().format(n).as_bytes());
    }

    /// Adds the explanation of a status, without the end of its line.
    pub fn push_explanation(&mut self, alloc: Global, status: &Status) {
        let Ok(mut sink) = SteadySink::new(alloc, ROOM) else {
            self.is_whole = false;
            return;
        };
        write_explanation(&mut sink, status);
        if let Some([text @ .., b'\n']) = sink.bytes() {
            self.push(text);
        }
    }

    /// The bytes, where memory did not run out.
    pub fn finish(&self) -> Option<&[u8]> {
        self.is_whole.then_some(self.bytes.as_slice())
    }
}

/// The text of these bytes.
pub fn text_of(alloc: Global, bytes: &[u8]) -> Text {
    let mut text = Text::new(alloc);
    text.push(bytes);
    text
}
