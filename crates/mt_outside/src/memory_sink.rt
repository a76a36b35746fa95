//! A sink in memory that fails where it is reported to.
ghost use Rattle.std.specs.Prelude.{◌≡◌, ◌+◌, ◌++◌, ◌≤◌, ◌<◌, [], IfOk, IfSome, OnOk, OnErr, length, Some, None};
ghost use Rattle.mt_outside.specs.Counts.{WriteLeaves, next_count};
ghost use Rattle.mt_outside.specs.Memory.{PutFails, taken_of};

use crate::{CallList, PutError, Sink};
use std::alloc::{AllocError, Global};
use std::marker::Model;

/// Bytes in memory. The puts of the numbers that it is given fail, and so does a put that would take
/// more bytes than the room left.
#[derive(Debug, Drop)]
pub struct MemorySink {
    bytes: Vec<u8>,
    capacity: usize,
    // how many bytes of a piece a put takes at most, where it does not take them all
    most: Option<usize>,
    fail: CallList,
    calls: u64,
    faults: u64,
}

impl Model for MemorySink {
    ghost use Rattle.std.specs.Prelude.{◌≤◌, ◌-◌, ◌+◌, IfSome};
    ghost use Rattle.std.specs.Vec.{vec_capacity, vec_len};
    ghost use Rattle.mt_outside.specs.Memory.{SinkState};

    ghost Value = { SinkState };

    ghost view = { λ s. record {
      bytes = s.bytes.items;
      room = s.capacity - vec_len s.bytes;
      most = s.most;
      fail = s.fail;
      calls = s.calls;
      faults = s.faults;
    } };

    ghost invariant = { λ s. (s.capacity ≤ vec_capacity s.bytes) × (vec_len s.bytes ≤ s.capacity)
        × IfSome s.most (λ most. 1 ≤ most) };
}

impl MemorySink {
    /// An empty sink with room for `room` bytes, whose puts of the numbers `fail`, counted from 1,
    /// will fail. Every other put takes the whole piece.
    ///
    /// # Errors
    ///
    /// [`AllocError`] where the room cannot be had. No later put takes memory.
    pub fn new(alloc: Global, room: usize, fail: CallList) -> Result<Self, AllocError>
        ensures { IfOk result (λ sink. sink ≡ record {
          bytes = [];
          room = room;
          most = None;
          fail = fail;
          calls = 0;
          faults = 0;
        }) }
    {
        MemorySink::empty(alloc, room, None, fail)
    }

    /// A sink like that of [`MemorySink::new`], but each put takes the first `most` bytes of a longer
    /// piece, and it is these that must fit into the room left. `most` is at least 1.
    ///
    /// # Errors
    ///
    /// [`AllocError`] where the room cannot be had. No later put takes memory.
    pub fn taking(
        alloc: Global,
        room: usize,
        most: usize,
        fail: CallList,
    ) -> Result<Self, AllocError>
        requires { 1 ≤ most }
        ensures { IfOk result (λ sink. sink ≡ record {
          bytes = [];
          room = room;
          most = Some most;
          fail = fail;
          calls = 0;
          faults = 0;
        }) }
    {
        MemorySink::empty(alloc, room, Some(most), fail)
    }

    // An empty sink, whose puts take at most `most` bytes, where it is reported.
    fn empty(
        alloc: Global,
        room: usize,
        most: Option<usize>,
        fail: CallList,
    ) -> Result<Self, AllocError>
        requires { IfSome most (λ most. 1 ≤ most) }
        ensures { IfOk result (λ sink. sink ≡ record {
          bytes = [];
          room = room;
          most = most;
          fail = fail;
          calls = 0;
          faults = 0;
        }) }
    {
        Ok(MemorySink {
            bytes: Vec::with_capacity(alloc, room)?,
            capacity: room,
            most,
            fail,
            calls: 0,
            faults: 0,
        })
    }

    // What one put takes of a piece.
    fn taken_of<'a>(&self, piece: &'a [u8]) -> &'a [u8]
        ensures is { result.now ≡ taken_of self.now.most piece.now }
        ensures within { length result.now ≤ length piece.now }
        ensures progress { 0 < length piece.now → 0 < length result.now }
    {
        match self.most {
            Some(most) if most < piece.len() => &piece[..most],
            _ => piece,
        }
    }

    /// The bytes that it has taken.
    pub fn bytes(&self) -> &[u8]
        ensures { result.now ≡ self.now.bytes }
    {
        &self.bytes
    }
}

impl Sink for MemorySink {
    ghost written = { λ s. Some s.bytes };

    ghost faults = { λ s. s.faults };

    fn put(&mut self, bytes: &[u8]) -> Result<usize, PutError>
        ensures count { IfOk result (λ count. count ≡ length (taken_of self.old.most bytes.now)) }
        ensures within { IfOk result (λ count. count ≤ length bytes.now) }
        ensures progress { IfOk result (λ count. 0 < length bytes.now → 0 < count) }
        ensures appended { OnOk result
            (self.new.bytes ≡ self.old.bytes ++ taken_of self.old.most bytes.now) }
        ensures room { OnOk result
            (self.new.room + length (taken_of self.old.most bytes.now) ≡ self.old.room) }
        ensures same { OnErr result ((self.new.bytes ≡ self.old.bytes)
            × (self.new.room ≡ self.old.room)) }
        ensures leaves { WriteLeaves self.old.faults self.new.faults result }
        ensures raises { OnErr result (self.new.faults ≡ next_count self.old.faults) }
        ensures most { self.new.most ≡ self.old.most }
        ensures fail { self.new.fail ≡ self.old.fail }
        ensures calls { self.new.calls ≡ next_count self.old.calls }
        ensures failed { OnErr result (PutFails self.old bytes.now) }
        ensures fails { PutFails self.old bytes.now → result ≡ Err PutError.Failed }
    {
        let piece = self.taken_of(bytes);
        self.calls = self.calls.saturating_add(1);
        if piece.len() > self.capacity - self.bytes.len()
            || self.fail.as_slice().contains(&self.calls)
        {
            self.faults = self.faults.saturating_add(1);
            return Err(PutError::Failed);
        }
        self.bytes.extend_from_slice(piece).unwrap();
        Ok(piece.len())
    }
}
