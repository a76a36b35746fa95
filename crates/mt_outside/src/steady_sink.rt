//! A sink in memory that never fails.
ghost use Rattle.std.specs.Prelude.{◌≡◌, ◌<◌, ◌≤◌, ◌+◌, ◌++◌, [], IfOk, IfSome, length, Some, None};
ghost use Rattle.std.specs.Option.{option_map};
ghost use Rattle.mt_outside.specs.Appends.{Appends};

use crate::{PutError, Sink};
use std::alloc::{AllocError, Global};
use std::marker::Model;

/// Bytes in memory; a put never fails. Past its capacity it takes every byte, and what it holds is not known.
#[derive(Debug, Drop)]
pub struct SteadySink {
    bytes: Vec<u8>,
    capacity: usize,
    is_past: bool,
}

impl Model for SteadySink {
    ghost use Rattle.std.specs.Prelude.{◌≤◌, ◌-◌};
    ghost use Rattle.std.specs.Vec.{vec_capacity, vec_len};
    ghost use Rattle.mt_outside.specs.Memory.{SteadyState, bytes_unless_past};

    ghost Value = { SteadyState };

    ghost view = { λ s. record {
      bytes = bytes_unless_past s.is_past s.bytes.items;
      room = s.capacity - vec_len s.bytes;
    } };

    ghost invariant = { λ s. (s.capacity ≤ vec_capacity s.bytes) × (vec_len s.bytes ≤ s.capacity) };
}

impl SteadySink {
    /// An empty sink with room for `room` bytes.
    ///
    /// # Errors
    ///
    /// [`AllocError`] where the room cannot be had. No later put takes memory.
    pub fn new(alloc: Global, room: usize) -> Result<Self, AllocError>
        ensures { IfOk result (λ sink. sink ≡ record { bytes = Some []; room = room }) }
    {
        Ok(SteadySink {
            bytes: Vec::with_capacity(alloc, room)?,
            capacity: room,
            is_past: false,
        })
    }

    /// The bytes that it has taken, or `None` once they were more than its capacity.
    pub fn bytes(&self) -> Option<&[u8]>
        ensures { option_map (λ bytes. bytes.now) result ≡ self.now.bytes }
    {
        if self.is_past {
            None
        } else {
            Some(&self.bytes)
        }
    }
}

impl Sink for SteadySink {
    ghost written = { λ s. s.bytes };

    ghost faults = { λ s. 0 };

    fn put(&mut self, bytes: &[u8]) -> Result<usize, PutError>
        ensures whole { result ≡ Ok (length bytes.now) }
        ensures appended { Appends self.old.bytes self.new.bytes bytes.now }
        ensures fits { length bytes.now ≤ self.old.room
            → self.new.bytes ≡ option_map (λ before. before ++ bytes.now) self.old.bytes }
        ensures past { self.old.room < length bytes.now → self.new.bytes ≡ None }
        ensures room { IfSome self.new.bytes
            (λ _. self.new.room + length bytes.now ≡ self.old.room) }
    {
        if self.is_past {
            return Ok(bytes.len());
        }
        if bytes.len() > self.capacity - self.bytes.len() {
            self.is_past = true;
            return Ok(bytes.len());
        }
        self.bytes.extend_from_slice(bytes).unwrap();
        Ok(bytes.len())
    }
}
