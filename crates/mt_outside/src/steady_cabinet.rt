//! A cabinet in memory that never fails.
ghost use Rattle.std.specs.Prelude.{◌≡◌, ◌<◌, ◌≤◌, ◌^◌, ◌↔◌, [], IfOk, IsSome, length, true, Some, None, Ok, Err};
ghost use Rattle.mt_outside.specs.Counts.{FetchLeaves};
ghost use Rattle.mt_outside.specs.Files.{content, find_file};

use crate::copies::{copy_within, find_first};
use crate::{Cabinet, FetchError, FileList};
use mt_scaled::Bytes;
use std::alloc::Global;
use std::marker::Model;

/// Files in memory that are always given. A name that it does not hold is an empty file. Contracts
/// see it as its files.
#[derive(Debug, Drop)]
pub struct SteadyCabinet {
    files: FileList,
}

impl Model for SteadyCabinet {
    ghost use Rattle.std.specs.Prelude.{List};
    ghost use Rattle.mt_outside.specs.declared.files.Held.{Held};

    ghost Value = { List Held };

    ghost view = { λ c. c.files };
}

impl SteadyCabinet {
    /// A cabinet of these files. Takes no memory.
    pub fn new(files: FileList) -> Self
        ensures { result ≡ files }
    {
        SteadyCabinet { files }
    }

    /// Whether it holds a file of this name.
    pub fn holds(&self, name: &str) -> bool
        ensures { (result ≡ true) ↔ IsSome (find_file self.now name.now) }
    {
        find_first(self.files.as_slice(), name.as_bytes()).is_some()
    }
}

impl Cabinet for SteadyCabinet {
    ghost holds = { λ c. Some c };

    ghost faults = { λ c. 0 };

    ghost lost = { λ c. None };

    /// [`FetchError::OutOfMemory`] comes only for a file that is held and is not too long.
    fn fetch(&mut self, alloc: Global, name: &str, limit: u64) -> Result<Bytes, FetchError>
        requires { limit < 2 ^ 40 }
        ensures within { IfOk result (λ bytes. length bytes ≤ limit) }
        ensures bytes { IfOk result (λ bytes. bytes ≡ content self.old name.now) }
        ensures too_long { result ≡ Err FetchError.TooLong
            → limit < length (content self.old name.now) }
        ensures refused { limit < length (content self.old name.now)
            → result ≡ Err FetchError.TooLong }
        ensures not_held { find_file self.old name.now ≡ None → result ≡ Ok [] }
        ensures holds { self.new ≡ self.old }
        ensures leaves { FetchLeaves 0 0 None None name.now result }
    {
        match find_first(self.files.as_slice(), name.as_bytes()) {
            Some(file) => copy_within(alloc, file.bytes.as_slice(), limit),
            None => Ok(Bytes::from_vec(Vec::new(alloc))),
        }
    }
}
