//! A cabinet in memory that fails where it is reported to.
ghost use Rattle.std.specs.Prelude.{◌≡◌, ◌<◌, ◌≤◌, ◌^◌, ◌⊎◌, Contains, IfNone, IfOk, IfSome, length, Some, None};
ghost use Rattle.mt_outside.specs.Counts.{FetchLeaves, next_count};
ghost use Rattle.mt_outside.specs.Files.{content, find_file};
ghost use Rattle.mt_outside.specs.Memory.{Fails};

use crate::copies::{copy_within, find_first};
use crate::{Cabinet, CallList, FetchError, FileList, Held};
use mt_scaled::{Bytes, Name};
use std::alloc::Global;
use std::marker::Model;

/// Files in memory. The calls of the numbers that it is given fail, and so does a call for a name
/// that it does not hold.
#[derive(Debug, Drop)]
pub struct MemoryCabinet {
    files: FileList,
    fail: CallList,
    calls: u64,
    faults: u64,
    lost: Option<Name>,
}

impl Model for MemoryCabinet {
    ghost use Rattle.mt_outside.specs.Memory.{CabinetState};

    ghost Value = { CabinetState };

    ghost view = { λ c. record {
      files = c.files;
      fail = c.fail;
      calls = c.calls;
      faults = c.faults;
      lost = c.lost;
    } };
}

impl MemoryCabinet {
    /// A cabinet of these files whose calls of the numbers `fail`, counted from 1, will fail. Takes
    /// no memory.
    pub fn new(files: FileList, fail: CallList) -> Self
        ensures { result ≡ record { files = files; fail = fail; calls = 0; faults = 0; lost = None } }
    {
        MemoryCabinet {
            files,
            fail,
            calls: 0,
            faults: 0,
            lost: None,
        }
    }

    // The file that the call of the present number gives; none where it is to fail.
    fn file_of_call(&self, name: &[u8]) -> Option<&Held>
        ensures some { IfSome result (λ file. find_file self.now.files name.now ≡ Some file.now) }
        ensures allowed { IfSome result (λ _. Contains self.now.fail self.now.calls → ⊥) }
        ensures none { IfNone result (Contains self.now.fail self.now.calls
            ⊎ (find_file self.now.files name.now ≡ None)) }
    {
        if self.fail.as_slice().contains(&self.calls) {
            None
        } else {
            find_first(self.files.as_slice(), name)
        }
    }
}

impl Cabinet for MemoryCabinet {
    ghost holds = { λ c. Some c.files };

    ghost faults = { λ c. c.faults };

    ghost lost = { λ c. c.lost };

    fn fetch(&mut self, alloc: Global, name: &str, limit: u64) -> Result<Bytes, FetchError>
        requires { limit < 2 ^ 40 }
        ensures within { IfOk result (λ bytes. length bytes ≤ limit) }
        ensures bytes { IfOk result (λ bytes. bytes ≡ content self.old.files name.now) }
        ensures too_long { result ≡ Err FetchError.TooLong
            → limit < length (content self.old.files name.now) }
        ensures leaves { FetchLeaves self.old.faults self.new.faults self.old.lost self.new.lost
            name.now result }
        ensures raises { result ≡ Err FetchError.Failed
            → self.new.faults ≡ next_count self.old.faults }
        ensures files { self.new.files ≡ self.old.files }
        ensures fail { self.new.fail ≡ self.old.fail }
        ensures calls { self.new.calls ≡ next_count self.old.calls }
        ensures failed { result ≡ Err FetchError.Failed → Fails self.old name.now }
        ensures fails { Fails self.old name.now
            → (result ≡ Err FetchError.Failed) ⊎ (result ≡ Err FetchError.OutOfMemory) }
    {
        // A call without memory for the name is counted too, so it ends only after the count.
        let lost = Name::from_slice(alloc, name.as_bytes());
        self.calls = self.calls.saturating_add(1);
        let lost = lost?;
        match self.file_of_call(name.as_bytes()) {
            Some(file) => copy_within(alloc, file.bytes.as_slice(), limit),
            None => {
                self.faults = self.faults.saturating_add(1);
                self.lost = Some(lost);
                Err(FetchError::Failed)
            }
        }
    }
}
