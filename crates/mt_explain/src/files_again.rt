//! The files of a run, once more.
ghost use Rattle.std.specs.Prelude.{◌≡◌, ◌<◌, ◌≤◌, ◌^◌, length, IfOk, IfSome, None};
ghost use Rattle.mt_outside.specs.Counts.{FetchLeaves, next_count};
ghost use Rattle.mt_outside.specs.Files.{content};

use mt_outside::{Cabinet, FetchError, FileCabinet, SteadyCabinet, is_rereadable};
use mt_scaled::{Bytes, Name};
use std::alloc::Global;
use std::io::Input;
use std::marker::Model;
use std::rt::Files;

/// The files that a run fetched, once more: those that its cabinet kept, since they cannot be read again, and the regular
/// files of a system, by their paths. Any other name counts as a file that could not be read, and is not opened.
/// Contracts see its count of faults and the name of the last one.
#[derive(Drop)]
pub struct FilesAgain<'a, R: Files + Input> {
    rt: &'a R,
    kept: SteadyCabinet,
    faults: u64,
    lost: Option<Name>,
}

impl<'a, R: Files + Input> Model for FilesAgain<'a, R> {
    ghost use Rattle.mt_outside.specs.Memory.{FaultState};

    ghost Value = { FaultState };

    ghost view = { λ c. record { faults = c.faults; lost = c.lost } };
}

impl<'a, R: Files + Input> FilesAgain<'a, R> {
    /// A cabinet of what was kept and of the regular files that `rt` can open. Takes no memory.
    pub fn new(rt: &'a R, kept: SteadyCabinet) -> Self
        ensures { result ≡ record { faults = 0; lost = None } }
    {
        FilesAgain {
            rt,
            kept,
            faults: 0,
            lost: None,
        }
    }

    // The answer to a read. One that failed is counted, and its name is kept.
    fn answer(&mut self, name: Name, read: Result<Bytes, FetchError>) -> Result<Bytes, FetchError>
        ensures is { result ≡ read }
        ensures leaves { FetchLeaves self.old.faults self.new.faults self.old.lost self.new.lost
            name result }
    {
        if let Err(FetchError::Failed) = &read {
            self.faults = self.faults.saturating_add(1);
            self.lost = Some(name);
        }
        read
    }
}

impl<R: Files + Input> Cabinet for FilesAgain<'_, R> {
    ghost holds = { λ c. None };

    ghost faults = { λ c. c.faults };

    ghost lost = { λ c. c.lost };

    fn fetch(&mut self, alloc: Global, name: &str, limit: u64) -> Result<Bytes, FetchError> {
        let lost = Name::from_slice(alloc, name.as_bytes())?;
        let read = if self.kept.holds(name) {
            self.kept.fetch(alloc, name, limit)
        } else if is_rereadable(self.rt, name) {
            FileCabinet::new(self.rt, alloc).fetch(alloc, name, limit)
        } else {
            Err(FetchError::Failed)
        };
        self.answer(lost, read)
    }
}
