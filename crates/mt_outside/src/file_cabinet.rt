//! A cabinet over the files of a system and its standard input. What a file holds is not told.
ghost use Rattle.std.specs.Prelude.{◌≡◌, ◌<◌, ◌≤◌, ◌^◌, vec_len, length, IfOk, IfSome, MatchResult, Ok, Err, None};
ghost use Rattle.mt_outside.specs.Counts.{FetchLeaves, next_count};
ghost use Rattle.mt_outside.specs.Files.{content};

use crate::reading::{read_opened, read_within};
use crate::{Cabinet, FetchError, FileList, Held, SteadyCabinet};
use mt_scaled::{Bytes, Name};
use std::alloc::{AllocError, Global};
use std::fs;
use std::io::Input;
use std::marker::Model;
use std::rt::Files;

/// The name that stands for standard input. A file of this name is `./-`.
pub const STANDARD_INPUT: &str = "-";

/// The files of a system, by their paths, and its standard input, by the name `-`. Standard input
/// is read once; a second fetch of it fails. What cannot be read again, which is standard input and
/// all but regular files, is kept. Contracts see its count of faults and the name of the last one.
#[derive(Drop)]
pub struct FileCabinet<'a, R: Files + Input> {
    rt: &'a R,
    faults: u64,
    lost: Option<Name>,
    has_read_input: bool,
    kept: Vec<Held>,
}

impl<'a, R: Files + Input> Model for FileCabinet<'a, R> {
    ghost use Rattle.mt_outside.specs.Memory.{FaultState};

    ghost Value = { FaultState };

    ghost view = { λ c. record { faults = c.faults; lost = c.lost } };
}

impl<'a, R: Files + Input> FileCabinet<'a, R> {
    /// A cabinet of the files that `rt` can open. Takes no memory.
    pub fn new(rt: &'a R, alloc: Global) -> Self
        ensures { result ≡ record { faults = 0; lost = None } }
    {
        FileCabinet {
            rt,
            faults: 0,
            lost: None,
            has_read_input: false,
            kept: Vec::new(alloc),
        }
    }

    /// What was fetched and cannot be read again, by the names that it was fetched by. Takes no
    /// memory.
    pub fn into_kept(self) -> SteadyCabinet {
        SteadyCabinet::new(FileList::from_vec(self.kept))
    }

    // All the bytes of a file or of standard input, if they are no more than `limit`.
    fn read(&mut self, alloc: Global, name: &str, limit: u64) -> Result<Vec<u8>, FetchError>
        requires { limit < 2 ^ 40 }
        ensures within { IfOk result (λ bytes. vec_len bytes ≤ limit) }
        ensures same { self.new ≡ self.old }
    {
        if name != STANDARD_INPUT {
            return read_opened(fs::open(self.rt, name), alloc, limit);
        }
        if self.has_read_input {
            return Err(FetchError::Failed);
        }
        self.has_read_input = true;
        read_within(&mut self.rt.reader(), alloc, limit)
    }

    // Keeps the bytes of what cannot be read again.
    fn keep(&mut self, alloc: Global, name: &str, bytes: &[u8]) -> Result<(), AllocError>
        ensures { self.new ≡ self.old }
    {
        if !is_rereadable(self.rt, name) {
            let name = Name::from_slice(alloc, name.as_bytes())?;
            let bytes = Bytes::from_vec(Vec::from_slice(alloc, bytes)?);
            self.kept.push(Held { name, bytes })?;
        }
        Ok(())
    }

    // The answer to a read. One that failed is counted, and its name is kept.
    fn answer(&mut self, name: Name, read: Result<Vec<u8>, FetchError>) -> Result<Bytes, FetchError>
        ensures is { MatchResult read (λ bytes. result ≡ Ok bytes.items)
            (λ error. result ≡ Err error) }
        ensures leaves { FetchLeaves self.old.faults self.new.faults self.old.lost self.new.lost
            name result }
        ensures raises { result ≡ Err FetchError.Failed
            → self.new.faults ≡ next_count self.old.faults }
    {
        if let Err(FetchError::Failed) = &read {
            self.faults = self.faults.saturating_add(1);
            self.lost = Some(name);
        }
        Ok(Bytes::from_vec(read?))
    }
}

impl<R: Files + Input> Cabinet for FileCabinet<'_, R> {
    ghost holds = { λ c. None };

    ghost faults = { λ c. c.faults };

    ghost lost = { λ c. c.lost };

    fn fetch(&mut self, alloc: Global, name: &str, limit: u64) -> Result<Bytes, FetchError>
        requires { limit < 2 ^ 40 }
        ensures within { IfOk result (λ bytes. length bytes ≤ limit) }
        ensures bytes { IfOk result (λ bytes. IfSome None (λ files. bytes ≡ content files name.now)) }
        ensures leaves { FetchLeaves self.old.faults self.new.faults self.old.lost self.new.lost
            name.now result }
        ensures raises { result ≡ Err FetchError.Failed
            → self.new.faults ≡ next_count self.old.faults }
    {
        let lost = Name::from_slice(alloc, name.as_bytes())?;
        let read = self.read(alloc, name, limit);
        let bytes = self.answer(lost, read)?;
        self.keep(alloc, name, bytes.as_slice())?;
        Ok(bytes)
    }
}

/// Whether a name is that of a regular file, also by links, which can be read again. Standard input, a pipe, a terminal
/// or another device may have nothing more to read, and the open of a named pipe waits for who writes to it.
pub fn is_rereadable<R: Files>(rt: &R, name: &str) -> bool {
    name != STANDARD_INPUT
        && match fs::metadata(rt, name) {
            Ok(metadata) => metadata.is_file(),
            Err(_) => false,
        }
}
