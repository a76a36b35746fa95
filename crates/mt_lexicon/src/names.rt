//! Names by their numbers.
ghost use Rattle.std.specs.Prelude.{◌≡◌, ◌<◌, ◌^◌, IfOk, Some, slice_get, length, [], false};
ghost use Rattle.std.specs.Option.{option_copied};
ghost use Rattle.std.specs.List.{list_any};
ghost use Rattle.std.specs.Str.{bytes_eq};
ghost use Rattle.mt_lexicon.specs.Meaning.{Extends, IsDistinct};
ghost use Rattle.mt_lexicon.specs.NamesIn.{names_in};

use indexmap::IndexSet;
use std::alloc::{AllocError, Global};
use std::marker::Model;

/// How many names can have a number.
const MAX_NAMES: usize = 16_777_216;

/// The names that were read, each with a number from 0 on. Names are added, and never taken away.
#[derive(Debug, Drop)]
pub struct Names {
    alloc: Global,
    set: IndexSet<Vec<u8>>,
}

impl Model for Names {
    ghost use Rattle.std.specs.Prelude.{map};
    ghost use Rattle.mt_lexicon.specs.Meaning.{NameTable};

    ghost Value = { NameTable };

    ghost view = { λ n. map (λ k. k.items) n.set.keys };
}

impl Names {
    /// No names. Takes no memory; names that are added later are kept by this allocator.
    pub fn empty(alloc: Global) -> Names
        ensures { result ≡ [] }
    {
        Names {
            alloc,
            set: IndexSet::new(alloc),
        }
    }

    /// The number of a name, which is added if it is not there. The numbers of other names stay.
    ///
    /// # Errors
    ///
    /// Memory ran out, or there are 2^24 other names. A source has fewer bytes than that, and so has
    /// fewer names.
    pub fn number(&mut self, name: &[u8]) -> Result<u32, AllocError>
        ensures is { IfOk result (λ n. slice_get self.new n ≡ Some name.now) }
        ensures small { IfOk result (λ n. n < 2 ^ 24) }
        ensures keeps { Extends self.old self.new }
        ensures distinct { IsDistinct self.old → IsDistinct self.new }
    {
        let at = number_in(self.alloc, &mut self.set, name)?;
        small_number(at)
    }

    /// How many names there are.
    #[inline]
    pub fn len(&self) -> usize
        ensures { result ≡ length self.now }
    {
        self.set.len()
    }

    /// The name with a number; none where no name has it.
    #[inline]
    pub fn name(&self, number: usize) -> Option<&[u8]>
        ensures { option_copied result ≡ slice_get self.now number }
    {
        match self.set.get_index(number) {
            Some(name) => Some(name.as_slice()),
            None => None,
        }
    }
}

// A number as one of 24 bits.
fn small_number(at: usize) -> Result<u32, AllocError>
    ensures is { IfOk result (λ n. n ≡ at) }
    ensures small { IfOk result (λ n. n < 2 ^ 24) }
{
    if at < MAX_NAMES {
        Ok(at as u32)
    } else {
        Err(AllocError)
    }
}

// Adds a name that is not there.
fn add(alloc: Global, set: &mut IndexSet<Vec<u8>>, name: &[u8]) -> Result<usize, AllocError>
    requires { list_any (bytes_eq name.now) (names_in set.old) ≡ false }
    ensures is { IfOk result (λ n. slice_get (names_in set.new) n ≡ Some name.now) }
    ensures keeps { Extends (names_in set.old) (names_in set.new) }
    ensures distinct { IsDistinct (names_in set.old) → IsDistinct (names_in set.new) }
{
    let (at, _) = set.insert_full(Vec::from_slice(alloc, name)?)?;
    Ok(at)
}

// The number of a name, which is added if need be.
fn number_in(alloc: Global, set: &mut IndexSet<Vec<u8>>, name: &[u8]) -> Result<usize, AllocError>
    ensures is { IfOk result (λ n. slice_get (names_in set.new) n ≡ Some name.now) }
    ensures keeps { Extends (names_in set.old) (names_in set.new) }
    ensures distinct { IsDistinct (names_in set.old) → IsDistinct (names_in set.new) }
{
    match set.get_index_of(name) {
        Some(at) => Ok(at),
        None => add(alloc, set, name),
    }
}
