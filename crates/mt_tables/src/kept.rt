//! Macros of which the bodies are words, by the numbers of their names.
ghost use Rattle.std.specs.Prelude.{◌≡◌};
ghost use Rattle.std.specs.Option.{option_copied};
ghost use Rattle.mt_tables.specs.inner.KeptMacros.{kept_at, body_items};

use mt_lexicon::Word;
use std::alloc::Global;

/// A macro, of which the body is words.
#[derive(Debug, Drop)]
pub struct KeptMacro {
    /// Whether the name is the user's own.
    pub own: bool,
    /// The number of parameters.
    pub params: u8,
    /// The words that the name is replaced by, in which `#` and a digit are a parameter.
    pub body: Vec<Word>,
}

/// Macros by the numbers of their names.
#[derive(Debug, Drop)]
pub struct WordMacros {
    /// For each number, the macro of this name. It has as many places as there was need for.
    pub kept: Vec<Option<KeptMacro>>,
    /// The numbers of the names that have a macro, in the order of the names.
    pub order: Vec<usize>,
}

impl WordMacros {
    ghost use Rattle.std.specs.Prelude.{[]};

    /// No macros. Takes no memory; what is defined later is kept by this allocator.
    pub fn empty(alloc: Global) -> WordMacros
        ensures kept { result.kept.items ≡ [] }
        ensures order { result.order.items ≡ [] }
    {
        WordMacros {
            kept: Vec::new(alloc),
            order: Vec::new(alloc),
        }
    }
}

/// The macro of the name with a number.
#[inline]
pub fn kept_at(kept: &[Option<KeptMacro>], number: usize) -> Option<&KeptMacro>
    ensures { option_copied result ≡ kept_at kept.now number }
{
    match kept.get(number) {
        Some(Some(found)) => Some(found),
        _ => None,
    }
}

/// The body of the macro of the name with a number; no words where there is none.
pub fn body_items(kept: &[Option<KeptMacro>], number: usize) -> &[Word]
    ensures { result.now ≡ body_items (kept_at kept.now number) }
{
    match kept.get(number) {
        Some(Some(found)) => found.body.as_slice(),
        _ => &[],
    }
}
