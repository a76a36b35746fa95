//! Definitions of macros over words.
ghost use Rattle.std.specs.Prelude.{◌≡◌, ◌<◌, ◌≤◌, ◌+◌, ◌^◌, ◌&&◌, not, ℕ, List, Some, true, false, length, map};
ghost use Rattle.std.specs.Prelude.{MatchOption, OnOk, OnErr, if◌then◌else◌};
ghost use Rattle.mt_token.specs.declared.token.TokenKind.TheVariants.{Control};
ghost use Rattle.mt_macro.specs.Limits.{max_own_names};
ghost use Rattle.mt_macro.specs.Table.{macro_of, is_own, own_count, with_macro};
ghost use Rattle.mt_macro.specs.Definition.{define, Answers};
ghost use Rattle.mt_lexicon.specs.Meaning.{token_of, kind_of};
ghost use Rattle.mt_tables.specs.inner.KeptMacros.{name_at, macro_of_kept, IsKnownBody, IsNumberOf};

use crate::kept::{KeptMacro, kept_at};
use crate::putting::known_words;
use crate::tables::Tables;
use mt_lexicon::{Names, Word, WordKind, name_number};
use mt_macro::items::body_fault;
use mt_macro::{MAX_OWN_NAMES, MacroError};
use std::alloc::AllocError;

/// The number of the name that a word is read as; `None` where it is read as no name.
pub fn known_number(names: &Names, word: Word) -> Option<usize>
    ensures { MatchOption result
        ((name : List ℕ) → kind_of names.now word.kind ≡ Control name → ⊥)
        (λ number. IsNumberOf names.now word number) }
{
    match word.kind {
        WordKind::Name(high, low) if name_number(high, low) < names.len() => {
            Some(name_number(high, low))
        }
        _ => None,
    }
}

// How many names are the user's own, after a name is made so or not.
fn own_names_after(count: usize, own: bool, was_own: bool) -> usize
    requires { own ≡ true → was_own ≡ false → count < max_own_names }
    ensures { result ≡ (if own && not was_own then count + 1 else count) }
{
    if own && !was_own { count + 1 } else { count }
}

impl Tables {
    ghost use Rattle.mt_tables.specs.Held.{Held};

    // Whether the name with a number is the user's own.
    fn is_own(&self, number: usize) -> bool
        requires { number < length self.now.names }
        ensures { result ≡ is_own (macro_of self.now.macros (name_at self.now.names number)) }
    {
        match kept_at(self.macros.kept.as_slice(), number) {
            Some(found) => found.own,
            None => false,
        }
    }

    // How many names are the user's own.
    pub(crate) fn own_names(&self) -> usize
        ensures { result ≡ own_count self.now.macros }
    {
        self.own_names
    }

    // Puts a macro under the number of its name, in place of an older one. A name that was the
    // user's own stays so.
    pub(crate) fn put(&mut self, number: usize, meaning: KeptMacro) -> Result<(), AllocError>
        requires within { number < length self.old.names }
        requires known { IsKnownBody self.old.names (Some meaning) }
        requires few { meaning.own ≡ true
            → is_own (macro_of self.old.macros (name_at self.old.names number)) ≡ false
            → own_count self.old.macros < max_own_names }
        requires stays { is_own (macro_of self.old.macros (name_at self.old.names number)) ≡ true
            → meaning.own ≡ true }
        ensures ok { OnOk result (self.new.macros ≡ with_macro self.old.macros
            (name_at self.old.names number) (macro_of_kept self.old.names meaning)) }
        ensures err { OnErr result (self.new ≡ self.old) }
        ensures codes { self.new.codes ≡ self.old.codes }
        ensures names { self.new.names ≡ self.old.names }
    {
        let own = meaning.own;
        let was_own = self.is_own(number);
        self.macros.put(&self.names, number, meaning)?;
        self.own_names = own_names_after(self.own_names, own, was_own);
        Ok(())
    }

    // Defines a macro of the user's under the number of its name.
    fn define_numbered(
        &mut self,
        number: usize,
        params: u8,
        body: &[Word],
    ) -> Result<(), MacroError>
        requires within { number < length self.old.names }
        requires short { length body.now ≤ 2 ^ 32 }
        ensures is { Answers result self.new.macros (define self.old.macros
            (name_at self.old.names number) params (map (token_of self.old.names) body.now)) }
        ensures err { OnErr result (self.new ≡ self.old) }
        ensures codes { self.new.codes ≡ self.old.codes }
        ensures names { self.new.names ≡ self.old.names }
    {
        if let Some(fault) = body_fault(&self.names, params, body) {
            return Err(fault);
        }
        if !self.is_own(number) && self.own_names() >= MAX_OWN_NAMES {
            return Err(MacroError::TooMany);
        }
        let body = known_words(self.alloc, &self.names, body)?;
        self.put(
            number,
            KeptMacro {
                own: true,
                params,
                body,
            },
        )?;
        Ok(())
    }

    /// Defines a macro of the user's, by the word of its name, its number of parameters and its
    /// body. A macro that the name had is replaced. A word that is no name is not defined, and
    /// nothing changes then.
    ///
    /// # Errors
    ///
    /// The first of these: `BadParameters`, `Unbalanced`, `TooMany`. `OutOfMemory` where memory ran
    /// out. After an error the tables are as before.
    pub fn define(&mut self, name: Word, params: u8, body: &[Word]) -> Result<(), MacroError>
        requires { length body.now ≤ 2 ^ 32 }
        ensures is { (n : List ℕ) → kind_of self.old.names name.kind ≡ Control n
            → Answers result self.new.macros
            (define self.old.macros n params (map (token_of self.old.names) body.now)) }
        ensures other { ((n : List ℕ) → kind_of self.old.names name.kind ≡ Control n → ⊥)
            → self.new ≡ self.old }
        ensures err { OnErr result (self.new ≡ self.old) }
        ensures codes { self.new.codes ≡ self.old.codes }
        ensures names { self.new.names ≡ self.old.names }
    {
        match known_number(&self.names, name) {
            Some(number) => self.define_numbered(number, params, body),
            None => Ok(()),
        }
    }
}
