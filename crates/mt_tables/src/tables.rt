//! What words mean.
ghost use Rattle.std.specs.Prelude.{◌≡◌, ◌<◌, ◌≤◌, IsTrue, true, [], IfOk};
ghost use Rattle.mt_token.specs.declared.token.TokenKind.TheVariants.{Control};
ghost use Rattle.mt_lexicon.specs.Meaning.{kind_of, Known, Extends};
ghost use Rattle.mt_plain.specs.Limits.{max_math_code};
ghost use Rattle.mt_plain.specs.CodeTables.{with_math_code, with_delcode, is_delcode};
ghost use Rattle.mt_tables.specs.Held.{Held};

use crate::kept::WordMacros;
use crate::name_roles::add_role;
use mt_lexicon::{Names, Word, WordKind, name_number};
use mt_plain::Codes;
use mt_scan::Role;
use mt_token::name_hash;
use std::alloc::{AllocError, Global};
use std::marker::Model;

/// How many slots there are for names that were read.
const SLOTS: usize = 256;

/// What words mean: the names that were read, by their numbers, what they are in a formula, their
/// macros, and the codes of characters.
#[derive(Debug, Drop)]
pub struct Tables {
    pub(crate) codes: Codes,
    pub(crate) names: Names,
    pub(crate) roles: Vec<Role>,
    pub(crate) macros: WordMacros,
    pub(crate) own_names: usize,
    // words of names, each in the slot of its name
    pub(crate) recent: [Word; SLOTS],
    pub(crate) alloc: Global,
}

impl Model for Tables {
    ghost use Rattle.std.specs.Prelude.{◌≡◌};
    ghost use Rattle.mt_macro.specs.Table.{own_count};
    ghost use Rattle.mt_tables.specs.Held.{Held};
    ghost use Rattle.mt_tables.specs.inner.KeptMacros.{table_of, AreMacros};
    ghost use Rattle.mt_tables.specs.inner.NameRoles.{AreRoles};

    ghost Value = { Held };

    ghost view = { λ t. record {
      codes = t.codes;
      names = t.names;
      macros = table_of t.names t.macros.kept.items t.macros.order.items;
    } };

    ghost invariant = { λ t. AreRoles t.roles.items t.names
        × AreMacros t.names t.macros.kept.items t.macros.order.items
        × (t.own_names ≡ own_count (table_of t.names t.macros.kept.items t.macros.order.items)) };
}

// The slot of a name.
fn slot_of(name: &[u8]) -> usize
    ensures { result < 256 }
{
    name_hash(name) % SLOTS
}

// Whether a word is this name.
fn is_word_of(names: &Names, word: Word, name: &[u8]) -> bool
    ensures { IsTrue result → (kind_of names.now word.kind ≡ Control name.now) × Known names.now word }
{
    match word.kind {
        WordKind::Name(high, low) => match names.name(name_number(high, low)) {
            Some(known) => known == name,
            None => false,
        },
        _ => false,
    }
}

impl Tables {
    /// Tables without names and macros. What is added later is kept by this allocator.
    pub fn new(alloc: Global, codes: Codes) -> Tables
        ensures { result ≡ record { codes = codes; names = []; macros = [] } }
    {
        Tables {
            codes,
            names: Names::empty(alloc),
            roles: Vec::new(alloc),
            macros: WordMacros::empty(alloc),
            own_names: 0,
            recent: [Word::space(); SLOTS],
            alloc,
        }
    }

    /// The word of a name, which is added to the names if it is not there.
    ///
    /// # Errors
    ///
    /// Memory ran out, or there are 2^24 other names.
    pub fn number(&mut self, name: &[u8]) -> Result<Word, AllocError>
        ensures is { IfOk result (λ w. kind_of self.new.names w.kind ≡ Control name.now) }
        ensures known { IfOk result (λ w. Known self.new.names w) }
        ensures keeps { Extends self.old.names self.new.names }
        ensures codes { self.new.codes ≡ self.old.codes }
        ensures macros { self.new.macros ≡ self.old.macros }
    {
        let slot = slot_of(name);
        let recent = self.recent[slot];
        if is_word_of(&self.names, recent, name) {
            return Ok(recent);
        }
        let number = self.names.number(name)?;
        add_role(&self.codes, &self.names, &mut self.roles, number as usize)?;
        let word = Word::name(number);
        self.recent[slot] = word;
        Ok(word)
    }

    /// Gives a character another math code.
    pub fn set_math_code(&mut self, c: u8, code: u16)
        requires character { c < 128 }
        requires code { code ≤ max_math_code }
        ensures codes { self.new.codes ≡ with_math_code self.old.codes c code }
        ensures names { self.new.names ≡ self.old.names }
        ensures macros { self.new.macros ≡ self.old.macros }
    {
        self.codes.set_math_code(c, code);
    }

    /// Gives a character another delimiter code, or none.
    pub fn set_delcode(&mut self, c: u8, code: Option<u32>)
        requires character { c < 128 }
        requires code { is_delcode code ≡ true }
        ensures codes { self.new.codes ≡ with_delcode self.old.codes c code }
        ensures names { self.new.names ≡ self.old.names }
        ensures macros { self.new.macros ≡ self.old.macros }
    {
        self.codes.set_delcode(c, code);
    }
}
