//! Tables with macros of which the bodies are tokens.
ghost use Rattle.std.specs.Prelude.{◌≡◌, ◌<◌, ◌≤◌, ◌^◌, ◌+◌, ◌++◌, ◌∷◌, [], None, Some, length, take, map, IfOk, OnOk};
ghost use Rattle.std.specs.List.{AllByRecursion};
ghost use Rattle.mt_macro.specs.Placeless.{placeless, placeless_macro, placeless_table};
ghost use Rattle.mt_macro.specs.Table.{macro_of, with_macro};
ghost use Rattle.mt_lexicon.specs.Meaning.{kind_of, token_of, Known, Extends};
ghost use Rattle.mt_plain.specs.CodeTables.{plain_codes};
ghost use Rattle.mt_plain.specs.PlainMacros.{plain_table};
ghost use Rattle.mt_tables.specs.inner.KeptMacros.{name_at, macro_of_kept, IsKnownBody};

use crate::definition::known_number;
use crate::kept::KeptMacro;
use crate::tables::Tables;
use mt_lexicon::Word;
use mt_macro::{Entry, MAX_OWN_NAMES, Macros};
use mt_plain::{CodeError, Codes, plain_macros};
use mt_token::{Token, TokenKind};
use std::alloc::{AllocError, Global};

impl Tables {
    // The word of a token.
    fn word_of(&mut self, token: &Token) -> Result<Word, AllocError>
        ensures is { IfOk result (λ w. kind_of self.new.names w.kind ≡ token.now.kind) }
        ensures known { IfOk result (λ w. Known self.new.names w) }
        ensures keeps { Extends self.old.names self.new.names }
        ensures codes { self.new.codes ≡ self.old.codes }
        ensures macros { self.new.macros ≡ self.old.macros }
    {
        match &token.kind {
            TokenKind::Control(name) => self.number(name.as_slice()),
            TokenKind::Char(c) => Ok(Word::character(*c)),
            TokenKind::Space => Ok(Word::space()),
        }
    }

    /// The words of tokens. Their names are added if they are not there.
    ///
    /// # Errors
    ///
    /// Memory ran out, or there are 2^24 other names.
    pub fn words_of(&mut self, list: &[Token]) -> Result<Vec<Word>, AllocError>
        ensures is { IfOk result (λ words. map (token_of self.new.names) words.items
            ≡ map placeless list.now) }
        ensures known { IfOk result (λ words. AllByRecursion (Known self.new.names) words.items) }
        ensures keeps { Extends self.old.names self.new.names }
        ensures codes { self.new.codes ≡ self.old.codes }
        ensures macros { self.new.macros ≡ self.old.macros }
    {
        let mut words = Vec::new(self.alloc);
        for token in list {
            push_word(&mut words, self.word_of(token)?)?;
        }
        Ok(words)
    }

    // Puts a macro under the number of a name that has none.
    fn put_new(&mut self, number: usize, meaning: KeptMacro) -> Result<(), AllocError>
        requires within { number < length self.old.names }
        requires known { IsKnownBody self.old.names (Some meaning) }
        requires new { macro_of self.old.macros (name_at self.old.names number) ≡ None }
        ensures ok { OnOk result (self.new.macros ≡ with_macro self.old.macros
            (name_at self.old.names number) (macro_of_kept self.old.names meaning)) }
        ensures codes { self.new.codes ≡ self.old.codes }
    {
        if meaning.own && self.own_names() >= MAX_OWN_NAMES {
            return Err(AllocError);
        }
        self.put(number, meaning)
    }

    // Puts in a macro of which the body is tokens.
    fn load(&mut self, entry: &Entry) -> Result<(), AllocError>
        requires short { length entry.now.meaning.body ≤ 2 ^ 32 }
        requires new { macro_of self.old.macros entry.now.name ≡ None }
        ensures ok { OnOk result (self.new.macros ≡ with_macro self.old.macros entry.now.name
            (placeless_macro entry.now.meaning)) }
        ensures codes { self.new.codes ≡ self.old.codes }
    {
        let word = self.number(entry.name.as_slice())?;
        let body = self.words_of(entry.meaning.body.as_slice())?;
        let meaning = KeptMacro {
            own: entry.meaning.own,
            params: entry.meaning.params,
            body,
        };
        match known_number(&self.names, word) {
            Some(number) => self.put_new(number, meaning),
            None => Ok(()),
        }
    }

    // Puts in the macro with an index, after those before it.
    fn load_at(&mut self, macros: &Macros, index: usize) -> Result<(), AllocError>
        requires within { index < length macros.now }
        requires loaded { self.old.macros ≡ take index (placeless_table macros.now) }
        ensures ok { OnOk result (self.new.macros ≡ take (index + 1) (placeless_table macros.now)) }
        ensures codes { self.new.codes ≡ self.old.codes }
    {
        match macros.entry(index) {
            Some(entry) => self.load(entry),
            None => Ok(()),
        }
    }

    /// Tables with these codes, and with the macros of these names. The tokens of the bodies are
    /// words then, at no place.
    ///
    /// # Errors
    ///
    /// Memory ran out, or more names than 1,000 are the user's own.
    pub fn with_macros(alloc: Global, codes: Codes, macros: &Macros) -> Result<Tables, AllocError>
        ensures codes { IfOk result (λ tables. tables.codes ≡ codes) }
        ensures macros { IfOk result (λ tables. tables.macros ≡ placeless_table macros.now) }
    {
        let mut tables = Tables::new(alloc, codes);
        for index in 0..macros.len() {
            tables.load_at(macros, index)?;
        }
        Ok(tables)
    }

    /// The tables of plain TeX for formulas (The TeXbook, Appendix B): its codes and macros.
    ///
    /// # Errors
    ///
    /// `OutOfMemory` where memory ran out.
    pub fn plain(alloc: Global) -> Result<Tables, CodeError>
        ensures codes { IfOk result (λ tables. tables.codes ≡ plain_codes) }
        ensures macros { IfOk result (λ tables. tables.macros ≡ placeless_table plain_table) }
    {
        let codes = Codes::plain(alloc)?;
        let macros = plain_macros(alloc)?;
        Ok(Tables::with_macros(alloc, codes, &macros)?)
    }
}

/// Adds a word to a list.
pub fn push_word(list: &mut Vec<Word>, word: Word) -> Result<(), AllocError>
    ensures { OnOk result (list.new.items ≡ list.old.items ++ word ∷ []) }
{
    list.push(word)?;
    Ok(())
}
