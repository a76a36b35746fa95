//! The words of a source, one after another.
ghost use Rattle.std.specs.Prelude.{◌≡◌, ◌<◌, ◌≤◌, ◌+◌, ◌-◌, ◌++◌, ◌∷◌, [], length, Ok, IfOk, IfErr, OnOk};
ghost use Rattle.mt_token.specs.Ahead.{ahead, offset, source};
ghost use Rattle.mt_lexicon.specs.Meaning.{NameTable, Extends};
ghost use Rattle.mt_lexicon.specs.Reading.{StepsWord, IsFault};
ghost use Rattle.mt_tables.specs.Reading.{AddsWords};

use crate::tables::Tables;
use mt_lexicon::Word;
use mt_token::{LentKind, Lexer, TokenError};
use std::alloc::AllocError;

fn push_word(words: &mut Vec<Word>, word: Word) -> Result<(), AllocError>
    ensures { OnOk result (words.new.items ≡ words.old.items ++ word ∷ []) }
{
    words.push(word)?;
    Ok(())
}

// Reads plain characters until there is another token in front, or a list has so many words, and puts
// them behind the list.
fn read_plain(lexer: &mut Lexer<'_>, words: &mut Vec<Word>, limit: usize) -> Result<(), AllocError>
    ensures is { OnOk result ((names : NameTable) → AddsWords names words.old.items (ahead lexer.old)
        words.new.items (ahead lexer.new)) }
    ensures each { OnOk result (length words.new.items + offset lexer.old
        ≡ length words.old.items + offset lexer.new) }
    ensures forward { offset lexer.old ≤ offset lexer.new }
    ensures bytes { source lexer.new ≡ source lexer.old }
{
    let mut here = *lexer;
    while words.len() < limit {
        match here.plain_character() {
            Some(c) => push_word(words, Word::character(c))?,
            None => {
                *lexer = here;
                return Ok(());
            }
        }
    }
    *lexer = here;
    Ok(())
}

impl Tables {
    /// Reads the next token of a source, as a word; `None` at the end of the source, and from then
    /// on. Its name is added to the names if it is not there.
    ///
    /// # Errors
    ///
    /// The fault of [`Lexer::step`], or `OutOfMemory` where memory ran out.
    pub fn next_word<'a>(&mut self, lexer: &mut Lexer<'a>) -> Result<Option<Word>, TokenError>
        ensures is { StepsWord self.new.names result (ahead lexer.old) (offset lexer.old)
            (ahead lexer.new) (offset lexer.new) }
        ensures forward { IfOk result (λ _. offset lexer.old ≤ offset lexer.new) }
        ensures keeps { Extends self.old.names self.new.names }
        ensures codes { self.new.codes ≡ self.old.codes }
        ensures macros { self.new.macros ≡ self.old.macros }
        ensures bytes { source lexer.new ≡ source lexer.old }
    {
        match lexer.step()? {
            Some(token) => match token.kind {
                LentKind::Control(name) => Ok(Some(self.number(name)?)),
                LentKind::Char(c) => Ok(Some(Word::character(c))),
                LentKind::Space => Ok(Some(Word::space())),
            },
            None => Ok(None),
        }
    }

    /// Reads so many words more of a source, or all that are left where there are fewer, and puts
    /// them behind those that are there. Names that are not there are added to the names.
    ///
    /// # Errors
    ///
    /// The fault of [`Lexer::step`], or `OutOfMemory` where memory ran out. Some words may be put
    /// then.
    pub fn read_words(
        &mut self,
        lexer: &mut Lexer<'_>,
        words: &mut Vec<Word>,
        count: usize,
    ) -> Result<(), TokenError>
        ensures is { OnOk result (AddsWords self.new.names words.old.items (ahead lexer.old)
            words.new.items (ahead lexer.new)) }
        ensures fault { IfErr result (λ e. IsFault e (ahead lexer.old) (ahead lexer.old)) }
        ensures enough { OnOk result (length words.new.items < length words.old.items + count
            → ahead lexer.new ≡ Ok []) }
        ensures room { OnOk result (length words.new.items + (length (source lexer.new) - offset lexer.new)
            ≤ length words.old.items + (length (source lexer.old) - offset lexer.old)) }
        ensures keeps { Extends self.old.names self.new.names }
        ensures codes { self.new.codes ≡ self.old.codes }
        ensures macros { self.new.macros ≡ self.old.macros }
        ensures bytes { source lexer.new ≡ source lexer.old }
    {
        let limit = words.len().saturating_add(count);
        loop {
            read_plain(lexer, words, limit)?;
            if words.len() >= limit {
                return Ok(());
            }
            match self.next_word(lexer)? {
                Some(word) => push_word(words, word)?,
                None => return Ok(()),
            }
        }
    }
}
