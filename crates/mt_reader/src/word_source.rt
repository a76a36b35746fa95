//! The words of a source, read as they are wanted.
ghost use Rattle.std.specs.Prelude.{◌≡◌, ◌≤◌, ◌+◌, drop, length};

use crate::document_error::DocError;
use crate::source_faults::{first_error, read_to_end, source_error};
use mt_lexicon::Word;
use mt_tables::Tables;
use mt_token::Lexer;
use std::alloc::Global;

/// How many words are read at a time at least.
const CHUNK: usize = 512;

/// The words of a source: those that are read ahead, and what of the source is not read yet.
#[derive(Drop)]
pub struct WordSource<'a> {
    lexer: Lexer<'a>,
    words: Vec<Word>,
    // so many of the words are used
    used: usize,
    // how many words were before these
    passed: usize,
    ghost within: { used ≤ length words.items },
}

// Takes so many words off the front of a list.
fn drop_front(words: &mut Vec<Word>, count: usize)
    requires { count ≤ length words.old.items }
    ensures { words.new.items ≡ drop count words.old.items }
{
    let len = words.len();
    words.copy_within(count..len, 0);
    words.truncate(len - count);
}

impl<'a> WordSource<'a> {
    ghost use Rattle.std.specs.Prelude.{◌-◌, ◌<◌, ◌∷◌, [], Err, IfErr, IfOk, IsTrue, Ok, OnOk, false, true};
    ghost use Rattle.mt_token.specs.Tokens.{fault_of, max_source, source_tokens};
    ghost use Rattle.mt_reader.specs.SourceFaults.{IsFaultAhead, first_error};
    ghost use Rattle.mt_reader.specs.SourceReading.{IsLast, IsPassed, ReadsMore, left_view, start_view};
    ghost use Rattle.mt_reader.specs.Views.{source_view};

    /// The words of a source with these bytes. None is read yet.
    pub fn new(alloc: Global, bytes: &'a [u8]) -> WordSource<'a>
        requires { length bytes.now ≤ max_source }
        ensures { source_view result ≡ start_view bytes.now }
    {
        WordSource {
            lexer: Lexer::new(bytes),
            words: Vec::new(alloc),
            used: 0,
            passed: 0,
        }
    }

    /// The words that are ahead.
    pub fn ahead(&self) -> &[Word]
        ensures { result.now ≡ (source_view self.now).words }
    {
        &self.words[self.used..]
    }

    /// The first word that is ahead.
    pub fn first(&self) -> &Word
        requires { 0 < length (source_view self.now).words }
        ensures { (source_view self.now).words ≡ result.now ∷ drop 1 (source_view self.now).words }
    {
        &self.words[self.used]
    }

    /// The words that are ahead after the first one.
    pub fn after_first(&self) -> &[Word]
        requires { 0 < length (source_view self.now).words }
        ensures { result.now ≡ drop 1 (source_view self.now).words }
    {
        &self.words[self.used + 1..]
    }

    /// How many words were read, with those that are ahead.
    pub fn count(&self) -> usize
        requires { (source_view self.now).passed + length (source_view self.now).words ≤ max_source }
        ensures { result ≡ (source_view self.now).passed + length (source_view self.now).words }
    {
        self.passed + self.words.len()
    }

    /// So many of the words that are ahead are left: those before them are used.
    pub fn leave(&mut self, left: usize)
        requires { left ≤ length (source_view self.old).words }
        ensures { source_view self.new ≡ left_view left (source_view self.old) }
    {
        self.used = self.words.len() - left;
    }

    /// The first word that is ahead is used.
    pub fn pass_first(&mut self)
        requires { 0 < length (source_view self.old).words }
        ensures { source_view self.new ≡ left_view (length (source_view self.old).words - 1) (source_view self.old) }
    {
        self.used += 1;
    }

    // Takes the words that are used out of the list.
    fn let_go(&mut self)
        requires { (source_view self.old).passed + length (source_view self.old).words ≤ max_source }
        ensures is { source_view self.new ≡ source_view self.old }
        ensures used { self.new.used ≡ 0 }
        ensures lexer { self.new.lexer ≡ self.old.lexer }
    {
        drop_front(&mut self.words, self.used);
        self.passed += self.used;
        self.used = 0;
    }

    // Whether no token is behind the words that are ahead.
    fn is_read_to_end(&self) -> bool
        ensures { result ≡ true → (source_view self.now).behind ≡ Ok [] }
    {
        let mut behind = self.lexer;
        matches!(behind.step(), Ok(None))
    }

    /// Reads more words, as many as are ahead, and 512 at least, where so many are left. The answer is whether one was
    /// left.
    ///
    /// # Errors
    ///
    /// The first fault of the source; `OutOfMemory` where memory ran out.
    pub fn more(&mut self, tables: &mut Tables) -> Result<bool, DocError>
        requires { (source_view self.old).passed + length (source_view self.old).words ≤ max_source }
        ensures is { OnOk result (ReadsMore tables.old.names tables.new.names
            (source_view self.old) (source_view self.new)) }
        ensures fault { IfErr result (λ e. IsFaultAhead e (source_view self.old).behind) }
        ensures some { IfOk result (λ some. IsTrue some
            → length (source_view self.old).words < length (source_view self.new).words) }
        ensures none { IfOk result (λ some. some ≡ false → IsLast (source_view self.old) (source_view self.new)) }
        ensures falls { IfOk result (λ some. IsTrue some
            → (source_view self.new).unread < (source_view self.old).unread) }
        ensures codes { tables.new.codes ≡ tables.old.codes }
        ensures macros { tables.new.macros ≡ tables.old.macros }
    {
        if self.is_read_to_end() {
            return Ok(false);
        }
        self.let_go();
        let before = self.words.len();
        match tables.read_words(&mut self.lexer, &mut self.words, before.max(CHUNK)) {
            Ok(()) => Ok(self.words.len() > before),
            Err(error) => Err(source_error(error)),
        }
    }

    /// Passes all that is left of the source.
    ///
    /// # Errors
    ///
    /// The first fault of what is not read.
    pub fn finish(&mut self) -> Result<(), DocError>
        ensures is { OnOk result (IsPassed (source_view self.old) (source_view self.new)) }
        ensures fault { IfErr result (λ e. IsFaultAhead e (source_view self.old).behind) }
    {
        let mut lexer = self.lexer;
        match read_to_end(&mut lexer) {
            Ok(()) => {
                self.lexer = lexer;
                self.used = self.words.len();
                Ok(())
            }
            Err(cause) => Err(DocError::Source(cause)),
        }
    }

    /// The first fault of what is not read, if there is one, or this error, which is one of what is read.
    pub fn first_error(&self, error: DocError) -> DocError
        ensures { result ≡ first_error (fault_of (source_view self.now).behind) error }
    {
        first_error(&self.lexer, error)
    }
}
