//! A document that is read page by page from the bytes of its source.
ghost use Rattle.std.specs.Prelude.{◌≡◌, ◌≤◌, ◌<◌, ◌^◌, [], List, IfOk, IsTrue, OnOk, Ok, Option, Some, false, length, map};
ghost use Rattle.mt_scaled.specs.Number.{Within};
ghost use Rattle.mt_token.specs.Tokens.{Spanned, fault_of, max_source, source_tokens};
ghost use Rattle.mt_token.specs.declared.token.Token.{Token as TokenFields};
ghost use Rattle.mt_token.specs.declared.token.TokenError.{TokenError as TokenErrorFields};
ghost use Rattle.mt_plain.specs.CodeTables.{plain_codes};
ghost use Rattle.mt_rules.specs.declared.document.Formula.{Formula};
ghost use Rattle.mt_reader.specs.declared.outside_role.OutsideRole.{OutsideRole as OutsideRoleFields};
ghost use Rattle.mt_reader.specs.DocumentTurns.{ends_page};
ghost use Rattle.mt_reader.specs.PageReading.{CanGoOn, GoesOn, IsBeforeFault, IsNextPage, IsReadOf, fault_ahead};
ghost use Rattle.mt_reader.specs.SourceReading.{IsFirst, IsLast, IsUsedUp, IsStillRead, IsTurned, KeepsFault, StaysOn, room};
ghost use Rattle.mt_reader.specs.Sources.{plain_words, word_token};
ghost use Rattle.mt_reader.specs.Views.{pages_view};

use crate::arena_page::ArenaPage;
use crate::counted_turn::{CountedTurn, counted_turn_ahead, last_counted_turn};
use crate::document_error::DocError;
use crate::document_state::DocumentState;
use crate::expanded_items::ExpandedItems;
use crate::outside_role::{OutsideRole, outside_role};
use crate::word_source::WordSource;
use mt_lexicon::Word;
use mt_scaled::Units;
use mt_tables::Tables;
use std::alloc::Global;

/// The pages of a document, one after another: what has been read, and what is left of the source, of which words are
/// read ahead only as they are wanted. After an error it is of no more use.
#[derive(Drop)]
pub struct PageReader<'a> {
    state: DocumentState<Tables>,
    expanded: ExpandedItems<Word>,
    // a page that was handed back: its memory is used again for the next one
    spare: ArenaPage,
    source: WordSource<'a>,
}

impl<'a> PageReader<'a> {
    /// The pages of a source of at most 4,194,304 bytes, with plain TeX's codes and macros. None of them is read yet.
    pub fn new(alloc: Global, tables: Tables, bytes: &'a [u8]) -> PageReader<'a>
        requires codes { tables.codes ≡ plain_codes }
        requires macros { tables.macros ≡ plain_words }
        requires bytes { length bytes.now ≤ max_source }
        ensures is { (units : Units) → (list : List Spanned) → source_tokens bytes.now ≡ Ok list
            → IsReadOf units (map word_token list) [] result }
        ensures fault { fault_ahead result ≡ fault_of (source_tokens bytes.now) }
        ensures more { CanGoOn result }
    {
        PageReader {
            state: DocumentState::start(alloc, tables),
            expanded: ExpandedItems::new(alloc),
            spare: ArenaPage::new(alloc),
            source: WordSource::new(alloc, bytes),
        }
    }

    /// Takes back a page that was handed out: a later page takes its memory.
    pub fn recycle(&mut self, page: ArenaPage)
        ensures { pages_view self.new ≡ pages_view self.old }
    {
        self.spare = page;
    }

    // Reads more words of the source. Whether there was one.
    fn more(&mut self) -> Result<bool, DocError>
        requires more { CanGoOn self.old }
        ensures is { (units : Units) → (tokens : List TokenFields) → (read : List (List Formula))
            → IsReadOf units tokens read self.old
            → IsStillRead units tokens read (pages_view self.new) result }
        ensures fault { KeepsFault (pages_view self.old) (pages_view self.new) result }
        ensures more { StaysOn (pages_view self.old) (pages_view self.new) result }
        ensures some { IfOk result (λ some. IsTrue some → 0 < length (pages_view self.new).source.words) }
        ensures none { IfOk result (λ some. some ≡ false
            → IsLast (pages_view self.old).source (pages_view self.new).source) }
        ensures falls { IfOk result (λ some. IsTrue some
            → (pages_view self.new).source.unread < (pages_view self.old).source.unread) }
        ensures room { OnOk result (room (pages_view self.new).source ≤ room (pages_view self.old).source) }
        ensures first { (role : OutsideRoleFields)
            → IsFirst (Some role) (pages_view self.old).names (pages_view self.old).source
            → OnOk result (IsFirst (Some role) (pages_view self.new).names (pages_view self.new).source) }
    {
        self.state.read_more(&mut self.source)
    }

    // Whether a word is left. It is ahead then.
    fn has_word(&mut self) -> Result<bool, DocError>
        requires more { CanGoOn self.old }
        ensures is { (units : Units) → (tokens : List TokenFields) → (read : List (List Formula))
            → IsReadOf units tokens read self.old
            → IsStillRead units tokens read (pages_view self.new) result }
        ensures fault { KeepsFault (pages_view self.old) (pages_view self.new) result }
        ensures more { StaysOn (pages_view self.old) (pages_view self.new) result }
        ensures room { OnOk result (room (pages_view self.new).source ≤ room (pages_view self.old).source) }
        ensures some { IfOk result (λ some. IsTrue some → 0 < length (pages_view self.new).source.words) }
        ensures none { IfOk result (λ some. some ≡ false → IsUsedUp (pages_view self.new).source) }
    {
        if !self.source.ahead().is_empty() {
            return Ok(true);
        }
        self.more()
    }

    // What the next word is, which is ahead.
    fn first_role(&self) -> OutsideRole
        requires { 0 < length (pages_view self.now).source.words }
        ensures { IsFirst (Some result) (pages_view self.now).names (pages_view self.now).source }
    {
        outside_role(self.state.tables(), self.source.first())
    }

    // What the next word is, if there is one.
    fn next_role(&mut self) -> Result<Option<OutsideRole>, DocError>
        requires more { CanGoOn self.old }
        ensures is { (units : Units) → (tokens : List TokenFields) → (read : List (List Formula))
            → IsReadOf units tokens read self.old
            → IsStillRead units tokens read (pages_view self.new) result }
        ensures fault { KeepsFault (pages_view self.old) (pages_view self.new) result }
        ensures more { StaysOn (pages_view self.old) (pages_view self.new) result }
        ensures room { OnOk result (room (pages_view self.new).source ≤ room (pages_view self.old).source) }
        ensures first { IfOk result (λ (role : Option OutsideRoleFields).
            IsFirst role (pages_view self.new).names (pages_view self.new).source) }
    {
        if self.has_word()? {
            Ok(Some(self.first_role()))
        } else {
            Ok(None)
        }
    }

    // The turn of the next word, which is this and ends no page. It is made where the words that are ahead are enough
    // for it, and the answer is whether they are.
    fn turn_ahead(&mut self, units: Units, role: OutsideRole) -> Result<bool, DocError>
        requires em { Within (2 ^ 31) units.em }
        requires ex { Within (2 ^ 31) units.ex }
        requires more { CanGoOn self.old }
        requires first { IsFirst (Some role) (pages_view self.old).names (pages_view self.old).source }
        requires page { ends_page role ≡ false }
        ensures is { (tokens : List TokenFields) → (read : List (List Formula))
            → IsReadOf units tokens read self.old
            → IsStillRead units tokens read (pages_view self.new) result }
        ensures fault { KeepsFault (pages_view self.old) (pages_view self.new) result }
        ensures more { StaysOn (pages_view self.old) (pages_view self.new) result }
        ensures falls { IfOk result (λ done. IsTrue done
            → room (pages_view self.new).source < room (pages_view self.old).source) }
        ensures same { IfOk result (λ done. done ≡ false → pages_view self.new ≡ pages_view self.old) }
    {
        let count = self.source.count();
        match counted_turn_ahead(
            units,
            &mut self.state,
            &mut self.expanded,
            count,
            role,
            self.source.after_first(),
        ) {
            Ok(CountedTurn::Left(left)) => {
                self.source.leave(left);
                Ok(true)
            }
            Ok(CountedTurn::Ended) => {
                self.source.finish()?;
                Ok(true)
            }
            Ok(CountedTurn::NotEnough) => Ok(false),
            Err(error) => Err(self.source.first_error(error)),
        }
    }

    // The turn of the next word, which is this and ends no page, where all words of the source are ahead.
    fn last_turn(&mut self, units: Units, role: OutsideRole) -> Result<(), DocError>
        requires em { Within (2 ^ 31) units.em }
        requires ex { Within (2 ^ 31) units.ex }
        requires more { CanGoOn self.old }
        requires first { IsFirst (Some role) (pages_view self.old).names (pages_view self.old).source }
        requires page { ends_page role ≡ false }
        requires end { (pages_view self.old).source.behind ≡ Ok [] }
        ensures is { (tokens : List TokenFields) → (read : List (List Formula))
            → IsReadOf units tokens read self.old
            → IsStillRead units tokens read (pages_view self.new) result }
        ensures fault { KeepsFault (pages_view self.old) (pages_view self.new) result }
        ensures more { StaysOn (pages_view self.old) (pages_view self.new) result }
        ensures falls { OnOk result (room (pages_view self.new).source < room (pages_view self.old).source) }
    {
        let count = self.source.count();
        match last_counted_turn(
            units,
            &mut self.state,
            &mut self.expanded,
            count,
            role,
            self.source.after_first(),
        ) {
            Ok(Some(left)) => {
                self.source.leave(left);
                Ok(())
            }
            Ok(None) => {
                self.source.leave(0);
                Ok(())
            }
            Err(error) => Err(error),
        }
    }

    // The turn of the next word, which is this and ends no page.
    fn word_turn(&mut self, units: Units, role: OutsideRole) -> Result<(), DocError>
        requires em { Within (2 ^ 31) units.em }
        requires ex { Within (2 ^ 31) units.ex }
        requires more { CanGoOn self.old }
        requires first { IsFirst (Some role) (pages_view self.old).names (pages_view self.old).source }
        requires page { ends_page role ≡ false }
        ensures is { (tokens : List TokenFields) → (read : List (List Formula))
            → IsReadOf units tokens read self.old
            → IsStillRead units tokens read (pages_view self.new) result }
        ensures fault { KeepsFault (pages_view self.old) (pages_view self.new) result }
        ensures more { StaysOn (pages_view self.old) (pages_view self.new) result }
        ensures falls { OnOk result (room (pages_view self.new).source < room (pages_view self.old).source) }
    {
        if role.is_passed() {
            self.source.pass_first();
            return Ok(());
        }
        while !self.turn_ahead(units, role)? {
            if !self.more()? {
                return self.last_turn(units, role);
            }
        }
        Ok(())
    }

    // What becomes of the next word, which is this, and of those after it; the page, where it ends one.
    fn turn(
        &mut self,
        alloc: Global,
        units: Units,
        role: OutsideRole,
    ) -> Result<Option<ArenaPage>, DocError>
        requires em { Within (2 ^ 31) units.em }
        requires ex { Within (2 ^ 31) units.ex }
        requires more { CanGoOn self.old }
        requires first { IsFirst (Some role) (pages_view self.old).names (pages_view self.old).source }
        ensures is { (tokens : List TokenFields) → (read : List (List Formula))
            → IsReadOf units tokens read self.old
            → IsTurned units tokens read (pages_view self.new) result }
        ensures fault { KeepsFault (pages_view self.old) (pages_view self.new) result }
        ensures more { GoesOn self.old self.new result }
        ensures falls { OnOk result (room (pages_view self.new).source < room (pages_view self.old).source) }
    {
        if role.ends_page() {
            self.source.pass_first();
            return Ok(self.state.take_page(alloc, &mut self.spare));
        }
        self.word_turn(units, role)?;
        Ok(None)
    }

    /// The next page that has formulas; `None` where there are no more. `units` are what `em` and `ex` are, in
    /// scaled points, the same ones for all pages.
    ///
    /// # Errors
    ///
    /// The fault of a token, wherever in the source it is; pages before it may be handed out first. Where there is none,
    /// the first fault in the order of the source, where it is before the end of the next page. `OutOfMemory` where
    /// memory ran out.
    pub fn next_page(&mut self, alloc: Global, units: Units) -> Result<Option<ArenaPage>, DocError>
        requires em { Within (2 ^ 31) units.em }
        requires ex { Within (2 ^ 31) units.ex }
        requires more { CanGoOn self.old }
        ensures is { (tokens : List TokenFields) → (read : List (List Formula)) → IsReadOf units tokens read self.old
            → IsNextPage units tokens read self.new result }
        ensures fault { (cause : TokenErrorFields) → fault_ahead self.old ≡ Some cause
            → IsBeforeFault cause self.new result }
        ensures more { GoesOn self.old self.new result }
    {
        while let Some(role) = self.next_role()? {
            if let Some(page) = self.turn(alloc, units, role)? {
                return Ok(Some(page));
            }
        }
        Ok(self.state.take_page(alloc, &mut self.spare))
    }
}
