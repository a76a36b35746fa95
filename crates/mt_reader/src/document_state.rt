//! What has been read of a document.
ghost use Rattle.std.specs.Prelude.{◌≡◌, ◌≤◌, ◌<◌, ◌+◌, ◌-◌, ◌^◌, ◌==◌, ◌&&◌, ◌↔◌};
ghost use Rattle.std.specs.Prelude.{[], length, map, true, false, IfErr, IfOk, OnOk, OnErr, IsTrue, None, Ok};
ghost use Rattle.mt_scaled.specs.Number.{Within};
ghost use Rattle.mt_token.specs.Tokens.{max_source};
ghost use Rattle.mt_macro.specs.Braces.{first_unmatched};
ghost use Rattle.mt_macro.specs.Definition.{define, Answers};
ghost use Rattle.mt_macro.specs.Expansion.{Expanded, ExpandsTo, expansion};
ghost use Rattle.mt_macro.specs.Table.{Table};
ghost use Rattle.mt_plain.specs.CodeTables.{CodeTables};
ghost use Rattle.mt_formula.specs.Formulas.{reading};
ghost use Rattle.mt_reader.specs.Assignments.{math_code_assignment, delcode_assignment};
ghost use Rattle.mt_reader.specs.Documents.{start_state, is_page_limit};
ghost use Rattle.mt_reader.specs.DocumentTurns.{AddsTo, state_of, SetsTables, TakesPage, changes_macros};
ghost use Rattle.mt_reader.specs.Limits.{max_total_tokens};
ghost use Rattle.mt_reader.specs.Naming.{control_name, is_control};
ghost use Rattle.mt_reader.specs.SourceFaults.{IsFaultAhead};
ghost use Rattle.mt_reader.specs.SourceReading.{IsLast, ReadsMore};
ghost use Rattle.mt_reader.specs.Views.{held_view, source_view, state_view};
ghost use Rattle.mt_macro.specs.Limits.{max_tokens};

use crate::arena_page::ArenaPage;
use crate::assignments::{assign_delcode, assign_math_code};
use crate::definitions::MacroDefinition;
use crate::document_error::DocError;
use crate::document_tables::DocumentTables;
use crate::expanded_items::ExpandedItems;
use crate::word_source::WordSource;
use mt_formula::ReadError;
use mt_macro::items::matched_expands_to_itself;
use mt_macro::{ExpandError, MacroError};
use mt_scaled::Units;
use mt_scan::Fault;
use mt_tables::Tables;
use std::alloc::Global;
use std::mem;

/// The greatest number of pages.
pub const MAX_DOCUMENT_PAGES: u32 = 5_000;

/// What has been read of a document: the codes and macros, how many pages are ended, the formulas of the page that is
/// not, how many formulas there are, and how many tokens they had after expansion.
#[derive(Drop)]
pub struct DocumentState<K> {
    tables: K,
    ended: u32,
    page: ArenaPage,
    count: u32,
    total: u64,
}

impl<K> DocumentState<K> {
    /// Nothing is read; the codes and macros are those of the tables.
    pub fn start(alloc: Global, tables: K) -> DocumentState<K>
        ensures is { (codes : K → CodeTables) → (macros : K → Table)
            → state_of (state_view codes macros result) ≡ start_state (codes tables) (macros tables) }
        ensures tables { result.tables ≡ tables }
    {
        DocumentState {
            tables,
            ended: 0,
            page: ArenaPage::new(alloc),
            count: 0,
            total: 0,
        }
    }

    /// The codes and macros.
    pub fn tables(&self) -> &K
        ensures { result.now ≡ self.now.tables }
    {
        &self.tables
    }

    /// The codes and macros, without the rest.
    pub fn into_tables(self) -> K
        ensures { result ≡ self.tables }
    {
        self.tables
    }

    /// The number of the next formula.
    pub fn next_number(&self) -> u32
        requires { self.now.count < 2 ^ 32 - 1 }
        ensures { result ≡ self.now.count + 1 }
    {
        self.count + 1
    }

    /// Whether the next formula would begin a page too many.
    #[tactic(auto, using(crate::proofs::PagesMoved::placeholders))]
    pub fn is_page_limit(&self) -> bool
        ensures { (codes : K → CodeTables) → (macros : K → Table)
            → result ≡ is_page_limit (state_of (state_view codes macros self.now)) }
    {
        self.page.is_empty() && self.ended == MAX_DOCUMENT_PAGES
    }

    /// Ends the page and hands it out; without formulas it is none. The next page takes the memory of the spare one.
    pub fn take_page(&mut self, alloc: Global, spare: &mut ArenaPage) -> Option<ArenaPage>
        requires { self.old.ended < 2 ^ 32 - 1 }
        ensures is { (codes : K → CodeTables) → (macros : K → Table)
            → TakesPage result (state_view codes macros self.old) (state_view codes macros self.new) }
        ensures tables { self.new.tables ≡ self.old.tables }
    {
        if self.page.is_empty() {
            return None;
        }
        self.ended += 1;
        let mut next = mem::replace(spare, ArenaPage::new(alloc));
        next.clear();
        Some(mem::replace(&mut self.page, next))
    }

    /// Puts in a definition. After an error all is as before.
    pub fn define<T>(&mut self, definition: &MacroDefinition<'_, T>) -> Result<(), MacroError>
    where
        K: DocumentTables<T>,
        requires name { is_control (K.token self.old.tables definition.now.name.now).kind ≡ true }
        requires short { length definition.now.body.now ≤ 2 ^ 32 }
        ensures is { Answers result (K.macros self.new.tables) (define (K.macros self.old.tables)
            (control_name (K.token self.old.tables definition.now.name.now).kind) definition.now.params
            (map (K.token self.old.tables) definition.now.body.now)) }
        ensures others { state_of (state_view K.codes K.macros self.new)
            ≡ changes_macros (state_of (state_view K.codes K.macros self.old)) (K.macros self.new.tables) }
        ensures err { OnErr result (K.macros self.new.tables ≡ K.macros self.old.tables) }
        ensures tokens { K.token self.new.tables ≡ K.token self.old.tables }
        ensures names { K.names self.new.tables ≡ K.names self.old.tables }
        ensures ended { self.new.ended ≡ self.old.ended }
    {
        self.tables
            .define(definition.name, definition.params, definition.body)
    }

    /// Gives a character a math code, by the items after `\mathcode`, and hands out those after it.
    pub fn assign_math_code<'a, T>(&mut self, tokens: &'a [T]) -> Result<&'a [T], Fault>
    where
        K: DocumentTables<T>,
        ensures is { SetsTables (K.token self.new.tables) result (state_of (state_view K.codes K.macros self.old))
            (state_of (state_view K.codes K.macros self.new))
            (math_code_assignment (K.codes self.old.tables) (map (K.token self.old.tables) tokens.now)) }
        ensures err { OnErr result (K.codes self.new.tables ≡ K.codes self.old.tables) }
        ensures ended { self.new.ended ≡ self.old.ended }
        ensures names { K.names self.new.tables ≡ K.names self.old.tables }
        ensures falls { IfOk result (λ rest. length rest.now ≤ length tokens.now) }
    {
        assign_math_code(&mut self.tables, tokens)
    }

    /// Gives a character a delimiter code or none, by the items after `\delcode`, and hands out those after it.
    pub fn assign_delcode<'a, T>(&mut self, tokens: &'a [T]) -> Result<&'a [T], Fault>
    where
        K: DocumentTables<T>,
        ensures is { SetsTables (K.token self.new.tables) result (state_of (state_view K.codes K.macros self.old))
            (state_of (state_view K.codes K.macros self.new))
            (delcode_assignment (K.codes self.old.tables) (map (K.token self.old.tables) tokens.now)) }
        ensures err { OnErr result (K.codes self.new.tables ≡ K.codes self.old.tables) }
        ensures ended { self.new.ended ≡ self.old.ended }
        ensures names { K.names self.new.tables ≡ K.names self.old.tables }
        ensures falls { IfOk result (λ rest. length rest.now ≤ length tokens.now) }
    {
        assign_delcode(&mut self.tables, tokens)
    }

    /// Whether a formula in which each brace has its partner is read by its items as they are, since nothing in them is
    /// to be expanded.
    pub fn is_expanded<T>(&self, tokens: &[T]) -> bool
    where
        K: DocumentTables<T>,
        requires { first_unmatched 0 (map (K.token self.now.tables) tokens.now) ≡ None }
        ensures is { IsTrue result ↔ (expansion (K.macros self.now.tables) (map (K.token self.now.tables) tokens.now)
            ≡ Expanded (map (K.token self.now.tables) tokens.now)) }
        ensures short { IsTrue result → length tokens.now ≤ max_tokens }
    {
        matched_expands_to_itself(&self.tables, tokens)
    }

    /// Expands a formula in which each brace has its partner: the items are then those without macros.
    pub fn expand<T: Drop>(
        &self,
        items: &mut ExpandedItems<T>,
        tokens: &[T],
    ) -> Result<(), ExpandError>
    where
        K: DocumentTables<T>,
        requires { first_unmatched 0 (map (K.token self.now.tables) tokens.now) ≡ None }
        ensures is { ExpandsTo result (map (K.token self.now.tables) items.new.items.items)
            (expansion (K.macros self.now.tables) (map (K.token self.now.tables) tokens.now)) }
        ensures short { OnOk result (length items.new.items.items ≤ max_tokens) }
    {
        items.expand(&self.tables, tokens)
    }

    /// How many tokens all formulas have after expansion, with these.
    pub fn total_with<T>(&self, list: &[T]) -> u64
        requires total { self.now.total ≤ max_total_tokens }
        requires list { length list.now ≤ max_tokens }
        ensures { result ≡ self.now.total + length list.now }
    {
        self.total + list.len() as u64
    }

    /// Reads a formula by its items without macros and puts it on the page. All formulas have so many tokens then.
    ///
    /// # Errors
    ///
    /// Those of reading it. The document is of no more use after an error.
    pub fn add_formula<T>(
        &mut self,
        units: Units,
        display: bool,
        list: &[T],
        total: u64,
    ) -> Result<(), ReadError>
    where
        K: DocumentTables<T>,
        requires count { self.old.count < 2 ^ 32 - 1 }
        requires length { length list.now ≤ 2 ^ 31 }
        requires em { Within (2 ^ 31) units.em }
        requires ex { Within (2 ^ 31) units.ex }
        ensures is { AddsTo result (state_of (state_view K.codes K.macros self.old))
            (state_of (state_view K.codes K.macros self.new)) display total
            (reading (K.codes self.old.tables) units display (map (K.token self.old.tables) list.now)) }
        ensures ended { OnOk result (self.new.ended ≡ self.old.ended) }
        ensures tables { self.new.tables ≡ self.old.tables }
        ensures err { OnErr result (self.new.count ≡ self.old.count) }
    {
        let number = self.next_number();
        self.page.read(&self.tables, units, number, display, list)?;
        self.count = number;
        self.total = total;
        Ok(())
    }
}

impl DocumentState<Tables> {
    /// Reads more words of a source by the tables, which get their names. The answer is whether one was left.
    ///
    /// # Errors
    ///
    /// Those of [`WordSource::more`].
    pub fn read_more(&mut self, source: &mut WordSource<'_>) -> Result<bool, DocError>
        requires { (source_view source.old).passed + length (source_view source.old).words ≤ max_source }
        ensures is { OnOk result (ReadsMore self.old.tables.names self.new.tables.names
            (source_view source.old) (source_view source.new)) }
        ensures fault { IfErr result (λ e. IsFaultAhead e (source_view source.old).behind) }
        ensures some { IfOk result (λ some. IsTrue some
            → length (source_view source.old).words < length (source_view source.new).words) }
        ensures none { IfOk result (λ some. some ≡ false → IsLast (source_view source.old) (source_view source.new)) }
        ensures falls { IfOk result (λ some. IsTrue some
            → (source_view source.new).unread < (source_view source.old).unread) }
        ensures state { held_view self.new ≡ held_view self.old }
    {
        source.more(&mut self.tables)
    }
}
