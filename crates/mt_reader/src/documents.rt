//! Documents.
ghost use Rattle.std.specs.Prelude.{◌≡◌, ◌≤◌, ◌*◌, ◌^◌, ◌++◌, ◌∷◌, [], length, IfOk, List, OnOk, Some};
ghost use Rattle.mt_scaled.specs.Number.{Within};
ghost use Rattle.mt_token.specs.Tokens.{max_source};
ghost use Rattle.mt_token.specs.declared.token.Token.{Token as TokenFields};
ghost use Rattle.mt_token.specs.declared.token.TokenError.{TokenError as TokenErrorFields};
ghost use Rattle.mt_plain.specs.CodeTables.{plain_codes};
ghost use Rattle.mt_reader.specs.Documents.{document};
ghost use Rattle.mt_reader.specs.PageReading.{CanGoOn, IsReadOf, fault_ahead, left_to_read};
ghost use Rattle.mt_reader.specs.Sources.{plain_words, source_document};
ghost use Rattle.mt_reader.specs.SourceReading.{IsRefusedAt};
ghost use Rattle.mt_reader.specs.Refusals.{IsDocument};
ghost use Rattle.mt_reader.specs.Weights.{pages_weight, HaveFewItems, IsModestDocument};
ghost use Rattle.mt_reader.specs.Tags.{HaveTagsPlaced};
ghost use Rattle.mt_reader.specs.Limits.{max_document_pages};

use crate::document_error::DocError;
use crate::page_reader::PageReader;
use mt_rules::{Document, Page};
use mt_scaled::Units;
use mt_tables::Tables;
use mt_token::{MAX_SOURCE, TokenError};
use std::alloc::{AllocError, Global};

fn push_page(pages: &mut Vec<Page>, page: Page) -> Result<(), AllocError>
    ensures { OnOk result (pages.new.items ≡ pages.old.items ++ page ∷ []) }
{
    pages.push(page)?;
    Ok(())
}

// The pages of a reader that has handed out none.
fn read_pages(
    alloc: Global,
    units: Units,
    reader: &mut PageReader<'_>,
) -> Result<Document, DocError>
    requires em { Within (2 ^ 31) units.em }
    requires ex { Within (2 ^ 31) units.ex }
    requires more { CanGoOn reader.old }
    ensures is { (tokens : List TokenFields) → IsReadOf units tokens [] reader.old
        → IsDocument result (document units plain_codes plain_words tokens) }
    ensures fault { (cause : TokenErrorFields) → fault_ahead reader.old ≡ Some cause → IsRefusedAt cause result }
    ensures few { IfOk result (λ pages. 2 * pages_weight pages ≤ left_to_read reader.old) }
{
    let mut pages = Vec::new(alloc);
    while let Some(page) = reader.next_page(alloc, units)? {
        push_page(&mut pages, page.to_page(alloc)?)?;
    }
    Ok(Document::from_vec(pages))
}

// The document of a source that is not too long, by tables with plain TeX's codes and macros.
fn document_of(
    alloc: Global,
    units: Units,
    tables: Tables,
    bytes: &[u8],
) -> Result<Document, DocError>
    requires em { Within (2 ^ 31) units.em }
    requires ex { Within (2 ^ 31) units.ex }
    requires codes { tables.codes ≡ plain_codes }
    requires macros { tables.macros ≡ plain_words }
    requires bytes { length bytes.now ≤ max_source }
    ensures is { IsDocument result (source_document units bytes.now) }
    ensures few { IfOk result (λ pages. pages_weight pages ≤ 2 ^ 21) }
{
    let mut reader = PageReader::new(alloc, tables, bytes);
    read_pages(alloc, units, &mut reader)
}

/// The document of a source: its formulas, page by page, read with plain TeX's codes and macros and with those that the
/// source sets and defines before them (The TeXbook, chapters 20 and 24). A page without formulas is none. `units` are
/// what `em` and `ex` are, in scaled points. The formulas are together at most 2^21, each display counted twice,
/// and each has at most 200,000 items at all levels. There are at most 5,000 pages.
///
/// # Errors
///
/// The fault of a token, wherever it is; else the first fault in the order of the source. A formula is expanded, then
/// counted, then read. `OutOfMemory` where memory ran out, and no other error means that.
pub fn read_document(alloc: Global, units: Units, bytes: &[u8]) -> Result<Document, DocError>
    requires em { Within (2 ^ 31) units.em }
    requires ex { Within (2 ^ 31) units.ex }
    ensures is { IsDocument result (source_document units bytes.now) }
    ensures few { IfOk result (λ pages. pages_weight pages ≤ 2 ^ 21) }
    ensures items { IfOk result HaveFewItems }
    ensures pages { IfOk result (λ pages. length pages ≤ max_document_pages) }
    ensures modest { IfOk result IsModestDocument }
    ensures tags { IfOk result HaveTagsPlaced }
{
    if bytes.len() > MAX_SOURCE {
        return Err(DocError::Source(TokenError::TooLong));
    }
    document_of(alloc, units, Tables::plain(alloc)?, bytes)
}
