//! A file of chosen pages.
ghost use Rattle.std.specs.Prelude.{◌≡◌, ◌+◌, ◌<◌, ◌≤◌, ◌^◌, ◌++◌, ◌∷◌, [], All, IfErr, IfOk, List, OnOk, length, negsuc};
ghost use Rattle.std.specs.List.{filter, range_with_len};
ghost use Rattle.mt_dvi.specs.Encoded.{signed_bytes};
ghost use Rattle.mt_dvi.specs.Limits.{max_dvi_pages};
ghost use Rattle.mt_family.specs.SetValue.{IsSet};
ghost use Rattle.mt_dviops.specs.Copied.{copied_pages};
ghost use Rattle.mt_dviops.specs.Result.{definitions_bytes, last_bop, padding_bytes, page_bytes, pages_bytes, post_of, post_post_bytes};
ghost use Rattle.mt_dviops.specs.Source.{SourcePage};
ghost use Rattle.mt_dviops.specs.Refused.{IsAnswer};
ghost use Rattle.mt_dviops.specs.declared.error.OpError.TheVariants.{TooManyPages};
ghost use Rattle.mt_dviops.specs.inner.Shown.{AreShown, all_told, file_length, file_with_totals, has_selected, pointer_of, told};

use crate::error::OpError;
use crate::page::PageCopy;
use crate::selected::SelectedFonts;
use crate::totals::Totals;
use mt_dvi::opcode::{BOP, EOP, IDENTIFIER, PADDING, POST, POST_POST};
use mt_dvi::{DviBytes, MAX_DVI_PAGES, MAX_PLACES, encode};
use mt_dviread::MAX_DVI;
use mt_family::FontSet;
use mt_scaled::Items;
use std::alloc::{AllocError, Global};

// The bytes of a file beside its pages and its definitions and before its padding: pre, post and post_post.
const AROUND_PAGES: u64 = 50;

// Writes the offset of a bop, or -1.
fn push_pointer(out: &mut Vec<u8>, bop: Option<u32>) -> Result<(), AllocError>
    ensures { OnOk result (out.new.items ≡ out.old.items ++ signed_bytes (pointer_of bop)) }
{
    match bop {
        None => encode::four_bytes(out, u32::MAX),
        Some(at) => encode::four_bytes(out, at),
    }
}

// Writes a page, after one whose bop is at an offset, or the first one.
fn write_page(out: &mut Vec<u8>, last: Option<u32>, page: PageCopy<'_>) -> Result<(), AllocError>
    ensures { OnOk result (out.new.items ≡ out.old.items ++ page_bytes (pointer_of last) (told page.entry)) }
{
    out.push(BOP)?;
    out.extend_from_slice(page.counts)?;
    push_pointer(out, last)?;
    out.extend_from_slice(page.body)?;
    out.push(EOP)?;
    Ok(())
}

// Writes post: the offset of the last bop, the unit and the magnification, the greatest extents, the depth
// of the stack, and the number of pages.
fn write_post(
    out: &mut Vec<u8>,
    mag: i32,
    last: Option<u32>,
    totals: &Totals,
    pages: u16,
) -> Result<(), AllocError>
    ensures { OnOk result (out.new.items ≡ out.old.items
        ++ post_of mag (pointer_of last) totals.now.tallest totals.now.widest totals.now.depth pages) }
{
    out.push(POST)?;
    push_pointer(out, last)?;
    encode::scale(out, mag)?;
    encode::four_bytes(out, totals.tallest)?;
    encode::four_bytes(out, totals.widest)?;
    encode::two_bytes(out, totals.depth)?;
    encode::two_bytes(out, pages)?;
    Ok(())
}

// Writes post_post: the offset of post.
fn write_post_post(out: &mut Vec<u8>, post: u32) -> Result<(), AllocError>
    ensures { OnOk result (out.new.items ≡ out.old.items ++ post_post_bytes post) }
{
    out.push(POST_POST)?;
    encode::four_bytes(out, post)?;
    out.push(IDENTIFIER)?;
    Ok(())
}

// Four to seven bytes 223 at the end of a file of so many bytes.
fn padding(length: usize) -> &'static [u8]
    ensures { result.now ≡ padding_bytes length }
{
    match length % 4 {
        0 => &[PADDING; 4],
        1 => &[PADDING; 7],
        2 => &[PADDING; 6],
        _ => &[PADDING; 5],
    }
}

// Defines a font if it is selected.
fn define_selected(
    out: &mut Vec<u8>,
    fonts: &FontSet,
    selected: SelectedFonts,
    n: u16,
) -> Result<(), AllocError>
    requires there { n < length fonts.now.fonts }
    requires set { IsSet fonts.now }
    ensures is { OnOk result (out.new.items ≡ out.old.items
        ++ definitions_bytes fonts.now (filter (has_selected selected) (n ∷ []))) }
    ensures short { OnOk result (length out.new.items ≤ length out.old.items + 80) }
{
    if !selected.contains(n) {
        return Ok(());
    }
    encode::define(out, fonts, n)?;
    Ok(())
}

// The definitions of these fonts, in the order of the set.
fn definitions(
    alloc: Global,
    fonts: &FontSet,
    selected: SelectedFonts,
) -> Result<Vec<u8>, AllocError>
    ensures is { IfOk result (λ bytes. bytes.items ≡ definitions_bytes fonts.now
        (filter (has_selected selected) (range_with_len 0 (length fonts.now.fonts)))) }
    ensures short { IfOk result (λ bytes. length bytes.items ≤ 3840) }
    ensures set { IfOk result (λ bytes. IsSet fonts.now) }
{
    let mut out = Vec::new(alloc);
    let count = fonts.font_count() as u16;
    for n in 0..count {
        define_selected(&mut out, fonts, selected, n)?;
    }
    Ok(out)
}

// How long the file is.
fn file_length_of(definitions: usize, pages: u64) -> u64
    requires definitions { definitions ≤ 3840 }
    requires pages { pages < 2 ^ 62 }
    ensures { result ≡ file_length definitions pages }
{
    let length = AROUND_PAGES + 2 * definitions as u64 + pages;
    length + padding(length as usize).len() as u64
}

// Writes the pages; the offset of the last bop, if there is one.
fn write_pages(out: &mut Vec<u8>, pages: &[PageCopy<'_>]) -> Result<Option<u32>, AllocError>
    requires { length out.old.items
        + length (pages_bytes (length out.old.items) (negsuc 0) (all_told pages.now)) < 2 ^ 32 }
    ensures pages { OnOk result (out.new.items ≡ out.old.items
        ++ pages_bytes (length out.old.items) (negsuc 0) (all_told pages.now)) }
    ensures last { IfOk result (λ last. pointer_of last
        ≡ last_bop (length out.old.items) (negsuc 0) (all_told pages.now)) }
{
    let mut last = None;
    let mut rest = pages;
    while let [page, later @ ..] = rest {
        let at = out.len() as u32;
        write_page(out, last, *page)?;
        last = Some(at);
        rest = later;
    }
    Ok(last)
}

// Writes the file, which has so many bytes.
fn write_file(
    alloc: Global,
    mag: i32,
    definitions: &[u8],
    totals: &Totals,
    pages: &[PageCopy<'_>],
    size: usize,
) -> Result<DviBytes, AllocError>
    requires few { length pages.now ≤ max_dvi_pages }
    requires short { length (file_with_totals mag definitions.now totals.now (all_told pages.now)) < 2 ^ 31 }
    ensures { IfOk result (λ bytes. bytes ≡ file_with_totals mag definitions.now totals.now (all_told pages.now)) }
{
    let mut out = Vec::with_capacity(alloc, size)?;
    encode::pre(&mut out, mag)?;
    out.extend_from_slice(definitions)?;
    let last = write_pages(&mut out, pages)?;
    let post = out.len() as u32;
    write_post(&mut out, mag, last, totals, pages.len() as u16)?;
    out.extend_from_slice(definitions)?;
    write_post_post(&mut out, post)?;
    let end = padding(out.len());
    out.extend_from_slice(end)?;
    Ok(Items::from_vec(out))
}

/// Refuses more than 65,535 pages.
pub fn test_page_count(count: usize) -> Result<(), OpError>
    ensures few { OnOk result (count ≤ max_dvi_pages) }
    ensures refused { IfErr result (λ error. (error ≡ TooManyPages count) × (max_dvi_pages < count)) }
{
    if count > MAX_DVI_PAGES {
        return Err(OpError::TooManyPages(count as u64));
    }
    Ok(())
}

/// The file of at most 65,535 pages, each shorter than 2^32 bytes, or why there is none.
pub fn write_copied(
    alloc: Global,
    fonts: &FontSet,
    mag: i32,
    pages: &[PageCopy<'_>],
) -> Result<DviBytes, OpError>
    requires few { length pages.now ≤ max_dvi_pages }
    requires short { All (λ page. length page.body.now < 2 ^ 32) pages.now }
    requires counts { All (λ page. length page.counts.now ≡ 40) pages.now }
    ensures is { (shown : List SourcePage) → AreShown fonts.now pages.now shown
        → IsAnswer result (copied_pages fonts.now mag shown) }
    ensures set { IfOk result (λ bytes. IsSet fonts.now) }
{
    let totals = Totals::of(pages);
    if totals.places > MAX_PLACES {
        return Err(OpError::TooManyPlaces(totals.places));
    }
    let definitions = definitions(alloc, fonts, totals.fonts)?;
    let length = file_length_of(definitions.len(), totals.bytes);
    if length > MAX_DVI {
        return Err(OpError::TooLong(length));
    }
    let size = length as usize;
    let bytes = write_file(alloc, mag, &definitions, &totals, pages, size)?;
    Ok(bytes)
}
