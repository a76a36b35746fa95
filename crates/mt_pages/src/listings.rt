//! Pages as a text.
ghost use Rattle.std.specs.Prelude.{◌≡◌, ◌++◌, ◌<◌, ◌-◌, ◌^◌, ◌∷◌, [], List, flat_map, IfOk, OnOk};
ghost use Rattle.mt_box.specs.declared.place.Place.{Place as PlaceFields};
ghost use Rattle.mt_pages.specs.Listing.{listing, page_text, place_line};
ghost use Rattle.mt_pages.specs.inner.Texts.{IsListingOf};

use crate::page_sink::PageSink;
use crate::text_line::{push_number, push_number_line};
use mt_box::{PageList, Place, PlaceList};
use mt_family::FontSet;
use mt_scaled::{Bytes, Items};
use std::alloc::{AllocError, Global};

fn push_glyph(out: &mut Vec<u8>, font: u16, code: u8, h: i64, v: i64) -> Result<(), AllocError>
    ensures { OnOk result
        (out.new.items ≡ out.old.items ++ place_line (Place.Glyph font code h v)) }
{
    out.push(b'g')?;
    push_number(out, font)?;
    push_number(out, code)?;
    push_number(out, h)?;
    push_number(out, v)?;
    out.push(b'\n')?;
    Ok(())
}

fn push_rule(out: &mut Vec<u8>, h: i64, v: i64, height: i64, width: i64) -> Result<(), AllocError>
    ensures { OnOk result
        (out.new.items ≡ out.old.items ++ place_line (Place.Rule h v height width)) }
{
    out.push(b'r')?;
    push_number(out, h)?;
    push_number(out, v)?;
    push_number(out, height)?;
    push_number(out, width)?;
    out.push(b'\n')?;
    Ok(())
}

fn push_place(out: &mut Vec<u8>, place: Place) -> Result<(), AllocError>
    ensures { OnOk result (out.new.items ≡ out.old.items ++ place_line place) }
{
    match place {
        Place::Glyph { font, code, h, v } => push_glyph(out, font, code, h, v),
        Place::Rule {
            h,
            v,
            height,
            width,
        } => push_rule(out, h, v, height, width),
    }
}

fn push_places(out: &mut Vec<u8>, page: &[Place]) -> Result<(), AllocError>
    ensures { OnOk result (out.new.items ≡ out.old.items ++ flat_map place_line page.now) }
{
    for place in page {
        push_place(out, *place)?;
    }
    Ok(())
}

fn push_page(out: &mut Vec<u8>, number: usize, page: &[Place]) -> Result<(), AllocError>
    ensures { OnOk result (out.new.items ≡ out.old.items ++ page_text number page.now) }
{
    push_number_line(out, b"page", number as u128)?;
    push_places(out, page)?;
    Ok(())
}

/// A listing to which pages are added.
#[derive(Drop)]
pub struct ListingText {
    out: Vec<u8>,
    pages: usize,
}

impl ListingText {
    /// Without pages.
    pub fn new(alloc: Global) -> ListingText
        ensures { IsListingOf [] result }
    {
        ListingText {
            out: Vec::new(alloc),
            pages: 0,
        }
    }

    /// Adds a page.
    pub fn add_page(&mut self, page: &[Place]) -> Result<(), AllocError>
        requires { self.old.pages < 2 ^ 64 - 1 }
        ensures { (pages : List (List PlaceFields)) → IsListingOf pages self.old
            → OnOk result (IsListingOf (pages ++ page.now ∷ []) self.new) }
    {
        self.pages += 1;
        push_page(&mut self.out, self.pages, page)
    }

    /// The listing of the pages.
    pub fn finish(self) -> Result<Bytes, AllocError>
        ensures { (pages : List (List PlaceFields)) → IsListingOf pages self
            → IfOk result (λ text. text ≡ listing pages) }
    {
        let mut out = self.out;
        push_number_line(&mut out, b"pages", self.pages as u128)?;
        Ok(Items::from_vec(out))
    }
}

impl PageSink for ListingText {
    ghost HasPages = { λ _ pages text. IsListingOf pages text };

    fn add(&mut self, _: &FontSet, page: PlaceList) -> Result<(), AllocError> {
        self.add_page(page.as_slice())
    }
}

/// The listing of pages: for each page its number, counted from 1, and a line for each of its places in order, and last
/// the number of pages.
///
/// The lines are `page N`, `g FONT CODE H V` for a glyph, `r H V HEIGHT WIDTH` for a rule and `pages N`. Numbers are
/// decimal; lengths are scaled points, h to the right and v downward. LF ends each line.
pub fn listing(alloc: Global, pages: &PageList) -> Result<Bytes, AllocError>
    ensures { IfOk result (λ text. text ≡ listing pages.now) }
{
    let pages = pages.as_slice();
    let mut text = ListingText::new(alloc);
    for page in pages {
        text.add_page(page.as_slice())?;
    }
    text.finish()
}
