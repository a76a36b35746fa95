//! Ranges of pages in the words of a command line.
ghost use Rattle.std.specs.Prelude.{◌≡◌, ◌≤◌, ◌<◌, ◌+◌, ◌^◌, ◌++◌, IfOk, IfSome, map, option_map};
ghost use Rattle.std.specs.List.{range_with_len};
ghost use Rattle.mt_words.specs.Limits.{max_page};
ghost use Rattle.mt_words.specs.Ranges.{downward, page_number, pages_in, pages_of_ranges, range_of};

use crate::number::decimal_between;
use std::alloc::{AllocError, Global};

/// The greatest number of a page in the words.
pub const MAX_PAGE: u32 = 65_535;

/// The first and the last page of a range, numbered from 1; the last may be below the first.
#[derive(Clone, Copy, Debug)]
pub struct PageRange {
    pub first: u32,
    pub last: u32,
}

fn page_number(word: &str) -> Option<u32>
    ensures is { result ≡ page_number word.now }
    ensures within { IfSome result (λ page. page ≤ max_page) }
{
    let page = decimal_between(1, u64::from(MAX_PAGE), word)?;
    Some(page as u32)
}

// The range that a word names: `A-B`, or a page alone.
fn range_of(word: &str) -> Option<PageRange>
    ensures is { result ≡ range_of word.now }
    ensures within { IfSome result (λ range. (range.first ≤ max_page) × (range.last ≤ max_page)) }
{
    match word.split_once('-') {
        Some((first, last)) => Some(PageRange {
            first: page_number(first)?,
            last: page_number(last)?,
        }),
        None => {
            let page = page_number(word)?;
            Some(PageRange {
                first: page,
                last: page,
            })
        }
    }
}

fn push_upward(pages: &mut Vec<u32>, first: u32, count: u32) -> Result<(), AllocError>
    requires { first + count < 2 ^ 32 }
    ensures { IfOk result (λ _. pages.new.items ≡ pages.old.items ++ range_with_len first count) }
{
    for step in 0..count {
        pages.push(first + step)?;
    }
    Ok(())
}

fn push_downward(pages: &mut Vec<u32>, first: u32, count: u32) -> Result<(), AllocError>
    requires { count ≤ first + 1 }
    ensures { IfOk result (λ _. pages.new.items ≡ pages.old.items ++ downward first count) }
{
    for step in 0..count {
        pages.push(first - step)?;
    }
    Ok(())
}

// Adds the pages of a range.
fn push_pages(pages: &mut Vec<u32>, range: PageRange) -> Result<(), AllocError>
    requires { (range.first ≤ max_page) × (range.last ≤ max_page) }
    ensures { IfOk result (λ _. pages.new.items ≡ pages.old.items ++ pages_in range) }
{
    if range.first <= range.last {
        push_upward(pages, range.first, range.last + 1 - range.first)
    } else {
        push_downward(pages, range.first, range.first + 1 - range.last)
    }
}

/// The pages of ranges, one after another. `None` where a word is no range.
///
/// # Errors
///
/// `AllocError` where memory ran out.
pub fn pages_of_ranges(alloc: Global, words: &[&str]) -> Result<Option<Vec<u32>>, AllocError>
    ensures { IfOk result (λ pages. option_map (λ p. p.items) pages
        ≡ pages_of_ranges (map (λ word. word.now) words.now)) }
{
    let mut pages = Vec::new(alloc);
    for word in words {
        let Some(range) = range_of(word) else {
            return Ok(None);
        };
        push_pages(&mut pages, range)?;
    }
    Ok(Some(pages))
}
