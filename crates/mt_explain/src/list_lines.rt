//! What is said of a font list with a fault.
ghost use Rattle.std.specs.Prelude.{◌≡◌};

use crate::excerpt::push_line;
use crate::files::{LIST_HEAD, fetched};
use crate::refusal::Refusal;
use crate::text::{Text, Unsaid};
use crate::window::shown_columns;
use mt_family::MAX_LIST_BYTES;
use mt_outside::Cabinet;
use std::alloc::Global;

/// A line of a font list.
#[derive(Clone, Copy)]
pub struct ListLine<'a> {
    /// Its number, counted from 1.
    pub number: usize,
    /// Its bytes without its line feed.
    pub text: &'a [u8],
}

/// The line of a number, counted from 1.
pub fn line_of(list: &[u8], number: usize) -> Option<ListLine<'_>> {
    let mut lines = list.split(|byte| *byte == b'\n');
    let text = lines.nth(number.saturating_sub(1))?;
    Some(ListLine { number, text })
}

/// Adds the lines for a line of a font list: what the status means, with a hint after it, and the first 120 columns of
/// the line.
pub fn push_list_line(
    out: &mut Text,
    run: Refusal<'_>,
    list: &str,
    line: ListLine<'_>,
    hint: &[&[u8]],
) {
    out.push_all(&[list.as_bytes(), b":"]);
    out.push_number(line.number);
    out.push(b": ");
    out.push_explanation(run.alloc, run.status);
    out.push_all(hint);
    out.push(b"\n");
    let columns = shown_columns(line.text.len(), 1);
    push_line(out, line.number, &line.text[..columns.count])
}

// Whether a file can be read and begins as a font list.
fn is_list<C: Cabinet>(alloc: Global, file: &str, cabinet: &mut C) -> bool
    ensures holds { C.holds cabinet.new ≡ C.holds cabinet.old }
{
    match fetched(alloc, cabinet, file, MAX_LIST_BYTES) {
        Ok(bytes) => bytes.as_slice().starts_with(LIST_HEAD),
        Err(Unsaid) => false,
    }
}

/// Adds the lines for a fault in a line of the font list, counted from 1. `other` is the source or the first DVI file
/// beside the list.
pub fn explain_list<C: Cabinet>(
    out: &mut Text,
    run: Refusal<'_>,
    list: &str,
    number: u32,
    other: &str,
    cabinet: &mut C,
) -> Result<(), Unsaid>
    ensures holds { C.holds cabinet.new ≡ C.holds cabinet.old }
{
    let bytes = fetched(run.alloc, cabinet, list, MAX_LIST_BYTES)?;
    let line = line_of(bytes.as_slice(), number as usize).ok_or(Unsaid)?;
    let is_exchanged = !bytes.as_slice().starts_with(LIST_HEAD)
        && is_list(run.alloc, other, cabinet);
    match line.text {
        _ if is_exchanged => {
            let exchanged = b" begins as a font list; are the two files exchanged?";
            push_list_line(out, run, list, line, &[b": ", other.as_bytes(), exchanged]);
        }
        [.., b'\r'] => {
            let ending = b": the line ends with CR and LF, and must end with LF";
            push_list_line(out, run, list, line, &[ending]);
        }
        _ => push_list_line(out, run, list, line, &[]),
    }
    Ok(())
}
