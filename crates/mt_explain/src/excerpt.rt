//! A line of a file, and a mark under a column of it.
ghost use Rattle.mt_explain.specs.Places.{IsPlaceIn};

use crate::place::Place;
use crate::position::line_around;
use crate::text::Text;
use crate::window::shown_columns;
use itoa::Buffer;

/// The columns in which the number of a line is, to the right.
const NUMBER_COLUMNS: usize = 5;

/// What is between these columns and the line.
const BAR: &[u8] = b" | ";

// A byte as it is shown: a tab as a blank, and one that is not printable ASCII as `?`.
fn shown(byte: u8) -> u8 {
    if byte.is_ascii_graphic() {
        byte
    } else if byte == b' ' || byte == b'\t' {
        b' '
    } else {
        b'?'
    }
}

fn push_shown(out: &mut Text, bytes: &[u8]) {
    for byte in bytes {
        out.push(&[shown(*byte)]);
    }
}

// A line without the CR that ends it with a line feed.
fn without_return(line: &[u8]) -> &[u8] {
    match line {
        [front @ .., b'\r'] => front,
        _ => line,
    }
}

fn push_line_number(out: &mut Text, line: usize) {
    let mut buffer = Buffer::new();
    let digits = buffer.format(line).as_bytes();
    out.push_repeated(b' ', NUMBER_COLUMNS.saturating_sub(digits.len()));
    out.push_all(&[digits, BAR]);
}

/// Adds a line of a file with its number.
pub fn push_line(out: &mut Text, number: usize, line: &[u8]) {
    push_line_number(out, number);
    push_shown(out, line);
    out.push(b"\n");
}

/// Adds the line of a place with its number, and under it a mark below the place. Of a line longer than 120 columns
/// the part is shown that `shown_columns` gives.
pub fn push_excerpt(out: &mut Text, source: &[u8], place: Place)
    requires { IsPlaceIn source.now place }
{
    let line = without_return(line_around(source, place.offset));
    let columns = shown_columns(line.len(), place.position.column);
    let end = columns.before + columns.count;
    push_line(out, place.position.line, &line[columns.before..end]);
    out.push_repeated(b' ', NUMBER_COLUMNS);
    out.push(BAR);
    out.push_repeated(b' ', place.position.column - 1 - columns.before);
    out.push(b"^\n");
}

/// Adds FILE:LINE:COLUMN.
pub fn push_place(out: &mut Text, file: &str, place: Place) {
    out.push_all(&[file.as_bytes(), b":"]);
    out.push_number(place.position.line);
    out.push(b":");
    out.push_number(place.position.column);
}
