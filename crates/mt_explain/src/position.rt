//! Lines and columns of a text.
ghost use Rattle.std.specs.Prelude.{◌≡◌, ◌≤◌, ◌<◌, ◌+◌, ◌^◌, length, nat_eq};
ghost use Rattle.std.specs.List.{count_by, fold};
ghost use Rattle.mt_explain.specs.Positions.{before_feed, column_after, line_at, position_of};

/// Where a byte of a text is. Lines and columns count from 1, columns in bytes, so that a tab is one column.
#[derive(Clone, Copy, Debug, PartialEq, Eq)]
pub struct Position {
    /// The line.
    pub line: usize,
    /// The column.
    pub column: usize,
}

// The line of the byte after these.
fn line_behind(before: &[u8]) -> usize
    ensures { result ≡ 1 + count_by (nat_eq 10) before.now }
{
    let mut line = 1;
    for byte in before {
        if *byte == b'\n' {
            line += 1;
        }
    }
    line
}

// The column of the byte after these.
fn column_behind(before: &[u8]) -> usize
    ensures is { result ≡ fold column_after 1 before.now }
    ensures within { result ≤ length before.now + 1 }
    ensures first { 1 ≤ result }
{
    let mut column = 1;
    for byte in before {
        column = column_after(column, *byte);
    }
    column
}

fn column_after(column: usize, byte: u8) -> usize
    requires { column + 1 < 2 ^ 64 }
    ensures is { result ≡ column_after column byte }
    ensures within { result ≤ column + 1 }
    ensures first { 1 ≤ result }
{
    if byte == b'\n' { 1 } else { column + 1 }
}

// How many bytes are before the first line feed.
fn before_feed(rest: &[u8]) -> usize
    ensures is { result ≡ before_feed rest.now }
    ensures within { result ≤ length rest.now }
{
    let mut count = 0;
    for byte in rest {
        if *byte == b'\n' {
            return count;
        }
        count += 1;
    }
    count
}

/// Where the byte at an offset is. The offset may be that of the end, and then it is where a next byte would be.
pub fn position_at(text: &[u8], offset: usize) -> Position
    requires { offset ≤ length text.now }
    ensures is { result ≡ position_of text.now offset }
    ensures within { result.column ≤ offset + 1 }
    ensures first { 1 ≤ result.column }
{
    let before = &text[..offset];
    Position {
        line: line_behind(before),
        column: column_behind(before),
    }
}

/// The line in which the byte at an offset is, without its line feed. A line feed is in the line that it ends.
pub fn line_around(text: &[u8], offset: usize) -> &[u8]
    requires { offset ≤ length text.now }
    ensures is { result.now ≡ line_at text.now offset }
{
    let start = offset + 1 - column_behind(&text[..offset]);
    let end = offset + before_feed(&text[offset..]);
    &text[start..end]
}
