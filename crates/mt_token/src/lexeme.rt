//! The lexeme in front of a rest of a source: bytes without a token, a token, or a fault.
ghost use Rattle.std.specs.Prelude.{◌≡◌, ◌<◌, ◌≤◌, ◌+◌, ◌==◌, length};
ghost use Rattle.mt_token.specs.Lexemes.{is_letter, is_visible, line_end, letters, comment};
ghost use Rattle.mt_token.specs.Lexemes.{lexeme, lexeme_after_escape, Fits};
ghost use Rattle.mt_token.specs.Lent.{owned_lexeme};

use crate::lent::LentKind;
use crate::token::ByteCause;

/// The state in which a line is read (The TeXbook, chapter 8).
#[derive(Clone, Copy, Debug, PartialEq, Eq)]
pub enum State {
    /// State N: at the beginning of a line, where blanks are skipped and the line's end is a
    /// `\par`.
    New,
    /// State M: in the middle of a line.
    Middle,
    /// State S: after a blank or a control word, where blanks are skipped.
    Skip,
}

/// What is in front of a rest of the source.
#[derive(Clone, Copy, Debug)]
pub enum LentLexeme<'a> {
    /// So many bytes that give no token, and the state after them.
    Passed(usize, State),
    /// A token, its number of bytes, and the state after it.
    Made(LentKind<'a>, usize, State),
    /// A byte that is not allowed there, so many bytes on.
    AtFault(ByteCause, usize),
}

fn is_letter(b: u8) -> bool
    ensures { result ≡ is_letter b }
{
    b.is_ascii_alphabetic()
}

fn is_visible(b: u8) -> bool
    ensures { result ≡ is_visible b }
{
    b.is_ascii_graphic()
}

// How many letters are in front.
fn letters(rest: &[u8]) -> usize
    ensures is { result ≡ letters rest.now }
    ensures within { result ≤ length rest.now }
{
    let mut count = 0;
    for b in rest {
        if !is_letter(*b) {
            return count;
        }
        count += 1;
    }
    count
}

// How many bytes the line has up to and with its LF, or all that are left.
fn comment(rest: &[u8]) -> usize
    ensures is { result ≡ comment rest.now }
    ensures within { result ≤ length rest.now }
{
    let mut count = 0;
    for b in rest {
        if *b == b'\n' {
            return count + 1;
        }
        count += 1;
    }
    count
}

// How many bytes the line end in front has, 0 where there is none.
fn line_end(rest: &[u8]) -> usize
    ensures is { result ≡ line_end rest.now }
    ensures within { result ≤ length rest.now }
{
    match rest {
        [b'\n', ..] => 1,
        [b'\r', b'\n', ..] => 2,
        _ => 0,
    }
}

// The lexeme at a `\`, by what follows it.
fn lexeme_after_escape<'a>(after: &'a [u8]) -> LentLexeme<'a>
    ensures is { owned_lexeme result ≡ lexeme_after_escape after.now }
    ensures fits { Fits (length after.now + 1) (owned_lexeme result) }
{
    let count = letters(after);
    if count > 0 {
        return LentLexeme::Made(LentKind::Control(&after[..count]), count + 1, State::Skip);
    }
    if line_end(after) > 0 {
        return LentLexeme::AtFault(ByteCause::BadByte, 0);
    }
    match after {
        [] | [b'\t' | b' ', ..] => LentLexeme::AtFault(ByteCause::BadByte, 0),
        [b, ..] if is_visible(*b) => LentLexeme::Made(
            LentKind::Control(&after[..1]),
            2,
            State::Middle,
        ),
        [b, ..] if *b > 127 => LentLexeme::AtFault(ByteCause::NotAscii, 1),
        _ => LentLexeme::AtFault(ByteCause::BadByte, 1),
    }
}

/// The lexeme in front of a rest that is not empty.
#[inline(always)]
pub fn next_lexeme<'a>(state: State, rest: &'a [u8]) -> LentLexeme<'a>
    requires { 0 < length rest.now }
    ensures is { owned_lexeme result ≡ lexeme state rest.now }
    ensures fits { Fits (length rest.now) (owned_lexeme result) }
{
    let end = line_end(rest);
    if end > 0 {
        return match state {
            State::New => LentLexeme::Made(LentKind::Control(b"par"), end, State::New),
            State::Middle => LentLexeme::Made(LentKind::Space, end, State::New),
            State::Skip => LentLexeme::Passed(end, State::New),
        };
    }
    match rest {
        [b'\t' | b' ', ..] => match state {
            State::Middle => LentLexeme::Made(LentKind::Space, 1, State::Skip),
            other => LentLexeme::Passed(1, other),
        },
        [b'%', after @ ..] => LentLexeme::Passed(1 + comment(after), State::New),
        [b'\\', after @ ..] => lexeme_after_escape(after),
        [b'^', b'^', ..] => LentLexeme::AtFault(ByteCause::BadByte, 1),
        [b'~', ..] => LentLexeme::AtFault(ByteCause::BadByte, 0),
        [b, ..] if is_visible(*b) => LentLexeme::Made(LentKind::Char(*b), 1, State::Middle),
        [b, ..] if *b > 127 => LentLexeme::AtFault(ByteCause::NotAscii, 0),
        _ => LentLexeme::AtFault(ByteCause::BadByte, 0),
    }
}
