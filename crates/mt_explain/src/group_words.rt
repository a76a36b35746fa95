//! What is said of a group without its end, and of an end without its group.
use crate::place::place_at;
use crate::text::Text;
use crate::tokens::{is_written, push_token};
use mt_locate::FaultyFormula;
use mt_macro::Traced;
use mt_token::{Token, TokenKind};
use std::alloc::Global;

/// The two tokens of a group, as they are written.
#[derive(Clone, Copy)]
struct Partners {
    /// The one that opens the group.
    opening: &'static [u8],
    /// The one that ends it.
    end: &'static [u8],
}

/// The groups of formulas.
#[rattlefmt::skip]
static GROUPS: [Partners; 4] = [
    Partners { opening: b"{", end: b"}" },
    Partners { opening: b"$", end: b"$" },
    Partners { opening: b"\\left", end: b"\\right" },
    Partners { opening: b"\\root", end: b"\\of" },
];

// What ends the group that a token opens, where it opens one.
fn end_of(token: &Token) -> Option<&'static [u8]> {
    let group = GROUPS
        .iter()
        .find(|group| is_written(token, group.opening))?;
    Some(group.end)
}

// What opens the group in which alone a token is allowed, at its end or within it. There is none for a `$`, which also
// opens a group.
fn opening_of(token: &Token) -> Option<&'static [u8]> {
    if is_written(token, b"\\middle") {
        return Some(b"\\left");
    }
    let mut groups = GROUPS.iter().filter(|group| group.opening != group.end);
    let group = groups.find(|group| is_written(token, group.end))?;
    Some(group.opening)
}

// Whether a token ends the innermost of these groups.
fn ends_innermost(open: &[&Token], token: &Token) -> bool {
    match open.last().and_then(|last| end_of(last)) {
        Some(end) => is_written(token, end),
        None => false,
    }
}

// The tokens of the groups that are open after these tokens, the outermost first.
fn open_groups<'a>(alloc: Global, tokens: &'a [Traced]) -> Option<Vec<&'a Token>> {
    let mut open = Vec::new(alloc);
    for traced in tokens {
        if ends_innermost(open.as_slice(), &traced.token) {
            open.pop();
        } else if end_of(&traced.token).is_some() {
            open.push(&traced.token).ok()?;
        }
    }
    Some(open)
}

// Adds where a token is, or where the macro is called in whose body it is.
fn push_where(out: &mut Text, source: &[u8], token: &Token) {
    let Some(place) = place_at(source, token.start as usize) else {
        return;
    };
    out.push(b" at line ");
    out.push_number(place.position.line);
    out.push(b", column ");
    out.push_number(place.position.column)
}

// Adds that a group is still open at a token, or at the end where there is none.
fn push_still_open(out: &mut Text, source: &[u8], opening: &Token, token: Option<&Token>) {
    out.push_all(&[b"missing ", end_of(opening).unwrap_or(b"end")]);
    if let Some(token) = token {
        out.push(b" before ");
        push_token(out, token);
    }
    out.push(b": the ");
    push_token(out, opening);
    push_where(out, source, opening);
    out.push(b" is still open")
}

// Adds what is said of a token that ends no group.
fn push_no_group(out: &mut Text, token: &Token, is_display: bool) {
    match (&token.kind, opening_of(token)) {
        (_, Some(opening)) => {
            push_token(out, token);
            out.push_all(&[b" without ", opening])
        }
        (TokenKind::Char(b'#'), None) => { out.push(b"# is allowed only in the body of a \\def") }
        (TokenKind::Char(b'$'), None) if is_display => {
            out.push(b"a display ends with $$, not with one $")
        }
        (TokenKind::Char(b'$'), None) => out.push(b"$ is not allowed in a group"),
        (_, None) => {
            push_token(out, token);
            let tables = b" is allowed only in \\matrix, \\pmatrix, \\eqalign and similar commands";
            out.push(tables)
        }
    }
}

// Whether the innermost of these groups ought to end before a token.
fn must_end(open: &[&Token], token: &Token) -> bool {
    match (opening_of(token), &token.kind, open) {
        (Some(opening), _, _) => open.iter().any(|group| is_written(group, opening)),
        (None, TokenKind::Char(b'#' | b'$'), _) | (None, _, []) => false,
        (None, _, [.., last]) => !is_written(last, b"{"),
    }
}

/// What is said of the token of a formula that does not fit the groups that are open, or of its end.
pub fn group_words(alloc: Global, source: &[u8], formula: &FaultyFormula) -> Option<Text> {
    let tokens = formula.tokens.as_slice();
    let open = open_groups(alloc, tokens.get(..formula.index).unwrap_or(tokens))?;
    let mut out = Text::new(alloc);
    match (open.as_slice(), tokens.get(formula.index)) {
        ([.., last], None) => push_still_open(&mut out, source, *last, None),
        ([.., last], Some(traced)) if must_end(open.as_slice(), &traced.token) => {
            push_still_open(&mut out, source, *last, Some(&traced.token))
        }
        (_, Some(traced)) => push_no_group(&mut out, &traced.token, formula.is_display),
        ([], None) => return None,
    }
    Some(out)
}
