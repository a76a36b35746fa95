//! What is said of a fault at its place in a source.
use crate::formula_words::{cause_words, name_words};
use crate::names::push_name_outside;
use crate::names_data::SPACE;
use crate::refusal::Refusal;
use crate::text::{Text, text_of};
use mt_locate::Located;
use mt_reader::{DocError, OutsideCause, ReadError};

// Adds these words about a formula, or the explanation where there are none.
fn push_formula(out: &mut Text, run: Refusal<'_>, n: u32, words: Option<Text>) {
    let Some(words) = words else {
        return out.push_explanation(run.alloc, run.status);
    };
    out.push(b"formula ");
    out.push_number(n);
    out.push(b": ");
    out.push_text(&words);
}

// Adds what to write for a space, where one is written in a way that is not allowed.
fn push_space(out: &mut Text, rest: &[u8]) {
    match rest {
        [b'~', ..] | [b'\\', b' ' | b'\t' | b'\n' | b'\r', ..] => out.push(SPACE),
        _ => {}
    }
}

// What is said of a formula without its end, by the text from the brace or the dollar that has no counterpart.
fn unmatched_text(rest: &[u8]) -> &'static [u8] {
    match rest {
        [b'}', ..] => b"this } has no matching {",
        [b'{', ..] => b"this { has no matching }",
        [b'$', b'$', ..] => b"this $$ has no matching $$",
        _ => b"this $ has no matching $",
    }
}

// Adds what is said of a token outside of formulas, of which the text begins so.
fn push_outside(
    out: &mut Text,
    run: Refusal<'_>,
    n: u32,
    cause: OutsideCause,
    located: &Located,
    rest: &[u8],
) {
    match cause {
        OutsideCause::OpenFormula => {
            let text = text_of(run.alloc, unmatched_text(rest));
            push_formula(out, run, n, Some(text))
        }
        OutsideCause::Misplaced => {
            out.push_explanation(run.alloc, run.status);
            if let Some(name) = located.token.as_ref().and_then(|token| token.kind.name()) {
                push_name_outside(out, name.as_slice());
            }
        }
        _ => out.push_explanation(run.alloc, run.status),
    }
}

// Adds what is said of a token of a formula: of its cause, and of its name, where that means nothing.
fn push_read(
    out: &mut Text,
    run: Refusal<'_>,
    n: u32,
    cause: ReadError,
    source: &[u8],
    located: &Located,
) {
    let name = name_words(run.alloc, source, located);
    if let ReadError::UnknownName(_) = cause {
        return push_formula(out, run, n, name);
    }
    let words = cause_words(run.alloc, source, located.formula.as_ref(), cause);
    push_formula(out, run, n, words);
    if let Some(name) = name {
        out.push(b": ");
        out.push_text(&name);
    }
}

/// Adds what is said of a fault at its place in a source: what the status means, or more, as the token there shows it.
pub fn push_words(out: &mut Text, run: Refusal<'_>, source: &[u8], located: &Located) {
    let rest = source.get(located.offset..).unwrap_or(&[]);
    match located.fault {
        Some(DocError::Source(_)) => {
            out.push_explanation(run.alloc, run.status);
            push_space(out, rest)
        }
        Some(DocError::Outside { n, cause, .. }) => push_outside(out, run, n, cause, located, rest),
        Some(DocError::Read { n, cause }) => push_read(out, run, n, cause, source, located),
        Some(DocError::Expand { .. })
        | Some(DocError::Total { .. })
        | Some(DocError::Pages(_))
        | Some(DocError::OutOfMemory)
        | None => out.push_explanation(run.alloc, run.status),
    }
}
