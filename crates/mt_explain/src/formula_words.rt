//! What is said of a token of a formula, in more words than its cause has.
use crate::group_words::group_words;
use crate::missing_words::{missing_delimiter_words, missing_group_words};
use crate::names::{is_unknown, push_unknown_name};
use crate::names_data::EMPTY_LINE;
use crate::text::{Text, text_of};
use crate::tokens::is_written;
use mt_locate::{FaultyFormula, Located};
use mt_macro::Traced;
use mt_reader::ReadError;
use std::alloc::Global;

// What is said of a second superscript or a second subscript.
fn script_text(script: &Traced) -> &'static [u8] {
    if is_written(&script.token, b"_") {
        b"double subscript"
    } else if is_written(&script.token, b"^") {
        b"double superscript"
    } else {
        b"double superscript: a prime is a superscript"
    }
}

/// What is said of the cause of a fault in a formula, where the tokens show more than the cause.
pub fn cause_words(
    alloc: Global,
    source: &[u8],
    formula: Option<&FaultyFormula>,
    cause: ReadError,
) -> Option<Text> {
    let formula = formula?;
    match cause {
        ReadError::DoubleScript(_) => {
            let script = formula.tokens.get(formula.index)?;
            Some(text_of(alloc, script_text(script)))
        }
        ReadError::BadDelimiter(_) => missing_delimiter_words(alloc, formula),
        ReadError::Unbalanced(_) => group_words(alloc, source, formula),
        ReadError::MissingField(_) => missing_group_words(alloc, formula),
        _ => None,
    }
}

// Whether the token at fault is an empty line of the source. It gives the name `par` (The TeXbook, chapter 8).
fn is_empty_line(source: &[u8], located: &Located, name: &[u8]) -> bool {
    let is_written_so = source.get(located.offset) == Some(&b'\\');
    name == b"par".as_slice() && located.definition.is_none() && !is_written_so
}

/// What is said of the name of the token at fault, where it means nothing in the formula.
pub fn name_words(alloc: Global, source: &[u8], located: &Located) -> Option<Text> {
    let formula = located.formula.as_ref()?;
    let name = located.token.as_ref()?.kind.name()?.as_slice();
    if is_empty_line(source, located, name) {
        return Some(text_of(alloc, EMPTY_LINE));
    }
    if !is_unknown(&formula.tables.codes, name) {
        return None;
    }
    let mut out = Text::new(alloc);
    push_unknown_name(alloc, &mut out, &formula.tables.macros, name);
    Some(out)
}
