//! The definition of a macro in a source.
use crate::places::Definition;
use mt_scaled::Name;
use mt_token::Token;
use std::alloc::{AllocError, Global};

// Whether the tokens from a `\def` on define this name.
fn defines(definition: &[Token], name: &Name) -> bool {
    match definition {
        [_, named, ..] => named
            .kind
            .name()
            .is_some_and(|other| other.as_slice() == name.as_slice()),
        _ => false,
    }
}

// The `\def` of the last of these definitions that is of this name.
fn last_def<'a>(definitions: &[&'a [Token]], name: &Name) -> Option<&'a Token> {
    let mut found = None;
    for definition in definitions {
        if defines(*definition, name) {
            found = (*definition).first();
        }
    }
    found
}

/// The macro of this name, if there is one, that a source defines, by the tokens from each `\def` on, the last of which
/// counts; `None` where the source defines none.
///
/// # Errors
///
/// `AllocError` where memory ran out.
pub fn definition_of(
    alloc: Global,
    definitions: &[&[Token]],
    name: Option<&Name>,
) -> Result<Option<Definition>, AllocError> {
    let Some(name) = name else {
        return Ok(None);
    };
    match last_def(definitions, name) {
        Some(first) => Ok(Some(Definition {
            name: Name::from_slice(alloc, name.as_slice())?,
            offset: first.start as usize,
        })),
        None => Ok(None),
    }
}
