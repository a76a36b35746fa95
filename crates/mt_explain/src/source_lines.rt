//! What is said of a source with a fault.
ghost use Rattle.std.specs.Prelude.{◌≡◌};

use crate::excerpt::{push_excerpt, push_place};
use crate::family_lines::push_family_lines;
use crate::files::{ReadList, fetched, fetched_list};
use crate::fonts::push_family;
use crate::place::place_at;
use crate::refusal::Refusal;
use crate::source_words::push_words;
use crate::text::{Text, Unsaid};
use mt_locate::{Definition, Located, locate};
use mt_outside::Cabinet;
use mt_status::NamedFamily;
use mt_token::MAX_SOURCE;

// Adds where the macro is defined in whose expansion the fault is found.
fn push_definition(
    out: &mut Text,
    file: &str,
    source: &[u8],
    definition: &Definition,
) -> Result<(), Unsaid> {
    let place = place_at(source, definition.offset).ok_or(Unsaid)?;
    let name = definition.name.as_slice();
    out.push_all(&[b"in the expansion of \\", name, b", defined at "]);
    push_place(out, file, place);
    out.push(b"\n");
    Ok(())
}

// Adds what is said of a fault at this place of a source, whose bytes are these, and the line of the source.
fn push_located(
    out: &mut Text,
    run: Refusal<'_>,
    file: &str,
    source: &[u8],
    located: &Located,
    family: Option<(&ReadList, NamedFamily)>,
) -> Result<(), Unsaid> {
    let place = place_at(source, located.offset).ok_or(Unsaid)?;
    push_place(out, file, place);
    out.push(b": ");
    push_words(out, run, source, located);
    if let Some((list, named)) = family {
        push_family(out, &list.list, named);
    }
    out.push(b"\n");
    if let Some(definition) = &located.definition {
        push_definition(out, file, source, definition)?;
    }
    push_excerpt(out, source, place);
    Ok(())
}

// Adds the lines for a fault in a source, whose bytes are these.
fn push_source(
    out: &mut Text,
    run: Refusal<'_>,
    file: &str,
    source: &[u8],
    family: Option<(&ReadList, NamedFamily)>,
) -> Result<(), Unsaid> {
    match locate(run.alloc, source, run.status, run.notes)? {
        Some(located) => push_located(out, run, file, source, &located, family),
        None => Err(Unsaid),
    }
}

/// Adds the lines for a fault in the source of this name. `named` is the family of the list that the status names; where
/// the list cannot be fetched, it is left out.
pub fn explain_source<C: Cabinet>(
    out: &mut Text,
    run: Refusal<'_>,
    list: &str,
    file: &str,
    named: Option<NamedFamily>,
    cabinet: &mut C,
) -> Result<(), Unsaid>
    ensures holds { C.holds cabinet.new ≡ C.holds cabinet.old }
{
    let source = fetched(run.alloc, cabinet, file, MAX_SOURCE as u64)?;
    let Some(named) = named else {
        return push_source(out, run, file, source.as_slice(), None);
    };
    match fetched_list(run.alloc, cabinet, list) {
        Ok(read) => {
            push_source(out, run, file, source.as_slice(), Some((&read, named)))?;
            push_family_lines(run.alloc, out, list, &read, named.family)
        }
        Err(Unsaid) => push_source(out, run, file, source.as_slice(), None),
    }
}
