//! What is said of a name that means nothing where it is.
use crate::names_data::{
    Advice, ELSEWHERE, IN_FORMULAS, NOT_HERE, OTHER_NAMES, OUTSIDE_FORMULAS, Replacement,
};
use crate::nearest::{Candidate, Nearest};
use crate::text::Text;
use mt_macro::Macros;
use mt_plain::{Codes, meaning_name};
use std::alloc::Global;

/// More than the number of names to which mt_plain gives a meaning.
const NAME_BOUND: usize = 512;

// Adds what to write in place of a name, and a definition of it.
fn push_replacement(out: &mut Text, known: &Replacement) {
    out.push_all(&[b" is not defined: write ", known.1]);
    if !known.2.is_empty() {
        out.push_all(&[b", or define ", known.2]);
    }
}

// The name of the macro of an index.
fn macro_name(macros: &Macros, index: usize) -> Option<Candidate<'_>> {
    let entry = macros.entry(index)?;
    Some(Candidate {
        name: entry.name.as_slice(),
        is_own: entry.meaning.own,
    })
}

// The name of an index that means something in a formula.
fn formula_name(index: usize) -> Option<Candidate<'static>> {
    let name = meaning_name(index)?;
    Some(Candidate {
        name,
        is_own: false,
    })
}

// The name of a macro that is nearest to another name.
fn nearest_macro<'a>(alloc: Global, macros: &'a Macros, wanted: &'a [u8]) -> Nearest<'a> {
    let mut nearest = Nearest::to(wanted);
    for index in 0..macros.len() {
        nearest = nearest.or(alloc, macro_name(macros, index));
    }
    nearest
}

// The nearest name to another one: a macro's, or one that means something in a formula.
fn nearest_name<'a>(alloc: Global, macros: &'a Macros, wanted: &'a [u8]) -> Option<&'a [u8]> {
    let mut nearest = nearest_macro(alloc, macros, wanted);
    for index in 0..NAME_BOUND {
        nearest = nearest.or(alloc, formula_name(index));
    }
    nearest.found()
}

// Adds the nearest name, where one is near.
fn push_nearest(alloc: Global, out: &mut Text, macros: &Macros, name: &[u8]) {
    if let Some(near) = nearest_name(alloc, macros, name) {
        out.push_all(&[b"; did you mean \\", near, b"?"]);
    }
}

// What can be written in place of a name.
fn replacement_of(name: &[u8]) -> Option<&'static Replacement> {
    IN_FORMULAS.iter().find(|known| known.0 == name)
}

// What is said of a name that is in this list.
fn advice_on(list: &[Advice], name: &[u8]) -> Option<&'static [u8]> {
    let advice = list.iter().find(|advice| advice.0 == name)?;
    Some(advice.1)
}

fn is_other_name(name: &[u8]) -> bool {
    OTHER_NAMES
        .split(|byte| *byte == b' ')
        .any(|other| other == name)
}

// What is said of a name that is allowed elsewhere, or that plain TeX has.
fn elsewhere(name: &[u8]) -> Option<&'static [u8]> {
    match advice_on(&ELSEWHERE, name) {
        None if is_other_name(name) => Some(NOT_HERE),
        advice => advice,
    }
}

// Adds what is said of a name for which nothing else can be written.
fn push_irreplaceable(alloc: Global, out: &mut Text, macros: &Macros, name: &[u8]) {
    match elsewhere(name) {
        Some(text) => out.push(text),
        None => {
            out.push(b" is not defined");
            push_nearest(alloc, out, macros, name);
        }
    }
}

/// Adds that a name means nothing in a formula, and what to write in its place, where it is known.
pub fn push_unknown_name(alloc: Global, out: &mut Text, macros: &Macros, name: &[u8]) {
    out.push_all(&[b"\\", name]);
    match replacement_of(name) {
        Some(known) => push_replacement(out, known),
        None => push_irreplaceable(alloc, out, macros, name),
    }
}

/// Whether a name means nothing in formulas, or nothing outside of `\vcenter`.
pub fn is_unknown(codes: &Codes, name: &[u8]) -> bool {
    advice_on(&ELSEWHERE, name).is_some() || codes.control(name).is_none()
}

/// Adds what is said of a name that is not allowed outside of formulas, where the list of such names has it.
pub fn push_name_outside(out: &mut Text, name: &[u8]) {
    if let Some(advice) = advice_on(&OUTSIDE_FORMULAS, name) {
        out.push(advice);
    }
}
