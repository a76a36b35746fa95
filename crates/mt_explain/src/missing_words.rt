//! What is missing in a formula, and after which command.
use crate::text::Text;
use crate::tokens::{is_written, push_token};
use Wants::{Delimiter, Field, Group};
use mt_locate::FaultyFormula;
use mt_macro::{Macros, Traced};
use mt_token::{TokenKind, is_space};
use std::alloc::Global;

/// What has to follow a command.
#[derive(Clone, Copy, Debug, PartialEq, Eq)]
enum Wants {
    /// A character or a group.
    Field,
    /// A group.
    Group,
    /// A delimiter.
    Delimiter,
}

/// Commands, and what has to follow them.
#[rattlefmt::skip]
static COMMANDS: [(&[u8], Wants); 45] = [
    (b"mathord", Field), (b"mathop", Field), (b"mathbin", Field), (b"mathrel", Field), (b"mathopen", Field),
    (b"mathclose", Field), (b"mathpunct", Field), (b"mathinner", Field), (b"overline", Field), (b"underline", Field),
    (b"phantom", Field), (b"hphantom", Field), (b"vphantom", Field), (b"smash", Field), (b"of", Field),
    (b"radical", Field), (b"mathaccent", Field), (b"vcenter", Group), (b"hbox", Group), (b"mathchoice", Group),
    (b"matrix", Group), (b"pmatrix", Group), (b"eqalign", Group), (b"left", Delimiter), (b"middle", Delimiter),
    (b"right", Delimiter), (b"overwithdelims", Delimiter), (b"atopwithdelims", Delimiter),
    (b"abovewithdelims", Delimiter), (b"big", Delimiter), (b"bigl", Delimiter), (b"bigm", Delimiter),
    (b"bigr", Delimiter), (b"Big", Delimiter), (b"Bigl", Delimiter), (b"Bigm", Delimiter), (b"Bigr", Delimiter),
    (b"bigg", Delimiter), (b"biggl", Delimiter), (b"biggm", Delimiter), (b"biggr", Delimiter), (b"Bigg", Delimiter),
    (b"Biggl", Delimiter), (b"Biggm", Delimiter), (b"Biggr", Delimiter),
];

// What has to follow a token.
fn wanted_behind(traced: &Traced) -> Option<Wants> {
    let name = traced.token.kind.name()?.as_slice();
    let row = COMMANDS.iter().find(|row| row.0 == name)?;
    Some(row.1)
}

// The tokens before the one at fault, without the Spaces at their end.
fn tokens_before(formula: &FaultyFormula) -> &[Traced] {
    let tokens = formula.tokens.as_slice();
    let before = tokens.get(..formula.index).unwrap_or(tokens);
    match before.iter().rposition(|traced| !is_space(&traced.token)) {
        Some(last) => before.get(..=last).unwrap_or(before),
        None => &[],
    }
}

// Whether a token may be part of a hexadecimal number, or is a space.
fn is_digit(traced: &Traced) -> bool {
    match &traced.token.kind {
        TokenKind::Char(code) => code.is_ascii_hexdigit() || *code == b'"',
        TokenKind::Space => true,
        TokenKind::Control(_) => false,
    }
}

// Whether a token is one of the body of a macro of plain TeX's.
fn is_of_plain(macros: &Macros, traced: &Traced) -> bool {
    match traced.body.and_then(|number| macros.entry(number)) {
        Some(entry) => !entry.meaning.own,
        None => false,
    }
}

// Adds a command as the source has it: one in the body of a macro of plain TeX's by what the macro is for.
fn push_command(out: &mut Text, macros: &Macros, traced: &Traced) {
    if is_of_plain(macros, traced) && is_written(&traced.token, b"\\radical") {
        out.push(b"\\sqrt")
    } else if is_of_plain(macros, traced) && is_written(&traced.token, b"\\mathaccent") {
        out.push(b"the accent")
    } else {
        push_token(out, &traced.token)
    }
}

// What is missing after a token and the one before it, where these two show it.
fn missing_text(before: Option<&Traced>, last: &Traced) -> Option<&'static [u8]> {
    let is_behind = |text| before.is_some_and(|word| is_written(&word.token, text));
    if is_written(&last.token, b"^") {
        Some(b"missing superscript after ^")
    } else if is_written(&last.token, b"_") {
        Some(b"missing subscript after _")
    } else if is_written(&last.token, b"{") && is_behind(b"\\vcenter") {
        Some(b"missing \\hbox{$..$} in \\vcenter")
    } else if is_written(&last.token, b"{") && is_behind(b"\\hbox") {
        Some(b"missing $ in \\hbox: write \\hbox{$..$}")
    } else if is_written(&last.token, b"$") {
        Some(b"missing } of \\hbox after $")
    } else if is_written(&last.token, b"}") {
        Some(b"missing group: \\mathchoice has four, and \\vcenter has \\hbox{$..$} alone")
    } else {
        None
    }
}

// Adds that a character or a group is missing after a command; whether there is one.
fn push_missing_field(out: &mut Text, macros: &Macros, before: &[Traced]) -> bool {
    let Some(command) = before.iter().rfind(|traced| !is_digit(traced)) else {
        return false;
    };
    match wanted_behind(command) {
        Some(Field) => out.push(b"missing character or group after "),
        Some(Group) => out.push(b"missing { after "),
        Some(Delimiter) | None => return false,
    }
    push_command(out, macros, command);
    true
}

// Whether a token begins what has to be in a group where a character or a group is wanted.
fn needs_group(traced: &Traced) -> bool {
    match wanted_behind(traced) {
        Some(Field) => !is_written(&traced.token, b"\\of"),
        Some(Group) => !is_written(&traced.token, b"\\hbox"),
        Some(Delimiter) | None => false,
    }
}

/// What is said where a character, a group or a row is missing at a token of a formula.
pub fn missing_group_words(alloc: Global, formula: &FaultyFormula) -> Option<Text> {
    let macros = &formula.tables.macros;
    let mut out = Text::new(alloc);
    let before = tokens_before(formula);
    let text = match before {
        [.., word, last] => missing_text(Some(word), last),
        [last] => missing_text(None, last),
        [] => None,
    };
    if let Some(text) = text {
        out.push(text);
    } else if !push_missing_field(&mut out, macros, before) {
        return None;
    }
    match formula.tokens.get(formula.index) {
        Some(traced) if needs_group(traced) => {
            out.push(b": put { } around ");
            push_command(&mut out, macros, traced);
            out.push(b" and what follows it");
        }
        _ => {}
    }
    Some(out)
}

/// What is said where a delimiter is missing at a token of a formula.
pub fn missing_delimiter_words(alloc: Global, formula: &FaultyFormula) -> Option<Text> {
    let last = tokens_before(formula).last()?;
    match wanted_behind(last) {
        Some(Delimiter) => {
            let mut out = Text::new(alloc);
            out.push(b"missing delimiter after ");
            push_token(&mut out, &last.token);
            Some(out)
        }
        Some(Field) | Some(Group) | None => None,
    }
}
