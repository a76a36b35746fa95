//! Assignments of codes (The TeXbook, chapter 17).
ghost use Rattle.std.specs.Prelude.{◌≡◌, ◌≤◌, length, map, true, IfOk, OnErr};
ghost use Rattle.mt_token.specs.declared.token.Token.{Token as TokenFields};
ghost use Rattle.mt_plain.specs.CodeTables.{is_delcode};
ghost use Rattle.mt_reader.specs.Assignments.{after_equals, code_or_none, delimiter_value};
ghost use Rattle.mt_reader.specs.Assignments.{math_code_assignment, delcode_assignment};
ghost use Rattle.mt_reader.specs.Lent.{Assigns};
ghost use Rattle.mt_scan.specs.Meets.{MeetsBy};

use crate::document_tables::DocumentTables;
use mt_plain::{MAX_DELIMITER_CODE, MAX_MATH_CODE};
use mt_scan::items::{after_spaces, number_to, whole_number};
use mt_scan::{Fault, ReadCause, Scanned};
use mt_token::Lexicon;

/// The greatest character.
const MAX_CHARACTER: u32 = 127;

// The tokens after `=` and Spaces, where there is one.
fn after_equals<'a, T, L: Lexicon<T>>(tables: &L, tokens: &'a [T]) -> &'a [T]
    ensures is { map (L.token tables.now) result.now ≡ after_equals (map (L.token tables.now) tokens.now) }
    ensures falls { length result.now ≤ length tokens.now }
{
    match tokens {
        [token, rest @ ..] if tables.code(token) == b'=' => after_spaces(tables, rest),
        _ => tokens,
    }
}

// A code of delimiters, which begins where so many tokens are left; a negative number means that there is none.
fn code_or_none<'a, T>(
    first: usize,
    n: i64,
    rest: &'a [T],
) -> Result<Scanned<'a, Option<u32>, T>, Fault>
    ensures is { (token : T → TokenFields) → MeetsBy token result (code_or_none first n (map token rest.now)) }
    ensures falls { IfOk result (λ part. length part.rest.now ≤ length rest.now) }
    ensures code { IfOk result (λ part. is_delcode part.value ≡ true) }
{
    if n < 0 {
        return Ok(Scanned { value: None, rest });
    }
    if n <= i64::from(MAX_DELIMITER_CODE) {
        return Ok(Scanned {
            value: Some(n as u32),
            rest,
        });
    }
    Err(Fault {
        cause: ReadCause::BadNumber,
        left: first,
    })
}

fn delimiter_value<'a, T, L: Lexicon<T>>(
    tables: &L,
    tokens: &'a [T],
) -> Result<Scanned<'a, Option<u32>, T>, Fault>
    ensures is { MeetsBy (L.token tables.now) result (delimiter_value (map (L.token tables.now) tokens.now)) }
    ensures falls { IfOk result (λ part. length part.rest.now ≤ length tokens.now) }
    ensures code { IfOk result (λ part. is_delcode part.value ≡ true) }
{
    let number = whole_number(tables, tokens)?;
    code_or_none(tokens.len(), number.value, number.rest)
}

/// Gives a character a math code, by the tokens after `\\mathcode`, and hands out those after it.
pub fn assign_math_code<'a, T, K: DocumentTables<T>>(
    tables: &mut K,
    tokens: &'a [T],
) -> Result<&'a [T], Fault>
    ensures is { Assigns (K.token tables.old) result (K.codes tables.new)
        (math_code_assignment (K.codes tables.old) (map (K.token tables.old) tokens.now)) }
    ensures err { OnErr result (K.codes tables.new ≡ K.codes tables.old) }
    ensures macros { K.macros tables.new ≡ K.macros tables.old }
    ensures tokens { K.token tables.new ≡ K.token tables.old }
    ensures names { K.names tables.new ≡ K.names tables.old }
    ensures falls { IfOk result (λ rest. length rest.now ≤ length tokens.now) }
{
    let character = number_to(&*tables, MAX_CHARACTER, tokens)?;
    let code = after_equals(&*tables, after_spaces(&*tables, character.rest));
    let value = number_to(&*tables, u32::from(MAX_MATH_CODE), code)?;
    tables.set_math_code(character.value as u8, value.value as u16);
    Ok(value.rest)
}

/// Gives a character a delimiter code or none, by the tokens after `\\delcode`, and hands out those after it.
pub fn assign_delcode<'a, T, K: DocumentTables<T>>(
    tables: &mut K,
    tokens: &'a [T],
) -> Result<&'a [T], Fault>
    ensures is { Assigns (K.token tables.old) result (K.codes tables.new)
        (delcode_assignment (K.codes tables.old) (map (K.token tables.old) tokens.now)) }
    ensures err { OnErr result (K.codes tables.new ≡ K.codes tables.old) }
    ensures macros { K.macros tables.new ≡ K.macros tables.old }
    ensures tokens { K.token tables.new ≡ K.token tables.old }
    ensures names { K.names tables.new ≡ K.names tables.old }
    ensures falls { IfOk result (λ rest. length rest.now ≤ length tokens.now) }
{
    let character = number_to(&*tables, MAX_CHARACTER, tokens)?;
    let code = after_equals(&*tables, after_spaces(&*tables, character.rest));
    let value = delimiter_value(&*tables, code)?;
    tables.set_delcode(character.value as u8, value.value);
    Ok(value.rest)
}
