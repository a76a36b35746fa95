//! What a token does in a list, and how a field begins.
ghost use Rattle.std.specs.Prelude.{◌≡◌, ◌≤◌, ◌<◌, length, IfOk, map};
ghost use Rattle.mt_scan.specs.Meets.{MeetsBy};
ghost use Rattle.mt_formula.specs.Fields.{field_start_here, field_start};
ghost use Rattle.mt_formula.specs.Items.{coded_action, nucleus_action, script_action};

use crate::actions::groups::{check_level, missing_field};
use crate::actions::table_form::TableForm;
use crate::reading::ends::{after_first, front_code};
use mt_rules::{Class, Delim, Limits, Symbol};
use mt_scan::items::{after_blanks, number_to};
use mt_scan::{
    Fault, FieldKind, MAX_DELIMITER, MAX_MATH_CHAR, Role, Roles, Scanned, Side, Simple, class_of,
    code_symbol,
};

/// How a field begins.
#[derive(Clone, Copy)]
pub enum FieldStart {
    /// It is a symbol.
    Symbol(Symbol),
    /// It is a group, of which the brace is read.
    Group,
}

/// What a token does in a list.
#[derive(Clone, Copy)]
pub enum Action {
    /// Nothing.
    Nothing,
    /// It is an atom of this kind, with a symbol as nucleus.
    Atom(FieldKind, Symbol),
    /// It is a symbol as a script.
    Script(Side, Symbol),
    /// It is another item.
    Item(Simple),
    /// It sets the current family.
    Family(Option<u8>),
    /// It places the scripts of an operator.
    Limits(Limits),
    /// It is a prime.
    Prime,
    /// It begins the rows of a vcenter atom.
    Rows,
    /// It begins a group, as the nucleus of an atom of this kind.
    Group(FieldKind),
    /// It begins a group, as a script.
    ScriptGroup(Side),
    /// It begins a list between boundaries.
    LeftRight(Delim),
    /// It begins the first list of a choice.
    Choice,
    /// It is the word of a table.
    Table(TableForm),
    /// It is a big delimiter, as an atom of this class, and how large, 0 to 3.
    Big(Class, Delim, u8),
    /// It begins the degree of a root.
    Root,
    /// It is no item.
    Stop,
}

fn field_start_here<'a, T, R: Roles<T>>(
    roles: &R,
    level: usize,
    family: Option<u8>,
    tokens: &'a [T],
) -> Result<Scanned<'a, FieldStart, T>, Fault>
    ensures is { MeetsBy (R.token roles.now) result
        (field_start_here (R.codes roles.now) level family (map (R.token roles.now) tokens.now)) }
    ensures falls { IfOk result (λ start. length start.rest.now < length tokens.now) }
{
    match tokens {
        [token, after @ ..] => match roles.role_of(token) {
            Role::MathCode(code) => Ok(Scanned {
                value: FieldStart::Symbol(code_symbol(family, u32::from(code))),
                rest: after,
            }),
            Role::CharWord => {
                let code = number_to(roles, MAX_MATH_CHAR, after)?;
                Ok(Scanned {
                    value: FieldStart::Symbol(code_symbol(family, code.value)),
                    rest: code.rest,
                })
            }
            Role::DelimiterWord => {
                let code = number_to(roles, MAX_DELIMITER, after)?;
                Ok(Scanned {
                    value: FieldStart::Symbol(code_symbol(family, code.value / 4096)),
                    rest: code.rest,
                })
            }
            Role::OpenBrace => {
                check_level(level, tokens.len())?;
                Ok(Scanned {
                    value: FieldStart::Group,
                    rest: after,
                })
            }
            _ => Err(missing_field(tokens.len())),
        },
        [] => Err(missing_field(0)),
    }
}

/// How a field begins, after Spaces and `\relax`.
pub fn field_start<'a, T, R: Roles<T>>(
    roles: &R,
    level: usize,
    family: Option<u8>,
    tokens: &'a [T],
) -> Result<Scanned<'a, FieldStart, T>, Fault>
    ensures is { MeetsBy (R.token roles.now) result
        (field_start (R.codes roles.now) level family (map (R.token roles.now) tokens.now)) }
    ensures falls { IfOk result (λ start. length start.rest.now < length tokens.now) }
{
    // Most fields are symbols, which need no role.
    if let Some(code) = front_code(roles, tokens) {
        return Ok(Scanned {
            value: FieldStart::Symbol(code_symbol(family, u32::from(code))),
            rest: after_first(roles, tokens),
        });
    }
    field_start_here(roles, level, family, after_blanks(roles, tokens))
}

/// The atom of a math code, with the current family.
pub fn coded_action(family: Option<u8>, code: u32) -> Action
    ensures { result ≡ coded_action family code }
{
    Action::Atom(FieldKind::Class(class_of(code)), code_symbol(family, code))
}

/// A field as the nucleus of an atom of this kind.
pub fn nucleus_action<'a, T, R: Roles<T>>(
    roles: &R,
    level: usize,
    family: Option<u8>,
    kind: FieldKind,
    tokens: &'a [T],
) -> Result<Scanned<'a, Action, T>, Fault>
    ensures is { MeetsBy (R.token roles.now) result
        (nucleus_action (R.codes roles.now) level family kind (map (R.token roles.now) tokens.now)) }
    ensures falls { IfOk result (λ action. length action.rest.now ≤ length tokens.now) }
{
    let start = field_start(roles, level, family, tokens)?;
    match start.value {
        FieldStart::Symbol(symbol) => Ok(Scanned {
            value: Action::Atom(kind, symbol),
            rest: start.rest,
        }),
        FieldStart::Group => Ok(Scanned {
            value: Action::Group(kind),
            rest: start.rest,
        }),
    }
}

/// A field as a script.
pub fn script_action<'a, T, R: Roles<T>>(
    roles: &R,
    level: usize,
    family: Option<u8>,
    side: Side,
    tokens: &'a [T],
) -> Result<Scanned<'a, Action, T>, Fault>
    ensures is { MeetsBy (R.token roles.now) result
        (script_action (R.codes roles.now) level family side (map (R.token roles.now) tokens.now)) }
    ensures falls { IfOk result (λ action. length action.rest.now ≤ length tokens.now) }
{
    let start = field_start(roles, level, family, tokens)?;
    match start.value {
        FieldStart::Symbol(symbol) => Ok(Scanned {
            value: Action::Script(side, symbol),
            rest: start.rest,
        }),
        FieldStart::Group => Ok(Scanned {
            value: Action::ScriptGroup(side),
            rest: start.rest,
        }),
    }
}
