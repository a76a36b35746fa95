//! Words of which something else is read before what they do is known.
ghost use Rattle.std.specs.Prelude.{◌≡◌, ◌≤◌, ◌<◌, ◌^◌, ◌+◌, ◌/◌, ◌∷◌, length, IfOk, if◌then◌else◌, map};
ghost use Rattle.mt_scaled.specs.Number.{Within};
ghost use Rattle.mt_rules.specs.declared.class.Class.TheVariants.{Ord};
ghost use Rattle.mt_scan.specs.Dimensions.{glue, dimension};
ghost use Rattle.mt_scan.specs.Meets.{MeetsBy};
ghost use Rattle.mt_scan.specs.Numbers.{math_code, delimiter_number, whole_number};
ghost use Rattle.mt_scan.specs.Parts.{then_read, opening, Got};
ghost use Rattle.mt_scan.specs.Role.{role_of, is_open_brace, is_left, is_pmatrix, is_root};
ghost use Rattle.mt_scan.specs.Symbols.{code_symbol, delim_of, current_family};
ghost use Rattle.mt_scan.specs.declared.role.FieldKind.TheVariants.{Radical, Accent, Class as OfClass};
ghost use Rattle.mt_scan.specs.declared.role.Role.TheVariants.{OpenBrace, LeftWord, PmatrixWord, RootWord};
ghost use Rattle.mt_scan.specs.declared.role.Simple.TheVariants.{MuSpace, Space, MuKern, Kern};
ghost use Rattle.mt_formula.specs.Items.{coded_action, nucleus_action, amount_action};
ghost use Rattle.mt_formula.specs.Items.{big_action, left_action, pmatrix_action};
ghost use Rattle.mt_formula.specs.declared.actions.action.Action.TheVariants.{Item, Family, Group, Rows, Choice, Root};

use crate::actions::action::{Action, coded_action, nucleus_action};
use crate::actions::groups::{check_level, open_brace};
use crate::actions::table_form::TableForm;
use mt_rules::Class;
use mt_scaled::Units;
use mt_scan::items::{
    character_delimiter, dimension, glue, number_to, scan_delimiter, whole_number,
};
use mt_scan::{
    Amount, Fault, FieldKind, MAX_DELIMITER, MAX_MATH_CHAR, Roles, Scanned, Simple, code_symbol,
    current_family, delim_of,
};

/// After `\mathchar`.
pub fn char_word<'a, T, R: Roles<T>>(
    roles: &R,
    family: Option<u8>,
    after: &'a [T],
) -> Result<Scanned<'a, Action, T>, Fault>
    ensures is { MeetsBy (R.token roles.now) result (then_read (math_code (map (R.token roles.now) after.now))
        (λ code rest. Got (coded_action family code) rest)) }
    ensures falls { IfOk result (λ action. length action.rest.now ≤ length after.now) }
{
    let code = number_to(roles, MAX_MATH_CHAR, after)?;
    Ok(Scanned {
        value: coded_action(family, code.value),
        rest: code.rest,
    })
}

/// After `\delimiter`: its class and small symbol are an atom.
pub fn delimiter_word<'a, T, R: Roles<T>>(
    roles: &R,
    family: Option<u8>,
    after: &'a [T],
) -> Result<Scanned<'a, Action, T>, Fault>
    ensures is { MeetsBy (R.token roles.now) result (then_read (delimiter_number (map (R.token roles.now) after.now))
        (λ code rest. Got (coded_action family (code / 4096)) rest)) }
    ensures falls { IfOk result (λ action. length action.rest.now ≤ length after.now) }
{
    let code = number_to(roles, MAX_DELIMITER, after)?;
    Ok(Scanned {
        value: coded_action(family, code.value / 4096),
        rest: code.rest,
    })
}

/// After `\radical`.
pub fn radical_word<'a, T, R: Roles<T>>(
    roles: &R,
    level: usize,
    family: Option<u8>,
    after: &'a [T],
) -> Result<Scanned<'a, Action, T>, Fault>
    ensures is { MeetsBy (R.token roles.now) result (then_read (delimiter_number (map (R.token roles.now) after.now))
        (λ code rest. nucleus_action (R.codes roles.now) level family (Radical (delim_of code)) rest)) }
    ensures falls { IfOk result (λ action. length action.rest.now ≤ length after.now) }
{
    let code = number_to(roles, MAX_DELIMITER, after)?;
    let kind = FieldKind::Radical(delim_of(code.value));
    nucleus_action(roles, level, family, kind, code.rest)
}

/// After `\mathaccent`.
pub fn accent_word<'a, T, R: Roles<T>>(
    roles: &R,
    level: usize,
    family: Option<u8>,
    after: &'a [T],
) -> Result<Scanned<'a, Action, T>, Fault>
    ensures is { MeetsBy (R.token roles.now) result (then_read (math_code (map (R.token roles.now) after.now))
        (λ code rest. nucleus_action (R.codes roles.now) level family (Accent (code_symbol family code)) rest)) }
    ensures falls { IfOk result (λ action. length action.rest.now ≤ length after.now) }
{
    let code = number_to(roles, MAX_MATH_CHAR, after)?;
    let kind = FieldKind::Accent(code_symbol(family, code.value));
    nucleus_action(roles, level, family, kind, code.rest)
}

/// After `\fam`.
pub fn family_word<'a, T, R: Roles<T>>(
    roles: &R,
    after: &'a [T],
) -> Result<Scanned<'a, Action, T>, Fault>
    ensures is { MeetsBy (R.token roles.now) result (then_read (whole_number (map (R.token roles.now) after.now))
        (λ n rest. Got (Family (current_family n)) rest)) }
    ensures falls { IfOk result (λ action. length action.rest.now ≤ length after.now) }
{
    let n = whole_number(roles, after)?;
    Ok(Scanned {
        value: Action::Family(current_family(n.value)),
        rest: n.rest,
    })
}

/// At a `{`.
pub fn open_group<'a, T, R: Roles<T>>(
    roles: &R,
    level: usize,
    token: &T,
    after: &'a [T],
) -> Result<Scanned<'a, Action, T>, Fault>
    requires role { role_of (R.codes roles.now) (R.token roles.now token.now) ≡ OpenBrace }
    requires after { length after.now + 1 < 2 ^ 64 }
    ensures is { MeetsBy (R.token roles.now) result
        (then_read (opening (R.codes roles.now) is_open_brace level
        (R.token roles.now token.now ∷ map (R.token roles.now) after.now))
        (λ here inside. Got (Group (OfClass Ord)) inside)) }
    ensures falls { IfOk result (λ action. length action.rest.now ≤ length after.now) }
{
    check_level(level, after.len() + 1)?;
    Ok(Scanned {
        value: Action::Group(FieldKind::Class(Class::Ord)),
        rest: after,
    })
}

/// After `\vcenter`.
pub fn vcenter_word<'a, T, R: Roles<T>>(
    roles: &R,
    level: usize,
    after: &'a [T],
) -> Result<Scanned<'a, Action, T>, Fault>
    ensures is { MeetsBy (R.token roles.now) result
        (then_read (opening (R.codes roles.now) is_open_brace level (map (R.token roles.now) after.now))
        (λ here inside. Got Rows inside)) }
    ensures falls { IfOk result (λ action. length action.rest.now ≤ length after.now) }
{
    let inside = open_brace(roles, level, after)?;
    Ok(Scanned {
        value: Action::Rows,
        rest: inside,
    })
}

/// After `\mathchoice`.
pub fn choice_word<'a, T, R: Roles<T>>(
    roles: &R,
    level: usize,
    after: &'a [T],
) -> Result<Scanned<'a, Action, T>, Fault>
    ensures is { MeetsBy (R.token roles.now) result
        (then_read (opening (R.codes roles.now) is_open_brace level (map (R.token roles.now) after.now))
        (λ here inside. Got Choice inside)) }
    ensures falls { IfOk result (λ action. length action.rest.now ≤ length after.now) }
{
    let inside = open_brace(roles, level, after)?;
    Ok(Scanned {
        value: Action::Choice,
        rest: inside,
    })
}

/// At a `\root`.
pub fn root_word<'a, T, R: Roles<T>>(
    roles: &R,
    level: usize,
    token: &T,
    after: &'a [T],
) -> Result<Scanned<'a, Action, T>, Fault>
    requires role { role_of (R.codes roles.now) (R.token roles.now token.now) ≡ RootWord }
    requires after { length after.now + 1 < 2 ^ 64 }
    ensures is { MeetsBy (R.token roles.now) result
        (then_read (opening (R.codes roles.now) is_root level
        (R.token roles.now token.now ∷ map (R.token roles.now) after.now))
        (λ here inside. Got Root inside)) }
    ensures falls { IfOk result (λ action. length action.rest.now ≤ length after.now) }
{
    check_level(level, after.len() + 1)?;
    Ok(Scanned {
        value: Action::Root,
        rest: after,
    })
}

/// After `\big` and its like.
pub fn big_word<'a, T, R: Roles<T>>(
    roles: &R,
    class: Class,
    size: u8,
    after: &'a [T],
) -> Result<Scanned<'a, Action, T>, Fault>
    ensures is { MeetsBy (R.token roles.now) result
        (big_action (R.codes roles.now) class size (map (R.token roles.now) after.now)) }
    ensures falls { IfOk result (λ action. length action.rest.now ≤ length after.now) }
{
    let delim = scan_delimiter(roles, after)?;
    Ok(Scanned {
        value: Action::Big(class, delim.value, size),
        rest: delim.rest,
    })
}

fn left_action<'a, T, R: Roles<T>>(
    roles: &R,
    tokens: &'a [T],
) -> Result<Scanned<'a, Action, T>, Fault>
    ensures is { MeetsBy (R.token roles.now) result
        (left_action (R.codes roles.now) (map (R.token roles.now) tokens.now)) }
    ensures falls { IfOk result (λ action. length action.rest.now ≤ length tokens.now) }
{
    let left = scan_delimiter(roles, tokens)?;
    Ok(Scanned {
        value: Action::LeftRight(left.value),
        rest: left.rest,
    })
}

/// At a `\left`.
pub fn left_word<'a, T, R: Roles<T>>(
    roles: &R,
    level: usize,
    token: &T,
    after: &'a [T],
) -> Result<Scanned<'a, Action, T>, Fault>
    requires role { role_of (R.codes roles.now) (R.token roles.now token.now) ≡ LeftWord }
    requires after { length after.now + 1 < 2 ^ 64 }
    ensures is { MeetsBy (R.token roles.now) result
        (then_read (opening (R.codes roles.now) is_left level
        (R.token roles.now token.now ∷ map (R.token roles.now) after.now))
        (λ here rest. left_action (R.codes roles.now) rest)) }
    ensures falls { IfOk result (λ action. length action.rest.now ≤ length after.now) }
{
    check_level(level, after.len() + 1)?;
    left_action(roles, after)
}

fn pmatrix_action<'a, T, R: Roles<T>>(
    roles: &R,
    after: &'a [T],
) -> Result<Scanned<'a, Action, T>, Fault>
    requires { length after.now + 1 < 2 ^ 64 }
    ensures is { MeetsBy (R.token roles.now) result
        (pmatrix_action (R.codes roles.now) (map (R.token roles.now) after.now)) }
    ensures falls { IfOk result (λ action. length action.rest.now ≤ length after.now) }
{
    let left = character_delimiter(roles, b'(', after)?;
    let right = character_delimiter(roles, b')', left.rest)?;
    Ok(Scanned {
        value: Action::Table(TableForm::Enclosed(left.value, right.value)),
        rest: right.rest,
    })
}

/// At a `\pmatrix`.
pub fn pmatrix_word<'a, T, R: Roles<T>>(
    roles: &R,
    level: usize,
    token: &T,
    after: &'a [T],
) -> Result<Scanned<'a, Action, T>, Fault>
    requires role { role_of (R.codes roles.now) (R.token roles.now token.now) ≡ PmatrixWord }
    requires after { length after.now + 1 < 2 ^ 64 }
    ensures is { MeetsBy (R.token roles.now) result
        (then_read (opening (R.codes roles.now) is_pmatrix level
        (R.token roles.now token.now ∷ map (R.token roles.now) after.now))
        (λ here rest. pmatrix_action (R.codes roles.now) rest)) }
    ensures falls { IfOk result (λ action. length action.rest.now ≤ length after.now) }
{
    check_level(level, after.len() + 1)?;
    pmatrix_action(roles, after)
}

fn glue_action<'a, T, R: Roles<T>>(
    roles: &R,
    units: Units,
    mu: bool,
    tokens: &'a [T],
) -> Result<Scanned<'a, Action, T>, Fault>
    requires em { Within (2 ^ 31) units.em }
    requires ex { Within (2 ^ 31) units.ex }
    ensures is { MeetsBy (R.token roles.now) result (then_read (glue units mu (map (R.token roles.now) tokens.now))
        (λ g rest. Got (Item (if mu then MuSpace g else Space g)) rest)) }
    ensures falls { IfOk result (λ action. length action.rest.now ≤ length tokens.now) }
{
    let glue = glue(roles, units, mu, tokens)?;
    let item = if mu {
        Simple::MuSpace(glue.value)
    } else {
        Simple::Space(glue.value)
    };
    Ok(Scanned {
        value: Action::Item(item),
        rest: glue.rest,
    })
}

fn kern_action<'a, T, R: Roles<T>>(
    roles: &R,
    units: Units,
    mu: bool,
    tokens: &'a [T],
) -> Result<Scanned<'a, Action, T>, Fault>
    requires em { Within (2 ^ 31) units.em }
    requires ex { Within (2 ^ 31) units.ex }
    ensures is { MeetsBy (R.token roles.now) result (then_read (dimension units mu (map (R.token roles.now) tokens.now))
        (λ k rest. Got (Item (if mu then MuKern k else Kern k)) rest)) }
    ensures falls { IfOk result (λ action. length action.rest.now ≤ length tokens.now) }
{
    let amount = dimension(roles, units, mu, tokens)?;
    let item = if mu {
        Simple::MuKern(amount.value)
    } else {
        Simple::Kern(amount.value)
    };
    Ok(Scanned {
        value: Action::Item(item),
        rest: amount.rest,
    })
}

/// A space or a kern after its word.
pub fn amount_action<'a, T, R: Roles<T>>(
    roles: &R,
    units: Units,
    amount: Amount,
    tokens: &'a [T],
) -> Result<Scanned<'a, Action, T>, Fault>
    requires em { Within (2 ^ 31) units.em }
    requires ex { Within (2 ^ 31) units.ex }
    ensures is { MeetsBy (R.token roles.now) result (amount_action units amount (map (R.token roles.now) tokens.now)) }
    ensures falls { IfOk result (λ action. length action.rest.now ≤ length tokens.now) }
{
    match amount {
        Amount::MuSkip => glue_action(roles, units, true, tokens),
        Amount::Skip => glue_action(roles, units, false, tokens),
        Amount::MuKern => kern_action(roles, units, true, tokens),
        Amount::Kern => kern_action(roles, units, false, tokens),
    }
}
