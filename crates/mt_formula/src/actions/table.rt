//! The table of what each token does in a list (The TeXbook, chapter 26).
ghost use Rattle.std.specs.Prelude.{◌≡◌, ◌<◌, ◌≤◌, ◌+◌, ◌^◌, true, ◌∷◌, List, length, IfOk, IfSome, map};
ghost use Rattle.mt_scaled.specs.declared.unit.Units.{Units};
ghost use Rattle.mt_scan.specs.Meets.{MeetsBy};
ghost use Rattle.mt_scan.specs.Parts.{Got};
ghost use Rattle.mt_scan.specs.Role.{role_of};
ghost use Rattle.mt_scan.specs.declared.role.Side.TheVariants.{Up};
ghost use Rattle.mt_formula.specs.Atoms.{is_free, is_op};
ghost use Rattle.mt_formula.specs.Items.{free_action, limits_action, script_action, action, action_here};
ghost use Rattle.mt_formula.specs.declared.actions.action.Action.TheVariants.{Prime, Script};
ghost use Rattle.mt_formula.specs.reading.Actions.{opens_list, spent, MeetsUnlessStop};
ghost use Rattle.mt_arena.specs.Arena.{Held};
ghost use Rattle.mt_scan.specs.Limits.{max_groups};
ghost use Rattle.mt_formula.specs.reading.Ends.{front_role};
ghost use Rattle.mt_formula.specs.reading.Noads.{last_in};

use crate::actions::action::{Action, coded_action, nucleus_action, script_action};
use crate::actions::table_form::TableForm;
use crate::actions::words::{
    accent_word, amount_action, big_word, char_word, choice_word, delimiter_word, family_word,
    left_word, open_group, pmatrix_word, radical_word, root_word, vcenter_word,
};
use crate::reading::context::{Grammar, Group};
use crate::reading::ends::{after_first, front_code};
use crate::reading::noads::{is_free, is_op};
use mt_arena::Noad;
use mt_rules::{Limits, Symbol};
use mt_scan::{Fault, ReadCause, Role, Roles, Scanned, Side, code_symbol};

fn fault(cause: ReadCause, left: usize) -> Fault
    ensures { result ≡ record { cause = cause; left = left } }
{
    Fault { cause, left }
}

// At `^` or `_`.
fn script_word<'a, T, R: Roles<T>>(
    roles: &R,
    group: Group,
    last: &Option<Noad>,
    side: Side,
    after: &'a [T],
) -> Result<Scanned<'a, Action, T>, Fault>
    requires { length after.now + 1 < 2 ^ 64 }
    ensures is { (es : List Held) → MeetsBy (R.token roles.now) result
        (free_action (is_free side (last_in es last.now)) (length after.now + 1)
        (script_action (R.codes roles.now) group.level group.family side (map (R.token roles.now) after.now))) }
    ensures falls { IfOk result (λ action. length action.rest.now ≤ length after.now) }
{
    if is_free(side, last) {
        script_action(roles, group.level, group.family, side, after)
    } else {
        Err(fault(ReadCause::DoubleScript, after.len() + 1))
    }
}

// At a prime.
fn prime_word<'a, T, R: Roles<T>>(
    roles: &R,
    last: &Option<Noad>,
    after: &'a [T],
) -> Result<Scanned<'a, Action, T>, Fault>
    requires { length after.now + 1 < 2 ^ 64 }
    ensures is { (es : List Held) → MeetsBy (R.token roles.now) result
        (free_action (is_free Up (last_in es last.now)) (length after.now + 1)
        (Got Prime (map (R.token roles.now) after.now))) }
    ensures falls { IfOk result (λ action. length action.rest.now ≤ length after.now) }
{
    if is_free(Side::Up, last) {
        Ok(Scanned {
            value: Action::Prime,
            rest: after,
        })
    } else {
        Err(fault(ReadCause::DoubleScript, after.len() + 1))
    }
}

// At a word that places the scripts of an operator.
fn limits_word<'a, T, R: Roles<T>>(
    roles: &R,
    last: &Option<Noad>,
    limits: Limits,
    after: &'a [T],
) -> Result<Scanned<'a, Action, T>, Fault>
    requires { length after.now + 1 < 2 ^ 64 }
    ensures is { (es : List Held) → MeetsBy (R.token roles.now) result
        (limits_action (is_op (last_in es last.now)) limits (map (R.token roles.now) after.now)) }
    ensures falls { IfOk result (λ action. length action.rest.now ≤ length after.now) }
{
    if is_op(last) {
        Ok(Scanned {
            value: Action::Limits(limits),
            rest: after,
        })
    } else {
        Err(fault(ReadCause::MisplacedLimits, after.len() + 1))
    }
}

// What a token of this role does; `None` where it is no item.
fn role_action<'a, T, R: Roles<T>>(
    grammar: Grammar<'_, R>,
    group: Group,
    last: &Option<Noad>,
    role: Role,
    token: &T,
    after: &'a [T],
) -> Result<Option<Scanned<'a, Action, T>>, Fault>
    requires role { role_of (R.codes grammar.roles.now) (R.token grammar.roles.now token.now) ≡ role }
    requires after { length after.now + 1 < 2 ^ 64 }
    ensures is { (es : List Held) → MeetsUnlessStop (R.token grammar.entry.roles.now) result
        (action (R.codes grammar.entry.roles.now) grammar.entry.units group.level group.family
        (last_in es last.now) (R.token grammar.entry.roles.now token.now)
        (map (R.token grammar.entry.roles.now) after.now) role)
        (R.token grammar.entry.roles.now token.now ∷ map (R.token grammar.entry.roles.now) after.now) }
    ensures falls { IfOk result (λ read. IfSome read
        (λ action. length action.rest.now + spent action.value ≤ length after.now + 1)) }
{
    let roles = grammar.roles;
    let level = group.level;
    let family = group.family;
    let read = match role {
        Role::Blank => Ok(Scanned {
            value: Action::Nothing,
            rest: after,
        }),
        Role::MathCode(code) => Ok(Scanned {
            value: coded_action(family, u32::from(code)),
            rest: after,
        }),
        Role::ItemWord(item) => Ok(Scanned {
            value: Action::Item(item.item()),
            rest: after,
        }),
        Role::CharWord => char_word(roles, family, after),
        Role::DelimiterWord => delimiter_word(roles, family, after),
        Role::Nucleus(kind) => nucleus_action(roles, level, family, kind, after),
        Role::RadicalWord => radical_word(roles, level, family, after),
        Role::AccentWord => accent_word(roles, level, family, after),
        Role::RootWord => root_word(roles, level, token, after),
        Role::BigWord(class, size) => big_word(roles, class, size, after),
        Role::FamilyWord => family_word(roles, after),
        Role::AmountWord(amount) => amount_action(roles, grammar.units, amount, after),
        Role::OpenBrace => open_group(roles, level, token, after),
        Role::LeftWord => left_word(roles, level, token, after),
        Role::VcenterWord => vcenter_word(roles, level, after),
        Role::ChoiceWord => choice_word(roles, level, after),
        Role::TableWord(preamble) => Ok(Scanned {
            value: Action::Table(TableForm::Spaced(preamble)),
            rest: after,
        }),
        Role::PmatrixWord => pmatrix_word(roles, level, token, after),
        Role::Script(side) => script_word(roles, group, last, side, after),
        Role::Prime => prime_word(roles, last, after),
        Role::LimitsWord(limits) => limits_word(roles, last, limits, after),
        Role::HboxWord | Role::Unknown => Err(fault(ReadCause::UnknownName, after.len() + 1)),
        Role::CloseBrace
        | Role::Dollar
        | Role::Misplaced
        | Role::Tab
        | Role::CrWord
        | Role::OfWord
        | Role::MiddleWord
        | Role::RightWord
        | Role::FractionWord(_, _)
        | Role::NumberWord(_)
        | Role::DisplayWord(_, _) => return Ok(None),
    };
    // Not by `?`, which would move each action once more.
    match read {
        Ok(action) => Ok(Some(action)),
        Err(fault) => Err(fault),
    }
}

/// A script that is a symbol.
#[derive(Clone, Copy)]
pub struct SymbolScript {
    /// The side of the atom on which it is set.
    pub side: Side,
    /// The symbol.
    pub symbol: Symbol,
}

/// The script in front, of which the first token is of this role, where it is a symbol and the atom at hand has none
/// on that side; and the tokens after it.
#[inline(always)]
pub fn symbol_script<'a, T, R: Roles<T>>(
    roles: &R,
    group: Group,
    last: &Option<Noad>,
    role: Role,
    tokens: &'a [T],
) -> Option<Scanned<'a, SymbolScript, T>>
    requires { front_role (R.codes roles.now) (map (R.token roles.now) tokens.now) ≡ role }
    ensures is { IfSome result (λ script. (es : List Held) (units : Units)
        → action_here (R.codes roles.now) units group.level group.family (last_in es last.now)
        (map (R.token roles.now) tokens.now)
        ≡ Got (Script script.value.side script.value.symbol) (map (R.token roles.now) script.rest.now)) }
    ensures falls { IfSome result (λ script. length script.rest.now < length tokens.now) }
{
    let Role::Script(side) = role else {
        return None;
    };
    if !is_free(side, last) {
        return None;
    }
    let field = after_first(roles, tokens);
    let code = front_code(roles, field)?;
    Some(Scanned {
        value: SymbolScript {
            side,
            symbol: code_symbol(group.family, u32::from(code)),
        },
        rest: after_first(roles, field),
    })
}

/// What the token in front, which is of this role, does in a list where this atom is at hand, and the tokens after those
/// that were read for it. It is `Stop`, and no token is read, where no item begins or none is left.
pub fn action_here<'a, T, R: Roles<T>>(
    grammar: Grammar<'_, R>,
    group: Group,
    last: &Option<Noad>,
    role: Role,
    tokens: &'a [T],
) -> Result<Scanned<'a, Action, T>, Fault>
    requires { front_role (R.codes grammar.roles.now) (map (R.token grammar.roles.now) tokens.now) ≡ role }
    ensures is { (es : List Held) → MeetsBy (R.token grammar.entry.roles.now) result
        (action_here (R.codes grammar.entry.roles.now) grammar.entry.units group.level group.family
        (last_in es last.now) (map (R.token grammar.entry.roles.now) tokens.now)) }
    ensures level { IfOk result (λ part. opens_list part.value ≡ true → group.level < max_groups) }
    ensures falls { IfOk result (λ part. length part.rest.now + spent part.value ≤ length tokens.now) }
{
    let [token, after @ ..] = tokens else {
        return Ok(Scanned {
            value: Action::Stop,
            rest: tokens,
        });
    };
    match role_action(grammar, group, last, role, token, after)? {
        Some(part) => Ok(part),
        None => Ok(Scanned {
            value: Action::Stop,
            rest: tokens,
        }),
    }
}
