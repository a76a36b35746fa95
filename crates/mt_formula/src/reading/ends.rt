//! Where lists end, and what becomes of a list where no item is.
ghost use Rattle.std.specs.Prelude.{◌≡◌, ◌≤◌, ◌-◌, ℕ, drop, length, map};
ghost use Rattle.mt_rules.specs.Sequence.{Sequence};
ghost use Rattle.mt_scaled.specs.declared.unit.Units.{Units};
ghost use Rattle.mt_formula.specs.Groups.{ends_at_middle};
ghost use Rattle.mt_formula.specs.Lists.{ItemRun, ItemRunReader, ends_at, ends_with_tokens, list_end, misplaced_cause};
ghost use Rattle.mt_formula.specs.reading.Ends.{EndsAtEnd, EndsAtRole, EndsHere, StopsHere, front_code, front_role};

use mt_scan::{Bar, Fault, ReadCause, Role, Roles};

/// Where a list ends.
#[derive(Clone, Copy, Debug, PartialEq, Eq)]
pub enum Ending {
    /// With the tokens.
    AtEnd,
    /// With the tokens, or at `\eqno` or `\leqno`.
    AtNumber,
    /// At `}`.
    AtBrace,
    /// At `\middle` or `\right`.
    AtRight,
    /// At `$`.
    AtDollar,
    /// At `&`, `\cr` or `}`.
    AtCell,
    /// At `\of`.
    AtOf,
}

/// What becomes of a list.
#[derive(Clone, Copy, Debug, PartialEq, Eq)]
pub enum ListStop {
    /// It ends.
    Ends,
    /// A fraction word divides it, with delimiters or without, and with this rule.
    Divides(bool, Bar),
}

// Whether a list ends with the tokens.
fn ends_with_tokens(ending: Ending) -> bool
    ensures { result ≡ ends_with_tokens ending }
{
    matches!(ending, Ending::AtEnd | Ending::AtNumber)
}

// Whether a list ends at a token of this role.
fn ends_at(ending: Ending, role: Role) -> bool
    ensures { result ≡ ends_at ending role }
{
    match ending {
        Ending::AtEnd => false,
        Ending::AtNumber => matches!(role, Role::NumberWord(_)),
        Ending::AtBrace => matches!(role, Role::CloseBrace),
        Ending::AtRight => matches!(role, Role::MiddleWord | Role::RightWord),
        Ending::AtDollar => matches!(role, Role::Dollar),
        Ending::AtCell => matches!(role, Role::Tab | Role::CrWord | Role::CloseBrace),
        Ending::AtOf => matches!(role, Role::OfWord),
    }
}

// The cause of a fault at a token of this role, which is no item and does not end the list.
fn misplaced_cause(role: Role) -> ReadCause
    ensures { result ≡ misplaced_cause role }
{
    match role {
        Role::FractionWord(_, _) => ReadCause::TwoFractions,
        Role::NumberWord(_) | Role::DisplayWord(_, _) => ReadCause::MisplacedNumber,
        _ => ReadCause::Unbalanced,
    }
}

// That a list ends at a token of this role, with which so many tokens are left.
fn ends_at_role(ending: Ending, role: Role, left: usize) -> Result<(), Fault>
    ensures { EndsAtRole result ending role left }
{
    if ends_at(ending, role) {
        Ok(())
    } else {
        Err(Fault {
            cause: misplaced_cause(role),
            left,
        })
    }
}

// That a list ends with the tokens.
fn ends_at_end(ending: Ending) -> Result<(), Fault>
    ensures { EndsAtEnd result ending }
{
    if ends_with_tokens(ending) {
        Ok(())
    } else {
        Err(Fault {
            cause: ReadCause::Unbalanced,
            left: 0,
        })
    }
}

/// That a list ends at these tokens.
pub fn list_ends<T, R: Roles<T>>(roles: &R, ending: Ending, tokens: &[T]) -> Result<(), Fault>
    ensures { (units : Units) (list : Sequence) → EndsHere result list
        (list_end (R.codes roles.now) units ending list (map (R.token roles.now) tokens.now))
        (map (R.token roles.now) tokens.now) }
{
    match tokens {
        [token, ..] => ends_at_role(ending, roles.role_of(token), tokens.len()),
        [] => ends_at_end(ending),
    }
}

/// What becomes of a list at these tokens, which begin with no item.
pub fn list_stop<T, R: Roles<T>>(roles: &R, ending: Ending, tokens: &[T]) -> Result<ListStop, Fault>
    ensures { (units : Units) (again : ItemRunReader) (level : ℕ) (run : ItemRun)
        → StopsHere (R.codes roles.now) units again ending level run (map (R.token roles.now) tokens.now) result }
{
    match tokens {
        [token, ..] => match roles.role_of(token) {
            Role::FractionWord(delims, bar) => Ok(ListStop::Divides(delims, bar)),
            role => {
                ends_at_role(ending, role, tokens.len())?;
                Ok(ListStop::Ends)
            }
        },
        [] => {
            ends_at_end(ending)?;
            Ok(ListStop::Ends)
        }
    }
}

/// Whether a list ends here at `\middle`.
pub fn is_at_middle<T, R: Roles<T>>(roles: &R, tokens: &[T]) -> bool
    ensures { result ≡ ends_at_middle (R.codes roles.now) (map (R.token roles.now) tokens.now) }
{
    match tokens {
        [token, ..] => matches!(roles.role_of(token), Role::MiddleWord),
        [] => false,
    }
}

/// The math code of the token in front, if it is set by one.
#[inline]
pub fn front_code<T, R: Roles<T>>(roles: &R, tokens: &[T]) -> Option<u16>
    ensures { result ≡ front_code (R.codes roles.now) (map (R.token roles.now) tokens.now) }
{
    match tokens {
        [token, ..] => roles.symbol_code(token),
        [] => None,
    }
}

/// What the token in front is, or `Role::Unknown` where there is none.
#[inline]
pub fn front_role<T, R: Roles<T>>(roles: &R, tokens: &[T]) -> Role
    ensures { result ≡ front_role (R.codes roles.now) (map (R.token roles.now) tokens.now) }
{
    match tokens {
        [token, ..] => roles.role_of(token),
        [] => Role::Unknown,
    }
}

/// The tokens after the one in front.
pub fn after_first<'a, T, R: Roles<T>>(roles: &R, tokens: &'a [T]) -> &'a [T]
    ensures is { map (R.token roles.now) result.now ≡ drop 1 (map (R.token roles.now) tokens.now) }
    ensures falls { length result.now ≤ length tokens.now }
    ensures length { length result.now ≡ length tokens.now - 1 }
{
    match tokens {
        [_, after @ ..] => after,
        [] => tokens,
    }
}
