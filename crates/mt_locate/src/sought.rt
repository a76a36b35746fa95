//! What of a source is sought.
ghost use Rattle.std.specs.Prelude.{◌≡◌};
ghost use Rattle.mt_locate.specs.Sought.{is_same, sought_formula, sought_of};

use mt_status::{Notes, Numbers, Status, Subject};

/// What of a source is sought.
#[derive(Clone, Copy, Debug)]
pub enum Sought {
    /// A byte, by its offset and its cause.
    Byte(u64, u8),
    /// The fault at which its reading stops, with these numbers.
    Fault(Numbers),
    /// The formula of this number, which is read and not set.
    Formula(u32),
    /// Nothing of it.
    Nothing,
}

impl Sought {
    /// The number of the formula that is sought, if one is.
    pub fn formula(self) -> Option<u32>
        ensures { result ≡ sought_formula self }
    {
        match self {
            Sought::Formula(n) => Some(n),
            Sought::Byte(..) | Sought::Fault(_) | Sought::Nothing => None,
        }
    }
}

/// What of a source is sought for a status, with the number of the formula that has a place too many as the run noted it.
pub fn sought_of(status: &Status, notes: Notes) -> Sought
    ensures { result ≡ sought_of status.now notes }
{
    match status.subject() {
        Subject::Byte(offset, cause) => Sought::Byte(offset, cause),
        Subject::Fault(numbers) => Sought::Fault(numbers),
        Subject::Formula(n, _) => Sought::Formula(n),
        Subject::Places => notes
            .formula
            .map_or(Sought::Nothing, |n| Sought::Formula(n)),
        Subject::Nothing
        | Subject::Unread
        | Subject::ListLine(_)
        | Subject::Font(_)
        | Subject::Family(_)
        | Subject::Dvi(_) => Sought::Nothing,
    }
}

/// Whether numbers are the same.
pub fn is_same(one: Numbers, other: Numbers) -> bool
    ensures { result ≡ is_same one other }
{
    match (one, other) {
        (Numbers::Token(n, token, cause), Numbers::Token(m, index, number)) => {
            n == m && token == index && cause == number
        }
        (Numbers::Formula(n), Numbers::Formula(m)) => n == m,
        (Numbers::Page(n), Numbers::Page(m)) => n == m,
        _ => false,
    }
}
