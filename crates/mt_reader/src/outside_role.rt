//! What a token is outside of formulas.
ghost use Rattle.std.specs.Prelude.{◌≡◌};
ghost use Rattle.mt_token.specs.LentKinds.{owned_kind};
ghost use Rattle.mt_reader.specs.Documents.{outside_name_role, outside_role};

use mt_token::{LentKind, Lexicon};

/// What a token is outside of formulas, whatever its name is defined as.
#[derive(Clone, Copy, Debug, PartialEq, Eq)]
pub enum OutsideRole {
    /// A Space or `\par`, which mean nothing.
    Passed,
    /// `\def`
    Defines,
    /// `\mathcode`
    SetsMathCode,
    /// `\delcode`
    SetsDelimiterCode,
    /// `$`
    BeginsFormula,
    /// `\eject`
    EndsPage,
    /// `\bye` or `\end`
    EndsDocument,
    /// Any other token.
    Misplaced,
}

impl OutsideRole {
    ghost use Rattle.std.specs.Prelude.{IsTrue};
    ghost use Rattle.mt_reader.specs.DocumentTurns.{ends_page};
    ghost use Rattle.mt_reader.specs.declared.outside_role.OutsideRole.TheVariants.{Passed};

    /// Whether it means nothing.
    pub fn is_passed(self) -> bool
        ensures { IsTrue result → self ≡ Passed }
    {
        matches!(self, OutsideRole::Passed)
    }

    /// Whether it ends a page.
    pub fn ends_page(self) -> bool
        ensures { result ≡ ends_page self }
    {
        matches!(self, OutsideRole::EndsPage)
    }
}

fn name_role(name: &[u8]) -> OutsideRole
    ensures { result ≡ outside_name_role name.now }
{
    if name == b"par".as_slice() {
        OutsideRole::Passed
    } else if name == b"def".as_slice() {
        OutsideRole::Defines
    } else if name == b"mathcode".as_slice() {
        OutsideRole::SetsMathCode
    } else if name == b"delcode".as_slice() {
        OutsideRole::SetsDelimiterCode
    } else if name == b"eject".as_slice() {
        OutsideRole::EndsPage
    } else if name == b"bye".as_slice() || name == b"end".as_slice() {
        OutsideRole::EndsDocument
    } else {
        OutsideRole::Misplaced
    }
}

fn role_of_kind(kind: LentKind) -> OutsideRole
    ensures { result ≡ outside_role (owned_kind kind.entry) }
{
    match kind {
        LentKind::Control(name) => name_role(name),
        LentKind::Char(b'$') => OutsideRole::BeginsFormula,
        LentKind::Char(_) => OutsideRole::Misplaced,
        LentKind::Space => OutsideRole::Passed,
    }
}

/// What an item is outside of formulas.
pub fn outside_role<T, L: Lexicon<T>>(tables: &L, item: &T) -> OutsideRole
    ensures { result ≡ outside_role (L.token tables.now item.now).kind }
{
    if tables.code(item) == b'$' {
        return OutsideRole::BeginsFormula;
    }
    if tables.is_space(item) {
        return OutsideRole::Passed;
    }
    role_of_kind(tables.lent(item))
}
