//! The numbers of a fault of the reading, and the token at which it is.
ghost use Rattle.std.specs.Prelude.{◌≡◌};
ghost use Rattle.mt_locate.specs.FaultTokens.{fault_numbers, fault_token, has_numbers};

use crate::sought::is_same;
use mt_macro::ExpandError;
use mt_reader::{DocError, OutsideCause};
use mt_status::{MISSING_ARGUMENT, Numbers};

/// At which token a fault is.
#[derive(Clone, Copy, Debug)]
pub enum FaultToken {
    /// The token of this index in the source.
    OfSource(u32),
    /// The one that nothing matches, of the formula that begins at this index.
    Unmatched(u32),
    /// The token of this index in the formula after expansion, or its closing `$`.
    Expanded(u32),
    /// The macro of this index in the step of the expansion at which it lacks an argument.
    Macro(u32),
    /// The first `$` of the formula.
    First,
    /// None.
    Nowhere,
}

/// The numbers that a status has of a fault; `None` for those of which it has a byte or nothing.
pub fn fault_numbers(fault: DocError) -> Option<Numbers>
    ensures { result ≡ fault_numbers fault }
{
    match fault {
        DocError::Outside { n, place, cause } => Some(Numbers::Token(n, place, cause.number())),
        DocError::Expand { n, cause } => match cause {
            ExpandError::MissingArgument(index) => Some(Numbers::Token(n, index, MISSING_ARGUMENT)),
            ExpandError::Budget { .. } | ExpandError::TooLong => Some(Numbers::Formula(n)),
            ExpandError::Unbalanced(_) | ExpandError::OutOfMemory => None,
        },
        DocError::Read { n, cause } => match cause.place() {
            Some(index) => Some(Numbers::Token(n, index, cause.number())),
            None => None,
        },
        DocError::Total { n, .. } => Some(Numbers::Formula(n)),
        DocError::Pages(page) => Some(Numbers::Page(u64::from(page))),
        DocError::Source(_) | DocError::OutOfMemory => None,
    }
}

/// Whether a fault has these numbers.
pub fn has_numbers(numbers: Numbers, fault: DocError) -> bool
    ensures { result ≡ has_numbers numbers fault }
{
    fault_numbers(fault).is_some_and(|found| is_same(found, numbers))
}

/// At which token a fault of the reading is.
pub fn fault_token(fault: DocError) -> FaultToken
    ensures { result ≡ fault_token fault }
{
    match fault {
        DocError::Outside { place, cause, .. } => match cause {
            OutsideCause::OpenFormula => FaultToken::Unmatched(place),
            _ => FaultToken::OfSource(place),
        },
        DocError::Expand { cause, .. } => match cause {
            ExpandError::MissingArgument(index) => FaultToken::Macro(index),
            ExpandError::Budget { .. } | ExpandError::TooLong => FaultToken::First,
            ExpandError::Unbalanced(_) | ExpandError::OutOfMemory => FaultToken::Nowhere,
        },
        DocError::Read { cause, .. } => match cause.place() {
            Some(index) => FaultToken::Expanded(index),
            None => FaultToken::Nowhere,
        },
        DocError::Total { .. } | DocError::Pages(_) => FaultToken::First,
        DocError::Source(_) | DocError::OutOfMemory => FaultToken::Nowhere,
    }
}
