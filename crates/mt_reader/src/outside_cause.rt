//! Why a token outside of formulas is refused.
ghost use Rattle.std.specs.Prelude.{◌≡◌};
ghost use Rattle.mt_scaled.specs.Meanings.{IsLine, cause_text};
ghost use Rattle.mt_reader.specs.Causes.{outside_causes, outside_number};

use mt_token::FIRST_OUTSIDE_CAUSE;
use thiserror::Error;

/// Why a token outside of formulas is refused. Its place is an index in the tokens of the source, counted from 0.
#[derive(Clone, Copy, Debug, PartialEq, Eq, Error)]
pub enum OutsideCause {
    /// A token that is not allowed there.
    #[error("it is not allowed there")]
    Misplaced,
    /// A formula without an end, or one in which a `}` closes no group; the place is that of its first `$`.
    #[error("the formula has no end")]
    OpenFormula,
    /// A definition without a name or with a bad list of parameters, at the first token that does not fit, or with a
    /// `#` in its body that no digit of a parameter follows, at the `#`.
    #[error("a name, a parameter or a body is wanted")]
    BadDefinition,
    /// A body without its `}`; the place is that of its `{`.
    #[error("the body has no end")]
    OpenBody,
    /// A definition that would make a 1,001st name of the user's own, at its `\def`.
    #[error("too many names are defined")]
    TooManyNames,
    /// An assignment with a bad character or code, at its `\mathcode` or `\delcode`.
    #[error("a character or its code is wrong")]
    BadAssignment,
}

impl OutsideCause {
    /// The number of the cause, from [`FIRST_OUTSIDE_CAUSE`] in the order of the variants.
    pub fn number(self) -> u8
        ensures { result ≡ outside_number self }
    {
        match self {
            OutsideCause::Misplaced => FIRST_OUTSIDE_CAUSE,
            OutsideCause::OpenFormula => FIRST_OUTSIDE_CAUSE + 1,
            OutsideCause::BadDefinition => FIRST_OUTSIDE_CAUSE + 2,
            OutsideCause::OpenBody => FIRST_OUTSIDE_CAUSE + 3,
            OutsideCause::TooManyNames => FIRST_OUTSIDE_CAUSE + 4,
            OutsideCause::BadAssignment => FIRST_OUTSIDE_CAUSE + 5,
        }
    }
}

/// What the cause of a number means, in a line for a person. Numbers of no cause have an empty text.
pub fn outside_cause_text(cause: u8) -> &'static str
    ensures is { result.now ≡ cause_text outside_causes cause }
    ensures line { IsLine result.now }
{
    match cause {
        31 => "this is not allowed outside formulas",
        32 => "the formula has no closing $, or braces that do not match",
        33 => "invalid \\def: expected a name, the parameters #1, #2 and so on, and a body in { }",
        34 => "the body of this \\def has no closing }",
        35 => "at most 1,000 macros can be defined",
        36 => "invalid character or code after \\mathcode or \\delcode",
        _ => "",
    }
}
