//! What the causes of fonts and of tokens mean: those of the crates below, and one more of each.
ghost use Rattle.std.specs.Prelude.{◌≡◌};
ghost use Rattle.mt_scaled.specs.Meanings.{IsLine};
ghost use Rattle.mt_status.specs.Meanings.{font_cause, token_cause};

use mt_reader::outside_cause_text;
use mt_scan::read_cause_text;
use mt_tfm::tfm_cause_text;
use mt_token::FIRST_OUTSIDE_CAUSE;

/// The cause of a font with the name and the size of an earlier one: one more than the causes of a
/// [`TfmError`](mt_tfm::TfmError).
pub const SAME_FONT: u8 = 12;

/// The cause of `BadFormula` where a macro lacks an argument. The other causes are the numbers of errors of the crates
/// below.
pub const MISSING_ARGUMENT: u8 = 21;

/// Why a font is refused, in words; empty for other numbers.
pub fn font_cause(cause: u8) -> &'static str
    ensures is { result.now ≡ font_cause cause }
    ensures line { IsLine result.now }
{
    if cause == SAME_FONT {
        "an earlier font in the list has the same name and the same size"
    } else {
        tfm_cause_text(cause)
    }
}

/// Why a token is refused, in words: in a formula, by a macro, or outside of formulas; empty for other numbers.
pub fn token_cause(cause: u8) -> &'static str
    ensures is { result.now ≡ token_cause cause }
    ensures line { IsLine result.now }
{
    if cause == MISSING_ARGUMENT {
        "a macro is missing an argument"
    } else if cause < FIRST_OUTSIDE_CAUSE {
        read_cause_text(cause)
    } else {
        outside_cause_text(cause)
    }
}
