//! What differs between a matrix and equations: where cells are in their columns, the least height
//! and depth of a row, and the gaps between rows.
ghost use Rattle.std.specs.Prelude.{◌≡◌, ◌^◌, ℕ};
ghost use Rattle.mt_scaled.specs.Number.{Within, max_dimen};
ghost use Rattle.mt_align.specs.Looks.{gap_of, inset_of, least_depth, least_height};

use mt_rules::{line_gap, open_gap};
use mt_scaled::Length;

// How a table looks.
#[derive(Clone, Copy)]
pub(crate) enum Look {
    // cells in the middle of their columns, as in plain TeX's \matrix
    Matrix,
    // left sides that end where right sides begin, as in plain TeX's \eqalign
    Equations,
}

// The height of the strut in a row of equations: 8.5pt.
const EQUATION_HEIGHT: Length = Length { sp: 557056 };
// Its depth: 3.5pt.
const EQUATION_DEPTH: Length = Length { sp: 229376 };

impl Look {
    // How far right a cell of this column is, where the column is wider than it by so much.
    pub(crate) fn inset(self, column: usize, slack: Length) -> Length
        requires { Within (2 ^ 62) slack.sp }
        ensures is { result.sp ≡ inset_of self column slack.sp }
        ensures small { (n : ℕ) → Within n slack.sp → Within n result.sp }
    {
        match self {
            Look::Matrix => slack.half(),
            Look::Equations => inset_of_side(column, slack),
        }
    }

    // The least height of a row.
    pub(crate) fn least_height(self) -> Length
        ensures is { result.sp ≡ least_height self }
        ensures small { Within max_dimen result.sp }
    {
        match self {
            Look::Matrix => Length { sp: 0 },
            Look::Equations => EQUATION_HEIGHT,
        }
    }

    // The least depth of a row.
    pub(crate) fn least_depth(self) -> Length
        ensures is { result.sp ≡ least_depth self }
        ensures small { Within max_dimen result.sp }
    {
        match self {
            Look::Matrix => Length { sp: 0 },
            Look::Equations => EQUATION_DEPTH,
        }
    }

    // The gap between a row of this depth and the next one, of this height.
    pub(crate) fn gap(self, depth: Length, height: Length) -> Length
        requires depth { Within max_dimen depth.sp }
        requires height { Within max_dimen height.sp }
        ensures is { result.sp ≡ gap_of self depth.sp height.sp }
        ensures small { Within (2 ^ 32) result.sp }
    {
        match self {
            Look::Matrix => line_gap(depth, height),
            Look::Equations => open_gap(depth, height),
        }
    }
}

// A left side ends at the end of its column, a right side begins where its column begins.
fn inset_of_side(column: usize, slack: Length) -> Length
    requires { Within (2 ^ 62) slack.sp }
    ensures is { result.sp ≡ inset_of Look.Equations column slack.sp }
    ensures small { (n : ℕ) → Within n slack.sp → Within n result.sp }
{
    if column == 0 { slack } else { Length { sp: 0 } }
}
