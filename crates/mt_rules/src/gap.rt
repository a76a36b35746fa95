//! The gap between two lines (plain TeX's \baselineskip, \lineskip and \lineskiplimit), and between
//! two rows of equations (its \openup\jot).
ghost use Rattle.std.specs.Prelude.{◌≡◌, ◌^◌};
ghost use Rattle.mt_scaled.specs.Number.{Within, max_dimen};
ghost use Rattle.mt_rules.specs.Tables.{open_gap as gap_of_equations};
ghost use Rattle.mt_rules.specs.Vcenter.{line_gap as gap_of_lines};

use mt_scaled::Length;

// How far baselines are apart: 12pt (plain TeX's \baselineskip).
const BASELINE_SKIP: Length = Length { sp: 786432 };
// The gap where it would be negative: 1pt (plain TeX's \lineskip, with a \lineskiplimit of 0pt).
const LINE_SKIP: Length = Length { sp: 65536 };

// How far baselines of equations are apart: 15pt (plain TeX's \baselineskip, opened up by \jot).
const OPEN_SKIP: Length = Length { sp: 983040 };
// The least gap that stays as it is: 3pt (plain TeX's \lineskiplimit, opened up by \jot).
const OPEN_LIMIT: Length = Length { sp: 196608 };
// The gap where it would be less: 4pt (plain TeX's \lineskip, opened up by \jot).
const OPEN_GAP: Length = Length { sp: 262144 };

/// The gap from the bottom of a line of this depth to the top of the next one, of this height, in
/// scaled points. Baselines are 12pt apart: the gap is 12pt less the depth and the height. Where
/// that would be negative, it is 1pt (The TeXbook, chapter 12; tex.web, section 679).
#[tactic(auto, using(std::proofs::lemmas::Int::ints))]
pub fn line_gap(depth: Length, height: Length) -> Length
    requires depth { Within max_dimen depth.sp }
    requires height { Within max_dimen height.sp }
    ensures is { result.sp ≡ gap_of_lines depth.sp height.sp }
    ensures small { Within (2 ^ 32) result.sp }
{
    let gap = BASELINE_SKIP.minus(depth).minus(height);
    if gap.is_negative() { LINE_SKIP } else { gap }
}

/// The gap from the bottom of a row of equations of this depth to the top of the next one, of this
/// height, in scaled points. Baselines are 15pt apart: the gap is 15pt less the depth and the
/// height. Where that would be less than 3pt, it is 4pt (plain TeX's `\openup\jot`; The TeXbook,
/// chapter 19 and Appendix B).
#[tactic(auto, using(std::proofs::lemmas::Int::ints))]
pub fn open_gap(depth: Length, height: Length) -> Length
    requires depth { Within max_dimen depth.sp }
    requires height { Within max_dimen height.sp }
    ensures is { result.sp ≡ gap_of_equations depth.sp height.sp }
    ensures small { Within (2 ^ 32) result.sp }
{
    let gap = OPEN_SKIP.minus(depth).minus(height);
    if gap.is_less(OPEN_LIMIT) {
        OPEN_GAP
    } else {
        gap
    }
}
