//! A radical with its degree (plain TeX's \root; The TeXbook, chapter 16 and Appendix B).
ghost use Rattle.std.specs.Prelude.{◌≡◌, ◌<◌, ◌^◌, ◌+◌, ◌-ℤ◌, ◌∷◌, [], length, max, pos, IfOk, List, OnOk};
ghost use Rattle.mt_scaled.specs.Number.{Within, max_dimen};
ghost use Rattle.mt_box.specs.declared.place.Place.{Place};
ghost use Rattle.mt_box.specs.Extents.{ExtentsInRange};
ghost use Rattle.mt_box.specs.Layout.{layout_of};
ghost use Rattle.mt_box.specs.Rows.{PieceBox, PieceKern, piece_values, row_level, AllModest};
ghost use Rattle.mt_box.specs.marks.Layers.{top};
ghost use Rattle.mt_rules.specs.Calls.{RowAnswers};
ghost use Rattle.mt_rules.specs.OnMarks.{SetsOn, layout_with};
ghost use Rattle.mt_rules.specs.Roots.{degree_raise, root_row as row_of_root};
ghost use Rattle.mt_parts.specs.KernTests.{TestsKern, TestsKerns};
ghost use Rattle.mt_parts.specs.PackedRoots.{packed_root};

use crate::rows::{on_baseline, raised, row_on_marks};
use mt_box::{Extents, Marks, PackError, Packed, Piece, Row, RowPart};
use mt_family::FontSet;
use mt_rules::{PartError, Style, in_points};
use mt_scaled::{Length, in_range, xn_over_d};
use std::alloc::{AllocError, Global};

// The kern before the degree, 5mu, in 65536ths of a math unit.
const BEFORE_DEGREE: Length = Length { sp: 327680 };
// The kern behind it, -10mu.
const BEHIND_DEGREE: Length = Length { sp: -655360 };

/// A radical with its degree: a kern of 5mu, the degree, raised by 0.6 of the radical's height less its depth, a kern
/// of -10mu, the radical. The math units are those of the style. The level of each box is below 2^20.
///
/// Refused with `Overflow` of the first kern, in scaled points, that is out of range, and with `OutOfMemory`.
pub fn root_row(
    alloc: Global,
    fonts: &FontSet,
    style: Style,
    degree: Packed,
    radical: Packed,
) -> Result<Row, PackError>
    requires degree_level { degree.level < 2 ^ 20 }
    requires radical_level { radical.level < 2 ^ 20 }
    ensures is { RowAnswers result (row_of_root fonts.now style (layout_of degree) (layout_of radical)) }
    ensures few { IfOk result (λ row. length row ≡ 4) }
    ensures modest { IfOk result AllModest }
    ensures level { IfOk result (λ row. row_level row ≡ max degree.level radical.level + 1) }
{
    let kerns = root_kerns(fonts, style)?;
    let raise = raise_of_degree(radical.extents());
    Ok(row_with_degree(alloc, kerns, raise, degree, radical)?)
}

fn row_with_degree(
    alloc: Global,
    kerns: RootKerns,
    raise: Length,
    degree: Packed,
    radical: Packed,
) -> Result<Row, AllocError>
    requires before { Within max_dimen kerns.before.sp }
    requires behind { Within max_dimen kerns.behind.sp }
    requires raise { Within (2 ^ 31) raise.sp }
    requires degree { degree.level < 2 ^ 20 }
    requires radical { radical.level < 2 ^ 20 }
    ensures is { IfOk result (λ row. piece_values row ≡ PieceKern kerns.before.sp ∷ PieceBox raise.sp (layout_of degree)
        ∷ PieceKern kerns.behind.sp ∷ PieceBox (pos 0) (layout_of radical) ∷ []) }
    ensures few { IfOk result (λ row. length row ≡ 4) }
    ensures modest { IfOk result AllModest }
    ensures level { IfOk result (λ row. row_level row ≡ max degree.level radical.level + 1) }
{
    let pieces = vec![in alloc;
        Piece::Kern(kerns.before.sp),
        Piece::Boxed {
            raise: raise.sp,
            body: degree,
        },
        Piece::Kern(kerns.behind.sp),
        Piece::Boxed {
            raise: 0,
            body: radical,
        },
    ]?;
    Ok(Row::from_vec(pieces))
}

/// The layouts of a degree and, on top, of its radical become the row of both, which is tested: what it reaches.
///
/// The kerns and the order of refusals are those of `root_row`; then comes the first extent of the row that is out of
/// range.
pub fn root_on_marks(
    marks: &mut Marks,
    fonts: &FontSet,
    style: Style,
    degree: Extents,
    radical: Extents,
) -> Result<Extents, PartError>
    requires degree { ExtentsInRange degree }
    requires radical { ExtentsInRange radical }
    ensures is { (d r : List Place) → (rest : List (List Place)) → marks.old ≡ r ∷ d ∷ rest
        → SetsOn result (top marks.new) (packed_root fonts.now style (layout_with degree d) (layout_with radical r)) }
    ensures rest { (d r : List Place) → (rest : List (List Place)) → marks.old ≡ r ∷ d ∷ rest
        → OnOk result (marks.new ≡ top marks.new ∷ rest) }
    ensures in_range { IfOk result ExtentsInRange }
{
    let kerns = root_kerns(fonts, style)?;
    let raise = raise_of_degree(radical);
    row_on_marks(
        marks,
        &[
            RowPart::Gap(kerns.before.sp),
            RowPart::Layout(raised(degree, raise)),
            RowPart::Gap(kerns.behind.sp),
            RowPart::Layout(on_baseline(radical)),
        ],
    )
}

/// The kerns round a degree.
#[derive(Clone, Copy, Debug, PartialEq, Eq)]
pub struct RootKerns {
    /// Before the degree.
    pub before: Length,
    /// Behind it.
    pub behind: Length,
}

/// The kerns round a degree, 5mu and -10mu in the math units of the style.
///
/// Refused with `Overflow` of the first that is out of range, in scaled points, and never with `OutOfMemory`.
pub fn root_kerns(fonts: &FontSet, style: Style) -> Result<RootKerns, PackError>
    ensures is { TestsKerns result fonts.now style }
    ensures before { IfOk result (λ kerns. Within max_dimen kerns.before.sp) }
    ensures behind { IfOk result (λ kerns. Within max_dimen kerns.behind.sp) }
{
    let before = tested_kern(in_points(fonts, style, BEFORE_DEGREE))?;
    let behind = tested_kern(in_points(fonts, style, BEHIND_DEGREE))?;
    Ok(RootKerns { before, behind })
}

// A kern that is in range.
fn tested_kern(amount: Length) -> Result<Length, PackError>
    ensures is { TestsKern result amount.sp }
    ensures in_range { IfOk result (λ kern. Within max_dimen kern.sp) }
{
    if !in_range(amount.sp) {
        return Err(PackError::Overflow(amount.sp));
    }
    Ok(amount)
}

// How much more height than depth it has.
#[tactic(auto, using(std::proofs::lemmas::Int::ints))]
fn height_less_depth(radical: Extents) -> Length
    requires { ExtentsInRange radical }
    ensures is { result.sp ≡ radical.height -ℤ radical.depth }
    ensures small { Within (2 ^ 31) result.sp }
{
    Length {
        sp: radical.height - radical.depth,
    }
}

/// How far a degree is raised: 0.6 of what the radical has more height than depth. The extents of the radical are in range.
#[tactic(auto, using(std::proofs::lemmas::Int::ints))]
pub fn raise_of_degree(radical: Extents) -> Length
    requires { ExtentsInRange radical }
    ensures is { result.sp ≡ degree_raise radical }
    ensures small { Within (2 ^ 31) result.sp }
{
    Length {
        sp: xn_over_d(height_less_depth(radical).sp, 39322, 65536),
    }
}
