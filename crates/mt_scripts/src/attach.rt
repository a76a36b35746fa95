//! A nucleus's row with its scripts (The TeXbook, Appendix G, rule 18; tex.web §756 to §759).
ghost use Rattle.std.specs.Prelude.{◌≡◌, ◌≤◌, ◌<◌, ◌^◌, ◌+◌, ◌++◌, ◌∷◌, [], length, max, pos, Some, None, Option, IfOk, ◌+ℤ◌, neg_ℤ, IsErrOf, OnOk, List};
ghost use Rattle.std.specs.Option.{ForSome, option_map};
ghost use Rattle.mt_scaled.specs.Number.{Within};
ghost use Rattle.mt_box.specs.Layout.{layout_of};
ghost use Rattle.mt_box.specs.Rows.{PieceBox, piece_values, row_level, AllMeasurable, AllModest, PieceValue};
ghost use Rattle.mt_rules.specs.Calls.{RowAnswers};
ghost use Rattle.mt_rules.specs.Scripts;
ghost use Rattle.mt_scripts.specs.Levels.{script_level};
ghost use Rattle.mt_scripts.specs.Reaches.{ReachesWithin, RowReachesWithin};
ghost use Rattle.mt_scripts.specs.Nuclei.{IsNucleusOf};
ghost use Rattle.std.specs.Int.{int_max};
ghost use Rattle.mt_box.specs.declared.place.Place.{Place};
ghost use Rattle.mt_box.specs.Extents.{ExtentsInRange};
ghost use Rattle.mt_box.specs.marks.Layers.{top};
ghost use Rattle.mt_box.specs.marks.RowParts.{IsNear};
ghost use Rattle.mt_rules.specs.Setting.{make_box};
ghost use Rattle.mt_rules.specs.OnMarks.{RowSetsOn, BoxSetsOn, layout_with};

use crate::script_shifts;
use mt_box::{
    Extents, Marks, Move, PackError, Packed, Piece, Row, RowPiece, row_extents, with_extents,
};
use mt_family::FontSet;
use mt_rules::{Shifts, Style, tested_extents};
use mt_scaled::Length;
use std::alloc::{AllocError, Global};

/// The row of a nucleus with its scripts after it. `delta` is the italic correction that the
/// nucleus does not have: with both scripts the superscript is so far to the right. Without
/// scripts it is the nucleus's row.
///
/// The row has at most 2^21 pieces; each number in it is at most 2^40 in size, and so is `delta`.
/// The level of each script is at most 2^20 - 4. Where each box in the row has a level below 2^20,
/// and the row's height and depth are at most 2^33 in size, the answer is such a row too (the
/// clause `modest`), which can be packed.
///
/// Refused with `Overflow` of the first extent out of range of what is made in this order: the
/// superscript and the subscript, each made wider, and with both scripts their box; and with
/// `OutOfMemory`.
#[tactic(auto, unfolding(mt_rules::specs::Scripts::row_with_scripts))]
pub fn attach_scripts(
    alloc: Global,
    fonts: &FontSet,
    style: Style,
    nucleus: Row,
    delta: i64,
    sup: Option<Packed>,
    sub: Option<Packed>,
) -> Result<Row, PackError>
    requires few { length nucleus ≤ 2 ^ 21 }
    requires measurable { AllMeasurable nucleus }
    requires delta { Within (2 ^ 40) delta }
    requires sup_level { ForSome sup (λ b. b.level + 4 ≤ 2 ^ 20) }
    requires sub_level { ForSome sub (λ b. b.level + 4 ≤ 2 ^ 20) }
    ensures is { RowAnswers result (Scripts.row_with_scripts fonts.now style
        (piece_values nucleus) delta
        (option_map layout_of sup) (option_map layout_of sub)) }
    ensures few { IfOk result (λ row. length row ≤ length nucleus + 1) }
    ensures level { IfOk result (λ row. row_level row
        ≤ max (row_level nucleus) (max (script_level sup) (script_level sub) + 2)) }
    ensures modest { AllModest nucleus → RowReachesWithin (2 ^ 33) nucleus → IfOk result AllModest }
{
    match (sup, sub) {
        (None, None) => Ok(nucleus),
        (Some(sup), None) => attach_sup(fonts, style, nucleus, sup),
        (None, Some(sub)) => attach_sub(fonts, style, nucleus, sub),
        (Some(sup), Some(sub)) => {
            attach_both(alloc, fonts, style, nucleus, Length { sp: delta }, sup, sub)
        }
    }
}

fn attach_sup(fonts: &FontSet, style: Style, nucleus: Row, sup: Packed) -> Result<Row, PackError>
    requires few { length nucleus ≤ 2 ^ 21 }
    requires measurable { AllMeasurable nucleus }
    requires level { sup.level + 4 ≤ 2 ^ 20 }
    ensures is { RowAnswers result (Scripts.row_with_scripts fonts.now style
        (piece_values nucleus) (pos 0)
        (Some (layout_of sup)) None) }
    ensures few { IfOk result (λ row. length row ≡ length nucleus + 1) }
    ensures level { IfOk result (λ row. row_level row ≡ max (row_level nucleus) (sup.level + 1)) }
    ensures modest { AllModest nucleus → RowReachesWithin (2 ^ 33) nucleus → IfOk result AllModest }
{
    let piece = sup_on_marks(fonts, style, nucleus_of(&nucleus), sup.extents())?;
    Ok(row_with(nucleus, piece, with_extents(sup, piece.extents))?)
}

fn attach_sub(fonts: &FontSet, style: Style, nucleus: Row, sub: Packed) -> Result<Row, PackError>
    requires few { length nucleus ≤ 2 ^ 21 }
    requires measurable { AllMeasurable nucleus }
    requires level { sub.level + 4 ≤ 2 ^ 20 }
    ensures is { RowAnswers result (Scripts.row_with_scripts fonts.now style
        (piece_values nucleus) (pos 0)
        None (Some (layout_of sub))) }
    ensures few { IfOk result (λ row. length row ≡ length nucleus + 1) }
    ensures level { IfOk result (λ row. row_level row ≡ max (row_level nucleus) (sub.level + 1)) }
    ensures modest { AllModest nucleus → RowReachesWithin (2 ^ 33) nucleus → IfOk result AllModest }
{
    let piece = sub_on_marks(fonts, style, nucleus_of(&nucleus), sub.extents())?;
    Ok(row_with(nucleus, piece, with_extents(sub, piece.extents))?)
}

fn attach_both(
    alloc: Global,
    fonts: &FontSet,
    style: Style,
    nucleus: Row,
    delta: Length,
    sup: Packed,
    sub: Packed,
) -> Result<Row, PackError>
    requires few { length nucleus ≤ 2 ^ 21 }
    requires measurable { AllMeasurable nucleus }
    requires delta { Within (2 ^ 40) delta.sp }
    requires sup_level { sup.level + 4 ≤ 2 ^ 20 }
    requires sub_level { sub.level + 4 ≤ 2 ^ 20 }
    ensures is { RowAnswers result (Scripts.row_with_scripts fonts.now style
        (piece_values nucleus) delta.sp
        (Some (layout_of sup)) (Some (layout_of sub))) }
    ensures few { IfOk result (λ row. length row ≡ length nucleus + 1) }
    ensures level { IfOk result (λ row. row_level row
        ≡ max (row_level nucleus) (max sup.level sub.level + 2)) }
    ensures modest { AllModest nucleus → RowReachesWithin (2 ^ 33) nucleus → IfOk result AllModest }
{
    let (above, below) = (sup.extents(), sub.extents());
    let level = sup.level().max(sub.level()) + 1;
    let mut marks = Marks::of_box(alloc, sup)?;
    marks.push_box(&sub)?;
    let beside = nucleus_of(&nucleus);
    let piece = both_on_marks(&mut marks, fonts, style, beside, delta, above, below)?;
    let both = marks.into_box(piece.extents, level)?;
    Ok(row_with(nucleus, piece, both)?)
}

fn nucleus_of(row: &Row) -> Nucleus
    requires few { length row.now ≤ 2 ^ 21 }
    requires measurable { AllMeasurable row.now }
    ensures is { IsNucleusOf (piece_values row.now) result }
    ensures near { ReachesWithin (2 ^ 41) result.extents }
    ensures low { RowReachesWithin (2 ^ 33) row.now → ReachesWithin (2 ^ 33) result.extents }
{
    Nucleus {
        extents: row_extents(row),
        glyph: begins_with_glyph(row),
    }
}

fn begins_with_glyph(row: &Row) -> bool
    ensures { result ≡ Scripts.begins_with_glyph (piece_values row.now) }
{
    matches!(row.as_slice(), [Piece::Glyph { .. }, ..])
}

// The row with a box more, raised by so much. It is modest where the row was, the box's level is
// below 2^20, and the raise is at most 2^38 in size.
fn row_with(row: Row, piece: RowPiece, body: Packed) -> Result<Row, AllocError>
    requires { Within (2 ^ 48) piece.raise }
    ensures is { IfOk result (λ r. piece_values r ≡ piece_values row
        ++ PieceBox piece.raise (layout_of body) ∷ []) }
    ensures few { IfOk result (λ r. length r ≡ length row + 1) }
    ensures level { IfOk result (λ r. row_level r ≡ max (row_level row) (body.level + 1)) }
    ensures modest { AllModest row → body.level < 2 ^ 20 → Within (2 ^ 38) piece.raise
        → IfOk result AllModest }
{
    let mut pieces = row.into_vec();
    pieces.push(Piece::Boxed {
        raise: piece.raise,
        body,
    })?;
    Ok(Row::from_vec(pieces))
}

// How much wider each script is made: 0.5pt (plain TeX's \scriptspace).
const SCRIPT_SPACE: i64 = 32768;

/// What a nucleus reaches that has scripts, and whether it begins with a glyph.
#[derive(Clone, Copy)]
pub struct Nucleus {
    /// What its row reaches.
    pub extents: Extents,
    /// Whether its row begins with a glyph.
    pub glyph: bool,
}

// The shifts of scripts beside a nucleus.
fn shifts_beside(
    fonts: &FontSet,
    style: Style,
    nucleus: Nucleus,
    sup: Option<Extents>,
    sub: Option<Extents>,
) -> Shifts
    requires nucleus { ReachesWithin (2 ^ 41) nucleus.extents }
    requires sup { ForSome sup ExtentsInRange }
    requires sub { ForSome sub ExtentsInRange }
    ensures up { (row : List PieceValue) → IsNucleusOf row nucleus
        → result.up ≡ (Scripts.shifts_beside fonts.now style row sup sub).up }
    ensures down { (row : List PieceValue) → IsNucleusOf row nucleus
        → result.down ≡ (Scripts.shifts_beside fonts.now style row sup sub).down }
    ensures up_small { Within (2 ^ 48) result.up }
    ensures down_small { Within (2 ^ 48) result.down }
    ensures up_near { ReachesWithin (2 ^ 33) nucleus.extents → Within (2 ^ 38) result.up }
    ensures down_near { ReachesWithin (2 ^ 33) nucleus.extents → Within (2 ^ 38) result.down }
{
    script_shifts(fonts, style, nucleus.glyph, nucleus.extents, sup, sub)
}

// What the script made wider reaches, if it is in range then.
fn widened(script: Extents) -> Result<Extents, PackError>
    requires { ExtentsInRange script }
    ensures is { (ps : List Place)
        → BoxSetsOn result ps (make_box (Scripts.widened_script (layout_with script ps))) }
    ensures in_range { IfOk result ExtentsInRange }
    ensures known { IsErrOf result PackError.OutOfMemory → ⊥ }
{
    tested_extents(wider(script))
}

/// A superscript alone, made wider: what it reaches beside the nucleus, and its raise. Its marks are where they are.
///
/// Refused with `Overflow` of its new width, and never with `OutOfMemory`.
#[tactic(auto, unfolding(mt_rules::specs::Scripts::row_with_scripts))]
pub fn sup_on_marks(
    fonts: &FontSet,
    style: Style,
    nucleus: Nucleus,
    sup: Extents,
) -> Result<RowPiece, PackError>
    requires nucleus { ReachesWithin (2 ^ 41) nucleus.extents }
    requires sup { ExtentsInRange sup }
    ensures is { (row : List PieceValue) → (ps : List Place) → IsNucleusOf row nucleus
        → RowSetsOn row result ps (Scripts.row_with_scripts fonts.now style row (pos 0)
        (Some (layout_with sup ps)) None) }
    ensures near { IfOk result IsNear }
    ensures known { IsErrOf result PackError.OutOfMemory → ⊥ }
    ensures in_range { IfOk result (λ p. ExtentsInRange p.extents) }
    ensures low { ReachesWithin (2 ^ 33) nucleus.extents → IfOk result (λ p. Within (2 ^ 38) p.raise) }
{
    let shifts = shifts_beside(fonts, style, nucleus, Some(sup), None);
    let extents = widened(sup)?;
    Ok(RowPiece {
        extents,
        raise: shifts.up,
    })
}

/// A subscript alone, made wider: what it reaches beside the nucleus, and its raise. Its marks are where they are.
///
/// Refused with `Overflow` of its new width, and never with `OutOfMemory`.
#[tactic(auto, unfolding(mt_rules::specs::Scripts::row_with_scripts))]
pub fn sub_on_marks(
    fonts: &FontSet,
    style: Style,
    nucleus: Nucleus,
    sub: Extents,
) -> Result<RowPiece, PackError>
    requires nucleus { ReachesWithin (2 ^ 41) nucleus.extents }
    requires sub { ExtentsInRange sub }
    ensures is { (row : List PieceValue) → (ps : List Place) → IsNucleusOf row nucleus
        → RowSetsOn row result ps (Scripts.row_with_scripts fonts.now style row (pos 0)
        None (Some (layout_with sub ps))) }
    ensures near { IfOk result IsNear }
    ensures known { IsErrOf result PackError.OutOfMemory → ⊥ }
    ensures in_range { IfOk result (λ p. ExtentsInRange p.extents) }
    ensures low { ReachesWithin (2 ^ 33) nucleus.extents → IfOk result (λ p. Within (2 ^ 38) p.raise) }
{
    let shifts = shifts_beside(fonts, style, nucleus, None, Some(sub));
    let extents = widened(sub)?;
    Ok(RowPiece {
        extents,
        raise: raise_of_subscript(shifts).sp,
    })
}

/// The superscript and, on top, the subscript become the layout of both: what it reaches beside the nucleus, and its
/// raise.
#[tactic(auto, unfolding(mt_rules::specs::Scripts::row_with_scripts))]
pub fn both_on_marks(
    marks: &mut Marks,
    fonts: &FontSet,
    style: Style,
    nucleus: Nucleus,
    delta: Length,
    sup: Extents,
    sub: Extents,
) -> Result<RowPiece, PackError>
    requires nucleus { ReachesWithin (2 ^ 41) nucleus.extents }
    requires delta { Within (2 ^ 40) delta.sp }
    requires sup { ExtentsInRange sup }
    requires sub { ExtentsInRange sub }
    ensures is { (row : List PieceValue) → (s b : List Place) → (rest : List (List Place))
        → IsNucleusOf row nucleus → marks.old ≡ b ∷ s ∷ rest
        → RowSetsOn row result (top marks.new) (Scripts.row_with_scripts fonts.now style row delta.sp
        (Some (layout_with sup s)) (Some (layout_with sub b))) }
    ensures rest { (s b : List Place) → (rest : List (List Place)) → marks.old ≡ b ∷ s ∷ rest
        → OnOk result (marks.new ≡ top marks.new ∷ rest) }
    ensures near { IfOk result IsNear }
    ensures in_range { IfOk result (λ p. ExtentsInRange p.extents) }
    ensures low { ReachesWithin (2 ^ 33) nucleus.extents → IfOk result (λ p. Within (2 ^ 38) p.raise) }
{
    let shifts = shifts_beside(fonts, style, nucleus, Some(sup), Some(sub));
    let sup = widened(sup)?;
    let sub = widened(sub)?;
    let extents = join_both(marks, delta, distance_between(shifts), sup, sub)?;
    Ok(RowPiece {
        extents,
        raise: raise_of_subscript(shifts).sp,
    })
}

// The layout of both, from the subscript's reference point.
fn join_both(
    marks: &mut Marks,
    delta: Length,
    distance: Length,
    sup: Extents,
    sub: Extents,
) -> Result<Extents, PackError>
    requires delta { Within (2 ^ 40) delta.sp }
    requires distance { Within (2 ^ 49) distance.sp }
    requires sup { ExtentsInRange sup }
    requires sub { ExtentsInRange sub }
    ensures is { (s b : List Place) → (rest : List (List Place)) → marks.old ≡ b ∷ s ∷ rest
        → BoxSetsOn result (top marks.new) (make_box (Scripts.both_scripts delta.sp distance.sp
        (layout_with sup s) (layout_with sub b))) }
    ensures rest { (s b : List Place) → (rest : List (List Place)) → marks.old ≡ b ∷ s ∷ rest
        → OnOk result (marks.new ≡ top marks.new ∷ rest) }
    ensures in_range { IfOk result ExtentsInRange }
{
    let extents = tested_extents(extents_of_both(delta, distance, sup, sub))?;
    let by = Move {
        right: delta.sp,
        up: distance.sp,
    };
    marks.shift(1, by)?;
    marks.join();
    Ok(extents)
}

#[tactic(auto, using(std::proofs::lemmas::Int::ints))]
fn wider(extents: Extents) -> Extents
    requires { ExtentsInRange extents }
    ensures width { result.width ≡ extents.width +ℤ pos 32768 }
    ensures height { result.height ≡ extents.height }
    ensures depth { result.depth ≡ extents.depth }
{
    Extents {
        width: extents.width + SCRIPT_SPACE,
        ..extents
    }
}

// By how much a subscript is raised.
#[tactic(auto, using(std::proofs::lemmas::Int::ints))]
fn raise_of_subscript(shifts: Shifts) -> Length
    requires { Within (2 ^ 48) shifts.down }
    ensures is { result.sp ≡ neg_ℤ shifts.down }
    ensures small { Within (2 ^ 48) result.sp }
    ensures near { Within (2 ^ 38) shifts.down → Within (2 ^ 38) result.sp }
{
    Length { sp: -shifts.down }
}

// The distance between the baselines of both scripts.
#[tactic(auto, using(std::proofs::lemmas::Int::ints))]
fn distance_between(shifts: Shifts) -> Length
    requires up { Within (2 ^ 48) shifts.up }
    requires down { Within (2 ^ 48) shifts.down }
    ensures is { result.sp ≡ shifts.up +ℤ shifts.down }
    ensures small { Within (2 ^ 49) result.sp }
{
    Length {
        sp: shifts.up + shifts.down,
    }
}

#[tactic(auto, using(std::proofs::lemmas::Int::ints, std::proofs::lemmas::Int::clamps))]
fn extents_of_both(delta: Length, distance: Length, sup: Extents, sub: Extents) -> Extents
    requires delta { Within (2 ^ 40) delta.sp }
    requires distance { Within (2 ^ 49) distance.sp }
    requires sup { ExtentsInRange sup }
    requires sub { ExtentsInRange sub }
    ensures width { result.width ≡ int_max (pos 0) (int_max (delta.sp +ℤ sup.width) sub.width) }
    ensures height { result.height ≡ distance.sp +ℤ sup.height }
    ensures depth { result.depth ≡ sub.depth }
{
    let right = delta.plus(Length { sp: sup.width });
    let width = Length { sp: sub.width }.at_least(right).not_negative();
    Extents {
        width: width.sp,
        height: distance.plus(Length { sp: sup.height }).sp,
        depth: sub.depth,
    }
}
