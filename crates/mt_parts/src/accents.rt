//! An accent over a nucleus (The TeXbook, Appendix G, rule 12; tex.web §738 to §742).
ghost use Rattle.std.specs.Prelude.{◌≡◌, ◌≤◌, ◌^◌, ◌*◌, ◌+◌, ◌+ℤ◌, ◌-ℤ◌, ◌&&◌, ◌∷◌, [], ℕ, max, neg_ℤ, pos, int_le, IfOk, IsOk, IsTrue, List, Ok, OnOk};
ghost use Rattle.std.specs.Int.{int_max, int_min};
ghost use Rattle.mt_scaled.specs.Number.{Within, half_of};
ghost use Rattle.mt_tfm.specs.Font.{exists, width_of, param_of};
ghost use Rattle.mt_box.specs.declared.place.Place.{Place};
ghost use Rattle.mt_box.specs.declared.place.Place.TheVariants.{Glyph};
ghost use Rattle.mt_box.specs.Extents.{ExtentsInRange};
ghost use Rattle.mt_box.specs.Layout.{layout_of};
ghost use Rattle.mt_box.specs.marks.Layers.{begun, joined, put_on, swapped_layers, top};
ghost use Rattle.mt_rules.specs.Calls.{PartAnswers};
ghost use Rattle.mt_rules.specs.OnMarks.{SetsOn, layout_with};
ghost use Rattle.mt_rules.specs.Symbols.{find_symbol};
ghost use Rattle.mt_rules.specs.Accents;

use crate::boxed::boxed;
use mt_box::{Extents, Mark, Marks, Move, Packed};
use mt_family::{FontSet, Size};
use mt_rules::{PartError, Symbol, extents_without_italic, tested_extents, width_with_italic};
use mt_scaled::Length;
use mt_tfm::Font;
use std::alloc::{AllocError, Global};

/// A nucleus with an accent over it. `plain` is what the nucleus reaches without its scripts, and
/// the body has those that belong under the accent. `skew` moves the accent to the right. It and
/// the width and the height of `plain` are at most 2^40 in size. The body's level is at most
/// 2^20 - 4. The accent's symbol is found at this size.
///
/// The accent is the symbol's character, or one of its next larger ones: as far along as they
/// exist and are not wider than `plain`. With its italic correction it is in the middle of that
/// width. Its baseline is above the body's by its own depth and, where `plain` is higher than the
/// x-height of the accent's font, by the difference too. The width and the depth are those of the
/// body; the height is the body's, or that of the accent's top where it is higher.
///
/// Refused with `Overflow` of the first extent out of range of the accent's glyph, and then of the
/// whole; and with `OutOfMemory`.
pub fn accent_box(
    alloc: Global,
    fonts: &FontSet,
    size: Size,
    accent: Symbol,
    skew: i64,
    plain: Extents,
    body: Packed,
) -> Result<Packed, PartError>
    requires found { IsOk (find_symbol fonts.now size accent) }
    requires skew { Within (2 ^ 40) skew }
    requires plain_width { Within (2 ^ 40) plain.width }
    requires plain_height { Within (2 ^ 40) plain.height }
    requires level { body.level + 4 ≤ 2 ^ 20 }
    ensures is { (n : ℕ) → find_symbol fonts.now size accent ≡ Ok n
        → PartAnswers result (Accents.accent fonts.now n accent.code skew plain (layout_of body)) }
    ensures level { IfOk result (λ b. b.level ≡ max body.level 1 + 1) }
    ensures in_range { IfOk result (λ b. ExtentsInRange b.extents) }
{
    let (under, level) = (body.extents(), body.level().max(1) + 1);
    let mut marks = Marks::of_box(alloc, body)?;
    let skew = Length { sp: skew };
    let set = accent_on_marks(&mut marks, fonts, size, accent, skew, plain, under);
    boxed(marks, set, level)
}

/// The layout on top with an accent over it: what it reaches. `plain` is what the nucleus reaches without its scripts;
/// `skew`, its width and its height are at most 2^40 in size. The accent's symbol is found at this size.
///
/// The place of the accent and the order of refusals are those of `accent_box`.
pub fn accent_on_marks(
    marks: &mut Marks,
    fonts: &FontSet,
    size: Size,
    accent: Symbol,
    skew: Length,
    plain: Extents,
    body: Extents,
) -> Result<Extents, PartError>
    requires found { IsOk (find_symbol fonts.now size accent) }
    requires skew { Within (2 ^ 40) skew.sp }
    requires plain_width { Within (2 ^ 40) plain.width }
    requires plain_height { Within (2 ^ 40) plain.height }
    requires body { ExtentsInRange body }
    ensures is { (k : ℕ) → find_symbol fonts.now size accent ≡ Ok k → (n : List Place) → (rest : List (List Place)) → marks.old ≡ n ∷ rest
        → SetsOn result (top marks.new) (Accents.accent fonts.now k accent.code skew.sp plain (layout_with body n)) }
    ensures rest { (n : List Place) → (rest : List (List Place)) → marks.old ≡ n ∷ rest
        → OnOk result (marks.new ≡ top marks.new ∷ rest) }
    ensures in_range { IfOk result ExtentsInRange }
{
    let Some(number) = fonts.number_of(accent.fam, size) else {
        unreachable!();
    };
    let Some(font) = fonts.font(number) else {
        unreachable!();
    };
    let code = widest_code(font, Length { sp: plain.width }, accent.code);
    character_over(marks, number, font, code, skew, plain, body)
}

// A character of a font over the layout on top. Its glyph is tested first.
fn character_over(
    marks: &mut Marks,
    number: u16,
    font: &Font,
    code: u8,
    skew: Length,
    plain: Extents,
    body: Extents,
) -> Result<Extents, PartError>
    requires there { IsTrue (exists font.now code) }
    requires skew { Within (2 ^ 40) skew.sp }
    requires plain_width { Within (2 ^ 40) plain.width }
    requires plain_height { Within (2 ^ 40) plain.height }
    requires body { ExtentsInRange body }
    ensures is { (n : List Place) → (rest : List (List Place)) → marks.old ≡ n ∷ rest
        → SetsOn result (top marks.new) (Accents.accent_by_code number font.now code skew.sp plain (layout_with body n)) }
    ensures rest { (n : List Place) → (rest : List (List Place)) → marks.old ≡ n ∷ rest
        → OnOk result (marks.new ≡ top marks.new ∷ rest) }
    ensures in_range { IfOk result ExtentsInRange }
{
    let glyph = tested_extents(extents_without_italic(font, code))?;
    let x = skew.plus(shift_to_middle(plain, width_with_italic(font, code)));
    let y = raise_of_accent(x_height_of(font), plain, body, glyph);
    let extents = tested_extents(accented_extents(y, glyph, body))?;
    put_first(marks, number, code, x, y)?;
    Ok(extents)
}

// A glyph before the other marks of the top layout.
fn put_first(
    marks: &mut Marks,
    number: u16,
    code: u8,
    x: Length,
    y: Length,
) -> Result<(), AllocError>
    requires x { Within (2 ^ 42) x.sp }
    requires y { Within (2 ^ 42) y.sp }
    ensures { OnOk result (marks.new ≡ joined (swapped_layers 0 (put_on (Glyph number code x.sp (neg_ℤ y.sp) ∷ []) (begun marks.old)))) }
{
    marks.begin()?;
    let at = Move {
        right: x.sp,
        up: y.sp,
    };
    marks.put(at, Mark::Glyph { font: number, code })?;
    marks.swap(0);
    marks.join();
    Ok(())
}

// The last character of the chain of next larger ones before one that is wider, or does not exist.
fn widest_code(font: &Font, width: Length, start: u8) -> u8
    requires { IsTrue (exists font.now start) }
    ensures is { result ≡ Accents.accent_code font.now width.sp start }
    ensures there { IsTrue (exists font.now result) }
{
    let mut code = start;
    for _turn in 0..256u32 {
        let Some(larger) = font.larger(code) else {
            return code;
        };
        if !is_within(font, width, larger) {
            return code;
        }
        code = larger;
    }
    code
}

// Whether a character exists and is at most so wide.
#[tactic(auto, using(std::proofs::lemmas::Int::ints))]
fn is_within(font: &Font, width: Length, code: u8) -> bool
    ensures { result ≡ (exists font.now code && int_le (width_of font.now code) width.sp) }
{
    font.exists(code) && font.width(code) <= width.sp
}

// The height of the small letters of the accent's font.
fn x_height_of(font: &Font) -> Length
    ensures is { result.sp ≡ param_of font.now 5 }
    ensures small { Within (2 ^ 31) result.sp }
{
    Length { sp: font.param(5) }
}

// How far to the right a width starts that is in the middle of another.
fn shift_to_middle(plain: Extents, width: Length) -> Length
    requires plain { Within (2 ^ 40) plain.width }
    requires width { Within (2 ^ 32) width.sp }
    ensures is { result.sp ≡ half_of (plain.width -ℤ width.sp) }
    ensures small { Within (3 * 2 ^ 38) result.sp }
{
    Length { sp: plain.width }.minus(width).half()
}

// How far the accent's baseline is above the body's.
#[tactic(auto, using(std::proofs::lemmas::Int::ints, std::proofs::lemmas::Int::clamps))]
fn raise_of_accent(
    accent_x_height: Length,
    plain: Extents,
    body: Extents,
    accent: Extents,
) -> Length
    requires x_height { Within (2 ^ 31) accent_x_height.sp }
    requires plain { Within (2 ^ 40) plain.height }
    requires body { ExtentsInRange body }
    requires accent { ExtentsInRange accent }
    ensures is { result.sp ≡ (body.height -ℤ (int_min plain.height accent_x_height.sp
        +ℤ (body.height -ℤ plain.height))) +ℤ accent.depth }
    ensures small { Within (2 ^ 42) result.sp }
{
    let height = Length { sp: body.height };
    let plain_height = Length { sp: plain.height };
    let delta = plain_height
        .at_most(accent_x_height)
        .plus(height.minus(plain_height));
    height.minus(delta).plus(Length { sp: accent.depth })
}

// What the whole is to reach.
#[tactic(auto, using(std::proofs::lemmas::Int::ints, std::proofs::lemmas::Int::clamps))]
fn accented_extents(y: Length, accent: Extents, body: Extents) -> Extents
    requires y { Within (2 ^ 42) y.sp }
    requires accent { ExtentsInRange accent }
    requires body { ExtentsInRange body }
    ensures width { result.width ≡ body.width }
    ensures height { result.height ≡ int_max body.height (y.sp +ℤ accent.height) }
    ensures depth { result.depth ≡ body.depth }
{
    let top = y.plus(Length { sp: accent.height });
    Extents {
        width: body.width,
        height: top.at_least(Length { sp: body.height }).sp,
        depth: body.depth,
    }
}
