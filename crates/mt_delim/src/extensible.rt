//! Extensible characters on marks (tex.web §713).
ghost use Rattle.std.specs.Prelude.{◌≡◌, ◌^◌, ◌≤◌, ◌+ℤ◌, ◌-ℤ◌, ◌*ℤ◌, ◌*◌, ◌∷◌, neg_ℤ, pos, IsTrue, IfOk, OnOk, Err, ℕ, All, length, replicate, ◌==◌, if◌then◌else◌};
ghost use Rattle.std.specs.List.{slice_get};
ghost use Rattle.mt_scaled.specs.Number.{Within};
ghost use Rattle.mt_tfm.specs.Font.{exists, height_of};
ghost use Rattle.mt_tfm.specs.Checks.{recipe_fits};
ghost use Rattle.mt_box.specs.Extents.{ExtentsInRange};
ghost use Rattle.mt_box.specs.Limits.{max_repeats};
ghost use Rattle.mt_box.specs.marks.Layers.{put_on, top};
ghost use Rattle.mt_rules.specs.Setting.{make_box, pass_unless, TooTall};
ghost use Rattle.mt_rules.specs.declared.part_error.PartError.TheVariants.{TooTall as PartTooTall};
ghost use Rattle.mt_rules.specs.OnMarks.{SetsOn};
ghost use Rattle.mt_rules.specs.Extensibles.{extensible_layout, glyphs_layout, glyphs_places, glyphs_total, recipe_piece, recipe_pieces, test_glyphs, first_height as first_height_of};
ghost use Rattle.mt_delim.specs.inner.Runs.{run_glyphs, glyphs_of, IsFew, AreFew};

use crate::repeats::repeats;
use crate::search::height_plus_depth;
use mt_box::{Extents, MAX_REPEATS, Mark, Marks, Move, first_out};
use mt_rules::{PartError, extents_without_italic, tested_part, width_with_italic};
use mt_scaled::Length;
use mt_tfm::{Font, Recipe};
use std::alloc::AllocError;

/// The layout of an extensible character for a wanted size on top, and what it reaches.
///
/// Refused with `TooTall`, then with `Overflow` of the first extent out of range of its glyphs,
/// from the top, and of the whole; and with `OutOfMemory`.
pub fn extensible_on_marks(
    marks: &mut Marks,
    font: &Font,
    number: u16,
    recipe: Recipe,
    wanted: Length,
) -> Result<Extents, PartError>
    requires pieces { IsTrue (recipe_fits font.now.first font.now.chars recipe) }
    requires wanted { Within (2 ^ 40) wanted.sp }
    ensures is { SetsOn result (top marks.new) (extensible_layout number font.now recipe wanted.sp) }
    ensures rest { OnOk result (marks.new ≡ top marks.new ∷ marks.old) }
    ensures in_range { IfOk result ExtentsInRange }
    ensures too_tall { (n : ℕ) → extensible_layout number font.now recipe wanted.sp ≡ Err (TooTall n)
        → result ≡ Err (PartTooTall n) }
{
    let n = repeats(font, recipe, wanted);
    if n > MAX_REPEATS {
        return Err(PartError::TooTall(n));
    }
    let runs = runs_of(recipe, n);
    if let Some(value) = first_glyph_out(font, &runs) {
        return Err(PartError::Overflow(value));
    }
    runs_on_marks(
        marks,
        font,
        number,
        &runs,
        width_with_italic(font, recipe.repeat),
    )
}

// Glyphs of one character, one below another: a piece, none where its code is 0, or repeats.
#[derive(Clone, Copy)]
enum Run {
    Piece(u8),
    Repeats { code: u8, count: u64 },
}

impl Run {
    // The character of its first glyph, if it has one.
    fn first(self) -> Option<u8>
        ensures { result ≡ slice_get (run_glyphs self) 0 }
    {
        match self {
            Run::Piece(code) if code != 0 => Some(code),
            Run::Repeats { code, count } if count != 0 => Some(code),
            _ => None,
        }
    }
}

// The pieces from the top: top, repeats and bottom, with a middle between as many repeats at both
// sides.
fn runs_of(recipe: Recipe, n: u64) -> [Run; 5]
    requires { n ≤ max_repeats }
    ensures is { glyphs_of result ≡ recipe_pieces recipe n }
    ensures few { AreFew result }
{
    let code = recipe.repeat;
    let below = below_middle(recipe, n);
    [
        Run::Piece(recipe.top),
        Run::Repeats { code, count: n },
        Run::Piece(recipe.middle),
        Run::Repeats { code, count: below },
        Run::Piece(recipe.bottom),
    ]
}

// How often the repeat comes below the middle.
fn below_middle(recipe: Recipe, n: u64) -> u64
    ensures is { result ≡ if recipe.middle == 0 then 0 else n }
    ensures least { result ≤ n }
{
    if recipe.middle == 0 { 0 } else { n }
}

// The first extent of a glyph that is out of range, from the top. Of each run one glyph is tested.
fn first_glyph_out(font: &Font, runs: &[Run]) -> Option<i64>
    requires { All (λ c. IsTrue (exists font.now c)) (glyphs_of runs.now) }
    ensures { test_glyphs font.now (glyphs_of runs.now) ≡ pass_unless result }
{
    for run in runs {
        let out = run_out(font, *run);
        if out.is_some() {
            return out;
        }
    }
    None
}

fn run_out(font: &Font, run: Run) -> Option<i64>
    requires { All (λ c. IsTrue (exists font.now c)) (run_glyphs run) }
    ensures { test_glyphs font.now (run_glyphs run) ≡ pass_unless result }
{
    match run.first() {
        Some(code) => first_out(extents_without_italic(font, code)),
        None => None,
    }
}

// The layout of these runs on top: the first glyph is on the baseline.
fn runs_on_marks(
    marks: &mut Marks,
    font: &Font,
    number: u16,
    runs: &[Run],
    width: Length,
) -> Result<Extents, PartError>
    requires there { All (λ c. IsTrue (exists font.now c)) (glyphs_of runs.now) }
    requires few { AreFew runs.now }
    requires count { length runs.now ≤ 5 }
    ensures is { SetsOn result (top marks.new)
        (make_box (glyphs_layout number font.now width.sp (glyphs_of runs.now))) }
    ensures rest { OnOk result (marks.new ≡ top marks.new ∷ marks.old) }
    ensures in_range { IfOk result ExtentsInRange }
{
    let height = first_height(font, runs);
    marks.begin()?;
    let depth = put_runs(marks, font, number, runs, height)?;
    tested_part(Extents {
        width: width.sp,
        height: height.sp,
        depth: depth.sp,
    })
}

// The height of the first glyph.
fn first_height(font: &Font, runs: &[Run]) -> Length
    requires { All (λ c. IsTrue (exists font.now c)) (glyphs_of runs.now) }
    ensures is { result.sp ≡ first_height_of font.now (glyphs_of runs.now) }
    ensures small { Within (2 ^ 31) result.sp }
{
    for run in runs {
        if let Some(code) = run.first() {
            return height_of_glyph(font, code);
        }
    }
    Length { sp: 0 }
}

fn height_of_glyph(font: &Font, code: u8) -> Length
    requires { IsTrue (exists font.now code) }
    ensures is { result.sp ≡ height_of font.now code }
    ensures small { Within (2 ^ 31) result.sp }
{
    Length {
        sp: font.height(code),
    }
}

// The glyphs of runs at the end of the top layout, from so far above the baseline downward; and how far they end below
// it.
fn put_runs(
    marks: &mut Marks,
    font: &Font,
    number: u16,
    runs: &[Run],
    height: Length,
) -> Result<Length, AllocError>
    requires there { All (λ c. IsTrue (exists font.now c)) (glyphs_of runs.now) }
    requires few { AreFew runs.now }
    requires count { length runs.now ≤ 5 }
    requires height { Within (2 ^ 31) height.sp }
    ensures marks { OnOk result (marks.new
        ≡ put_on (glyphs_places number font.now height.sp (glyphs_of runs.now)) marks.old) }
    ensures depth { IfOk result (λ d. d.sp ≡ glyphs_total font.now (glyphs_of runs.now) -ℤ height.sp) }
{
    let mut depth = height.negated();
    for run in runs {
        depth = put_run(marks, font, number, *run, depth)?;
    }
    Ok(depth)
}

// The same of one run, from so far below the baseline.
fn put_run(
    marks: &mut Marks,
    font: &Font,
    number: u16,
    run: Run,
    depth: Length,
) -> Result<Length, AllocError>
    requires there { All (λ c. IsTrue (exists font.now c)) (run_glyphs run) }
    requires few { IsFew run }
    requires depth { Within (2 ^ 50) depth.sp }
    ensures marks { OnOk result (marks.new
        ≡ put_on (glyphs_places number font.now (neg_ℤ depth.sp) (run_glyphs run)) marks.old) }
    ensures depth { IfOk result (λ d. d.sp ≡ depth.sp +ℤ glyphs_total font.now (run_glyphs run)) }
    ensures near { IfOk result (λ d. Within (max_repeats * 2 ^ 32) (d.sp -ℤ depth.sp)) }
{
    match run {
        Run::Piece(code) => put_piece(marks, font, number, code, depth),
        Run::Repeats { code, count } => put_repeats(marks, font, number, code, count, depth),
    }
}

fn put_piece(
    marks: &mut Marks,
    font: &Font,
    number: u16,
    code: u8,
    depth: Length,
) -> Result<Length, AllocError>
    requires there { All (λ c. IsTrue (exists font.now c)) (recipe_piece code) }
    requires depth { Within (2 ^ 50) depth.sp }
    ensures marks { OnOk result (marks.new
        ≡ put_on (glyphs_places number font.now (neg_ℤ depth.sp) (recipe_piece code)) marks.old) }
    ensures depth { IfOk result (λ d. d.sp ≡ depth.sp +ℤ glyphs_total font.now (recipe_piece code)) }
    ensures near { IfOk result (λ d. Within (max_repeats * 2 ^ 32) (d.sp -ℤ depth.sp)) }
{
    if code == 0 {
        return Ok(depth);
    }
    let mark = Mark::Glyph { font: number, code };
    marks.put(way_below(font, code, depth), mark)?;
    Ok(depth.plus(height_plus_depth(font, code)))
}

// All repeats are one mark.
fn put_repeats(
    marks: &mut Marks,
    font: &Font,
    number: u16,
    code: u8,
    count: u64,
    depth: Length,
) -> Result<Length, AllocError>
    requires there { All (λ c. IsTrue (exists font.now c)) (replicate count code) }
    requires few { count ≤ max_repeats }
    requires depth { Within (2 ^ 50) depth.sp }
    ensures marks { OnOk result (marks.new
        ≡ put_on (glyphs_places number font.now (neg_ℤ depth.sp) (replicate count code)) marks.old) }
    ensures depth { IfOk result (λ d. d.sp ≡ depth.sp +ℤ glyphs_total font.now (replicate count code)) }
    ensures near { IfOk result (λ d. Within (max_repeats * 2 ^ 32) (d.sp -ℤ depth.sp)) }
{
    if count == 0 {
        return Ok(depth);
    }
    let step = height_plus_depth(font, code);
    let mark = Mark::Stack {
        font: number,
        code,
        step: step.sp,
        count,
    };
    marks.put(way_below(font, code, depth), mark)?;
    Ok(depth.plus(times(step, count)))
}

// To where a glyph is whose top is so far below the baseline.
#[tactic(auto, using(std::proofs::lemmas::Int::ints))]
fn way_below(font: &Font, code: u8, depth: Length) -> Move
    requires there { IsTrue (exists font.now code) }
    requires depth { Within (2 ^ 50) depth.sp }
    ensures right { result.right ≡ pos 0 }
    ensures down { pos 0 -ℤ result.up ≡ depth.sp +ℤ height_of font.now code }
{
    Move {
        right: 0,
        up: depth.plus(height_of_glyph(font, code)).negated().sp,
    }
}

fn times(length: Length, count: u64) -> Length
    requires length { Within (2 ^ 32) length.sp }
    requires count { count ≤ max_repeats }
    ensures is { result.sp ≡ length.sp *ℤ pos count }
    ensures small { Within (max_repeats * 2 ^ 32) result.sp }
{
    Length {
        sp: length.sp * count as i64,
    }
}
