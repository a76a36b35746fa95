//! Spaces and kerns of a list, and the kern after an atom that is joined with the next one.
ghost use Rattle.std.specs.Prelude.{◌≡◌, ◌++◌, ◌∷◌, [], IfOk, OnOk};
ghost use Rattle.mt_arena.specs.Arena.{glue_of};
ghost use Rattle.mt_rules.specs.Modest.{GlueAmounts};
ghost use Rattle.mt_pieces.specs.declared.items.PlacedItem.TheVariants as placed;
ghost use Rattle.mt_convert.specs.FirstPass.{glue_in_points, make_kern, make_space};
ghost use Rattle.mt_convert.specs.inner.Lengths.{SetsKern, kern_halves};
ghost use Rattle.mt_convert.specs.inner.OnPieces.{SetsPlaced};
ghost use Rattle.mt_convert.specs.inner.Placed.{PlacedFits};

use crate::SetFault;
use mt_arena::ShortGlue;
use mt_family::FontSet;
use mt_pieces::PlacedItem;
use mt_rules::{Glue, Style, in_points};
use mt_scaled::{Length, in_range};
use std::alloc::AllocError;

// A space, tested: its width, then its shrink.
pub(crate) fn make_space(glue: Glue) -> Result<PlacedItem, SetFault>
    ensures is { SetsPlaced result (make_space glue) }
    ensures fits { IfOk result PlacedFits }
    ensures same { IfOk result (λ h. h ≡ placed.Space glue) }
{
    if !in_range(glue.width) {
        return Err(SetFault::Overflow(glue.width));
    }
    if !in_range(glue.shrink) {
        return Err(SetFault::Overflow(glue.shrink));
    }
    Ok(PlacedItem::Space(glue))
}

// A kern, tested.
pub(crate) fn make_kern(amount: Length) -> Result<PlacedItem, SetFault>
    ensures is { SetsPlaced result (make_kern amount.sp) }
    ensures fits { IfOk result PlacedFits }
    ensures same { IfOk result (λ h. h ≡ placed.Kern amount.sp) }
{
    if !in_range(amount.sp) {
        return Err(SetFault::Overflow(amount.sp));
    }
    Ok(PlacedItem::Kern(amount.sp))
}

// A space of an arena, in 64 bits.
pub(crate) fn long_glue(glue: ShortGlue) -> Glue
    ensures { result ≡ glue_of glue }
{
    Glue {
        width: i64::from(glue.width),
        shrink: i64::from(glue.shrink),
    }
}

// An amount of an arena, in 64 bits.
pub(crate) fn long_length(amount: i32) -> Length
    ensures { result.sp ≡ amount }
{
    Length {
        sp: i64::from(amount),
    }
}

// A space in math units, in scaled points.
pub(crate) fn glue_in_points(fonts: &FontSet, style: Style, glue: Glue) -> Glue
    requires { GlueAmounts glue }
    ensures { result ≡ glue_in_points fonts.now style glue }
{
    Glue {
        width: in_points(fonts, style, Length { sp: glue.width }).sp,
        shrink: in_points(fonts, style, Length { sp: glue.shrink }).sp,
    }
}

// An item that was set, and after it the kern between it and the next atom, tested.
pub(crate) fn push_with_kern(
    halves: &mut Vec<PlacedItem>,
    half: PlacedItem,
    kern: Option<i64>,
) -> Result<(), SetFault>
    ensures is { SetsKern result kern }
    ensures pushed { OnOk result (halves.new.items ≡ halves.old.items ++ half ∷ kern_halves kern) }
{
    push_item(halves, half)?;
    match kern {
        Some(amount) => {
            let kern = make_kern(Length { sp: amount })?;
            push_item(halves, kern)?;
            Ok(())
        }
        None => Ok(()),
    }
}

fn push_item(halves: &mut Vec<PlacedItem>, half: PlacedItem) -> Result<(), AllocError>
    ensures { OnOk result (halves.new.items ≡ halves.old.items ++ half ∷ []) }
{
    halves.push(half)?;
    Ok(())
}
