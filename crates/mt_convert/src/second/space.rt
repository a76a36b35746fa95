//! The spaces between atoms.
ghost use Rattle.std.specs.Prelude.{◌≡◌, ◌^◌, ◌++◌, ◌∷◌, [], OnOk, Some};
ghost use Rattle.mt_scaled.specs.Number.{Within};
ghost use Rattle.mt_spacing.specs.Gaps.{spacing_of};
ghost use Rattle.mt_convert.specs.SecondPass.{glue_piece, spacing_pieces, space_before};
ghost use Rattle.mt_convert.specs.Halfway.{MayMeet};

use crate::flat::current::Current;
use mt_family::FontSet;
use mt_pieces::{Pieces, Space};
use mt_rules::{Class, Glue, math_unit};
use mt_scaled::Length;
use mt_spacing::{Gap, math_glue, space_between};
use std::alloc::AllocError;

// The space before an atom, if there is one, behind the other pieces.
pub(crate) fn put_space(
    pieces: &mut Pieces,
    fonts: &FontSet,
    current: Current,
    class: Class,
) -> Result<(), AllocError>
    requires meets { MayMeet current.last (Some class) }
    ensures { OnOk result (pieces.new ≡ pieces.old ++ space_before fonts.now current class) }
{
    match current.last {
        Some(left) => put_gap(
            pieces,
            space_between(left, class, current.style),
            math_unit(fonts, current.style),
        ),
        None => Ok(()),
    }
}

// The space of a gap, where a math unit has this size.
fn put_gap(pieces: &mut Pieces, gap: Gap, unit: Length) -> Result<(), AllocError>
    requires unit { Within (2 ^ 31) unit.sp }
    ensures { OnOk result (pieces.new ≡ pieces.old ++ spacing_pieces (spacing_of gap) unit.sp) }
{
    match gap {
        Gap::None => Ok(()),
        gap => put_glue(pieces, math_glue(gap, unit.sp)),
    }
}

// A space behind the other pieces.
pub(crate) fn put_glue(pieces: &mut Pieces, glue: Glue) -> Result<(), AllocError>
    requires width { Within (2 ^ 40) glue.width }
    requires shrink { Within (2 ^ 40) glue.shrink }
    ensures { OnOk result (pieces.new ≡ pieces.old ++ glue_piece glue ∷ []) }
{
    pieces.put_space(Space {
        width: glue.width,
        shrink: glue.shrink,
    })
}
