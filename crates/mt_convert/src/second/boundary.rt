//! Boundaries and middles: their size, and their boxes.
ghost use Rattle.std.specs.Prelude.{◌≡◌, ◌^◌, Some};
ghost use Rattle.mt_scaled.specs.Number.{Within};
ghost use Rattle.mt_rules.specs.Styles.{size_of};
ghost use Rattle.mt_rules.specs.Delimiters.{boundary_size};
ghost use Rattle.mt_convert.specs.Halfway.{MayMeet};
ghost use Rattle.mt_convert.specs.SecondPass.{boundary_pieces};
ghost use Rattle.mt_convert.specs.Calls.{SetsRowOn};

use crate::SetFault;
use crate::flat::current::Current;
use crate::second::space::put_space;
use mt_family::{FontSet, Size};
use mt_pieces::Pieces;
use mt_rules::{Class, Delim, Style, boundary_size};
use mt_scaled::Length;

// The size of the style in which a list begins, and the wanted size of its boundaries and middles.
#[derive(Clone, Copy)]
pub(crate) struct BoundaryFrame {
    pub(crate) size: Size,
    pub(crate) wanted: Length,
}

// The frame of a list whose atoms reach so far up and down.
pub(crate) fn boundary_frame(
    fonts: &FontSet,
    style: Style,
    height: Length,
    depth: Length,
) -> BoundaryFrame
    requires height { Within (2 ^ 30) height.sp }
    requires depth { Within (2 ^ 30) depth.sp }
    ensures size { result.size ≡ size_of style }
    ensures wanted { result.wanted.sp ≡ boundary_size fonts.now (size_of style) height.sp depth.sp }
    ensures small { Within (2 ^ 40) result.wanted.sp }
{
    let size = style.size();
    BoundaryFrame {
        size,
        wanted: boundary_size(fonts, size, height, depth),
    }
}

// A boundary or a middle behind the other pieces, in the middle of the axis, and the space before it.
#[inline(never)]
pub(crate) fn put_boundary(
    pieces: &mut Pieces,
    fonts: &FontSet,
    frame: BoundaryFrame,
    current: Current,
    class: Class,
    delim: Delim,
) -> Result<(), SetFault>
    requires wanted { Within (2 ^ 40) frame.wanted.sp }
    requires meets { MayMeet current.last (Some class) }
    ensures { SetsRowOn result pieces.old pieces.new
        (boundary_pieces fonts.now frame.size frame.wanted.sp current class delim) }
{
    put_space(pieces, fonts, current, class)?;
    pieces.put_boundary(fonts, delim, frame.size, frame.wanted)?;
    Ok(())
}
