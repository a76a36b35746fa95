//! Layouts in the middle of a width.
ghost use Rattle.std.specs.Prelude.{◌≡◌, IfOk, OnOk};
ghost use Rattle.mt_scaled.specs.Number.{Within, max_dimen};
ghost use Rattle.mt_box.specs.Extents.{ExtentsInRange};
ghost use Rattle.mt_box.specs.marks.Recentred.{recentred_extents, recentred_layer};

use crate::Extents;
use crate::boxes::{extents_of_width, inset, is_as_wide};
use crate::marks::stack::Marks;
use mt_scaled::Length;
use std::alloc::AllocError;

/// The layout under so many others in the middle of a width, and what it reaches then (tex.web §715). A layout of this
/// width stays as it is.
pub fn recentre_layer(
    marks: &mut Marks,
    under: usize,
    extents: Extents,
    width: Length,
) -> Result<Extents, AllocError>
    requires extents { ExtentsInRange extents }
    requires width { Within max_dimen width.sp }
    ensures is { IfOk result (λ e. e ≡ recentred_extents extents width.sp) }
    ensures marks { OnOk result (marks.new ≡ recentred_layer under extents width.sp marks.old) }
    ensures in_range { IfOk result ExtentsInRange }
{
    if is_as_wide(extents, width.sp) {
        return Ok(extents);
    }
    marks.shift(under, inset(extents, width.sp))?;
    Ok(extents_of_width(extents, width.sp))
}
