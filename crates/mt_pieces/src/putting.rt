//! Parts put after others, and in place of others.
ghost use Rattle.std.specs.Prelude.{◌≡◌, alloc_error, [], ◌∷◌, ◌++◌, take, IsOk, IfErr, IfOk, OnOk, OnErr};
ghost use Rattle.mt_pieces.specs.inner.View.{box_part};

use mt_box::{Extents, Marks, RowPart, RowPiece};
use std::alloc::AllocError;

// A part more, whose layer was laid. After a fault there are no parts and no layers.
pub(crate) fn put_part(
    marks: &mut Marks,
    parts: &mut Vec<RowPart>,
    laid: Result<(), AllocError>,
    part: RowPart,
) -> Result<(), AllocError>
    ensures laid { OnOk result (IsOk laid) }
    ensures marks { OnOk result (marks.new ≡ marks.old) }
    ensures parts { OnOk result (parts.new.items ≡ parts.old.items ++ part ∷ []) }
    ensures no_marks { OnErr result (marks.new ≡ []) }
    ensures no_parts { OnErr result (parts.new.items ≡ []) }
{
    let put = push_part(parts, laid, part);
    if put.is_err() {
        marks.clear();
        parts.clear();
    }
    put
}

pub(crate) fn push_part(
    parts: &mut Vec<RowPart>,
    laid: Result<(), AllocError>,
    part: RowPart,
) -> Result<(), AllocError>
    ensures laid { OnOk result (IsOk laid) }
    ensures parts { OnOk result (parts.new.items ≡ parts.old.items ++ part ∷ []) }
{
    laid?;
    parts.push(part)?;
    Ok(())
}

// The box that a call left on top of the layouts is the piece after the first `keep` ones. After a fault there are no
// parts and no layers.
pub(crate) fn settle<E: From<AllocError>>(
    marks: &mut Marks,
    parts: &mut Vec<RowPart>,
    keep: usize,
    made: Result<Extents, E>,
) -> Result<(), E>
    ensures ok { OnOk result (IsOk made) }
    ensures marks { OnOk result (marks.new ≡ marks.old) }
    ensures parts { IfOk made (λ e. OnOk result (parts.new.items ≡ take keep parts.old.items ++ box_part e ∷ [])) }
    ensures no_marks { OnErr result (marks.new ≡ []) }
    ensures no_parts { OnErr result (parts.new.items ≡ []) }
    ensures fault { IfErr made (λ fault. result ≡ Err fault) }
    ensures memory { IfOk made (λ e. IfErr result (E.from_gives alloc_error)) }
{
    match made {
        Ok(extents) => {
            put_box(marks, parts, keep, extents)?;
            Ok(())
        }
        Err(fault) => {
            marks.clear();
            parts.clear();
            Err(fault)
        }
    }
}

// A box that is not raised after the first `keep` parts.
fn put_box(
    marks: &mut Marks,
    parts: &mut Vec<RowPart>,
    keep: usize,
    extents: Extents,
) -> Result<(), AllocError>
    ensures marks { OnOk result (marks.new ≡ marks.old) }
    ensures parts { OnOk result (parts.new.items ≡ take keep parts.old.items ++ box_part extents ∷ []) }
    ensures no_marks { OnErr result (marks.new ≡ []) }
    ensures no_parts { OnErr result (parts.new.items ≡ []) }
{
    parts.truncate(keep);
    put_part(marks, parts, Ok(()), box_part(extents))
}

// A box that is not raised.
pub(crate) fn box_part(extents: Extents) -> RowPart
    ensures { result ≡ box_part extents }
{
    RowPart::Layout(RowPiece { extents, raise: 0 })
}
