//! What calls on pieces answer, with their faults as those of a math list.
ghost use Rattle.std.specs.Prelude.{List};
ghost use Rattle.mt_box.specs.Layout.{Layout};
ghost use Rattle.mt_box.specs.Rows.{PieceValue};
ghost use Rattle.mt_rules.specs.Setting.{Setting};
ghost use Rattle.mt_pieces.specs.Putting.{PacksPieces, SetsPieces, boxed_on, row_on};
ghost use Rattle.mt_convert.specs.Calls.{SetsRowOn};
ghost use Rattle.mt_convert.specs.inner.OnPieces.{SetsBoxOn};

use crate::SetFault;
use mt_box::PackError;
use mt_rules::PartError;

// What a call answers that sets a part.
pub(crate) fn part_set(made: Result<(), PartError>) -> Result<(), SetFault>
    ensures row { (old new : List PieceValue) (setting : Setting (List PieceValue))
        → SetsPieces made new (row_on old setting) → SetsRowOn result old new setting }
    ensures boxed { (old new : List PieceValue) (setting : Setting Layout)
        → SetsPieces made new (boxed_on old setting) → SetsBoxOn result old new setting }
{
    match made {
        Ok(()) => Ok(()),
        Err(fault) => Err(SetFault::from(fault)),
    }
}

// What a call answers that only packs.
pub(crate) fn row_packed(made: Result<(), PackError>) -> Result<(), SetFault>
    ensures row { (old new : List PieceValue) (setting : Setting (List PieceValue))
        → PacksPieces made new (row_on old setting) → SetsRowOn result old new setting }
    ensures boxed { (old new : List PieceValue) (setting : Setting Layout)
        → PacksPieces made new (boxed_on old setting) → SetsBoxOn result old new setting }
{
    match made {
        Ok(()) => Ok(()),
        Err(fault) => Err(SetFault::from(fault)),
    }
}
