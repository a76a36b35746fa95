//! The statuses of what is wrong with fonts.
ghost use Rattle.std.specs.Prelude.{◌≡◌};
ghost use Rattle.mt_status.specs.FontRefusals.{font_refusal, font_set_refusal, list_refusal};

use crate::causes::SAME_FONT;
use crate::status::Status;
use mt_family::{ListError, SetError};
use mt_tfm::TfmError;

impl From<ListError> for Status {
    ghost from_gives = { λ error status. status ≡ list_refusal error };

    fn from(error: ListError) -> Self {
        match error.place() {
            Some(line) => Status::FontList {
                line,
                cause: error.number(),
            },
            None => Status::OutOfMemory,
        }
    }
}

/// The status of a font that is refused, by its number in the list from 0.
pub fn font_refusal(font: u32, error: TfmError) -> Status
    ensures { result ≡ font_refusal font error }
{
    match error {
        TfmError::OutOfMemory => Status::OutOfMemory,
        error => Status::BadTfm {
            font,
            cause: error.number(),
        },
    }
}

impl From<SetError> for Status {
    ghost from_gives = { λ error status. status ≡ font_set_refusal error };

    fn from(error: SetError) -> Self {
        match error {
            SetError::SameFont(font) => Status::BadTfm {
                font: u32::from(font),
                cause: SAME_FONT,
            },
            error => match error.family() {
                Some((fam, size)) => Status::BadFamily {
                    fam,
                    size,
                    cause: error.number(),
                },
                None => Status::OutOfMemory,
            },
        }
    }
}
