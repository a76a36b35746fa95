//! Why a file is refused, and why an operation is.
ghost use Rattle.std.specs.Prelude.{◌≡◌};
ghost use Rattle.std.specs.Option.{option_map};
ghost use Rattle.mt_scaled.specs.Meanings.{IsLine, cause_text};
ghost use Rattle.mt_dvi.specs.Machine as machine;
ghost use Rattle.mt_dviread.specs.Errors.{cause_of, dvi_causes, dvi_error_number, dvi_error_place, fault_of};

use std::alloc::AllocError;
use thiserror::Error;

/// Why a DVI file is refused: its first fault, with the offset of the opcode at fault.
///
/// Where an opcode has several faults, the first of them in this order is reported.
#[derive(Clone, Copy, Debug, PartialEq, Eq, Error)]
pub enum DviError {
    /// The file ends inside the operation, or before the fourth byte after post_post. Where it ends
    /// between two operations, the offset is its length.
    #[error("byte {0}: the file ends too soon")]
    Truncated(u64),
    /// The opcode is not allowed there.
    #[error("byte {0}: this opcode is not allowed here")]
    BadOpcode(u64),
    /// The file does not begin with a good pre; the offset is 0.
    #[error("byte {0}: no preamble of a DVI file in scaled points")]
    BadPreamble(u64),
    /// The pointer of a bop is not the offset of the bop before, or -1 at the first one.
    #[error("byte {0}: a wrong pointer to the page before")]
    BadPointer(u64),
    /// At post: its pointer, its units, its number of pages or its depth of the stack is wrong. At
    /// post_post: its offset or its identifier is wrong, or a byte after it is not 223.
    #[error("byte {0}: a wrong postamble")]
    BadPost(u64),
    /// A glyph without a font; the selection of a font that is not defined, that has an area, or
    /// whose name and size no font of the set has; a second definition of a font with another name
    /// or size.
    #[error("byte {0}: an unknown font")]
    UnknownFont(u64),
    /// The font does not have the character.
    #[error("byte {0}: a missing character")]
    MissingChar(u64),
    /// A pop with an empty stack.
    #[error("byte {0}: nothing to pop")]
    StackEmpty(u64),
    /// A push with 1,000 on the stack.
    #[error("byte {0}: too many pushes")]
    TooDeep(u64),
    /// h or v is more than 2^31 - 1 in size after the operation.
    #[error("byte {0}: a move out of range")]
    OutOfRange(u64),
    /// There is a place 2,000,001.
    #[error("byte {0}: too many places")]
    TooMany(u64),
    /// Memory ran out.
    #[error("out of memory")]
    OutOfMemory,
}

impl DviError {
    /// The number of the error, from 1 to 12 in the order of the variants.
    pub fn number(self) -> u8
        ensures { result ≡ dvi_error_number self }
    {
        match self {
            DviError::Truncated(_) => 1,
            DviError::BadOpcode(_) => 2,
            DviError::BadPreamble(_) => 3,
            DviError::BadPointer(_) => 4,
            DviError::BadPost(_) => 5,
            DviError::UnknownFont(_) => 6,
            DviError::MissingChar(_) => 7,
            DviError::StackEmpty(_) => 8,
            DviError::TooDeep(_) => 9,
            DviError::OutOfRange(_) => 10,
            DviError::TooMany(_) => 11,
            DviError::OutOfMemory => 12,
        }
    }

    /// The offset of the opcode at fault; `None` for lack of memory.
    pub fn place(self) -> Option<u64>
        ensures { result ≡ dvi_error_place self }
    {
        match self {
            DviError::Truncated(at)
            | DviError::BadOpcode(at)
            | DviError::BadPreamble(at)
            | DviError::BadPointer(at)
            | DviError::BadPost(at)
            | DviError::UnknownFont(at)
            | DviError::MissingChar(at)
            | DviError::StackEmpty(at)
            | DviError::TooDeep(at)
            | DviError::OutOfRange(at)
            | DviError::TooMany(at) => Some(at),
            DviError::OutOfMemory => None,
        }
    }
}

/// What the error of a number means, in a line for a person. `OutOfMemory` and numbers of no error have
/// an empty text.
pub fn dvi_cause_text(cause: u8) -> &'static str
    ensures is { result.now ≡ cause_text dvi_causes cause }
    ensures line { IsLine result.now }
{
    match cause {
        1 => "the DVI file is too short",
        2 => "this opcode is not allowed here",
        3 => "the file does not begin as a DVI file of TeX's does",
        4 => "the page does not point to the page before it",
        5 => "the postamble does not match the rest of the file",
        6 => "a font is not defined in the DVI file, or is not in the font list",
        7 => "the font does not have this character",
        8 => "pop without push",
        9 => "at most 1,000 pushes can be open",
        10 => "a move leads beyond 2^31 - 1 scaled points",
        11 => "at most 2,000,000 glyphs and rules can be placed",
        _ => "",
    }
}

impl From<AllocError> for DviError {
    ghost use Rattle.std.specs.Prelude.{◌≡◌};
    ghost use Rattle.mt_dviread.specs.declared.error.DviError.TheVariants.{OutOfMemory};

    ghost from_gives = { λ _ error. error ≡ OutOfMemory };

    fn from(_: AllocError) -> Self {
        DviError::OutOfMemory
    }
}

/// Why an operation is refused, without its offset.
#[derive(Clone, Copy, Debug, PartialEq, Eq)]
pub enum Cause {
    /// The file ends too soon.
    Truncated,
    /// The opcode is not allowed there.
    BadOpcode,
    /// There is no good pre.
    BadPreamble,
    /// The pointer to the bop before is wrong.
    BadPointer,
    /// The postamble is wrong.
    BadPost,
    /// The font is not known.
    UnknownFont,
    /// The font does not have the character.
    MissingChar,
    /// There is nothing to pop.
    StackEmpty,
    /// There is too much on the stack.
    TooDeep,
    /// h or v is out of range.
    OutOfRange,
    /// There are too many places.
    TooMany,
    /// There is no memory.
    OutOfMemory,
}

impl Cause {
    /// The error of this cause at an opcode.
    pub fn at(self, offset: u64) -> DviError
        ensures { fault_of result
            ≡ option_map (λ (c : machine.Cause). record { cause = c; at = offset }) (cause_of self) }
    {
        match self {
            Cause::Truncated => DviError::Truncated(offset),
            Cause::BadOpcode => DviError::BadOpcode(offset),
            Cause::BadPreamble => DviError::BadPreamble(offset),
            Cause::BadPointer => DviError::BadPointer(offset),
            Cause::BadPost => DviError::BadPost(offset),
            Cause::UnknownFont => DviError::UnknownFont(offset),
            Cause::MissingChar => DviError::MissingChar(offset),
            Cause::StackEmpty => DviError::StackEmpty(offset),
            Cause::TooDeep => DviError::TooDeep(offset),
            Cause::OutOfRange => DviError::OutOfRange(offset),
            Cause::TooMany => DviError::TooMany(offset),
            Cause::OutOfMemory => DviError::OutOfMemory,
        }
    }
}

impl From<AllocError> for Cause {
    ghost use Rattle.std.specs.Prelude.{◌≡◌};
    ghost use Rattle.mt_dviread.specs.declared.error.Cause.TheVariants.{OutOfMemory};

    ghost from_gives = { λ _ cause. cause ≡ OutOfMemory };

    fn from(_: AllocError) -> Self {
        Cause::OutOfMemory
    }
}
