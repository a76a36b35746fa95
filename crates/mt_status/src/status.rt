//! How a run ends.
ghost use Rattle.std.specs.Prelude.{◌≡◌};
ghost use Rattle.mt_status.specs.Statuses.{code_of};
ghost use Rattle.mt_status.specs.declared.status.Status.TheVariants.{OutOfMemory};

use mt_family::Size;
use mt_scaled::Name;
use std::alloc::{AllocError, AllocFailed};

/// Of what a run has too much.
#[derive(Clone, Copy, Debug, PartialEq, Eq)]
pub enum Much {
    /// Pages, of which 5,000 may be set, and a DVI file of copied pages may have 65,535.
    Pages,
    /// Places on the pages, of which there may be 2,000,000.
    Places,
    /// Bytes of a DVI file of copied pages, of which there may be 67,108,864.
    Bytes,
}

/// How a run ends: with its output written, or with a refusal.
///
/// In a refusal `n` is the number of a formula, counted from 1. `token` is a place from 0: for the
/// causes 31 to 36 in the tokens of the source, where `n` is one more than the formulas before it;
/// for cause 21 in the tokens of that step of expansion; else in the expanded tokens of the
/// formula. `cause` is the number of a cause in the list of the layer that refuses. A family is 0
/// to 15.
#[derive(Debug, Drop)]
pub enum Status {
    /// The output is written.
    Done,
    /// The words are none of the commands.
    BadWords,
    /// The file of this name could not be read.
    ReadFault {
        name: Name,
    },
    /// The file of this name is longer than its limit.
    TooLong {
        name: Name,
    },
    /// The output could not be written past its first `written` bytes.
    WriteFault {
        written: u64,
    },
    /// A line of the font list, counted from 1.
    FontList {
        line: u32,
        cause: u8,
    },
    /// A font, by its number in the list from 0: its metrics, or a size that it cannot have.
    BadTfm {
        font: u32,
        cause: u8,
    },
    /// A family that has no font at a size, or an unsuitable one.
    BadFamily {
        fam: u8,
        size: Size,
        cause: u8,
    },
    /// A byte of the source, by its offset.
    BadSource {
        offset: u64,
        cause: u8,
    },
    /// A formula that is none of the grammar, or a token that is not allowed outside of formulas.
    BadFormula {
        n: u32,
        token: u32,
        cause: u8,
    },
    /// A formula whose macros do not come to an end within the budget, or that has too many tokens,
    /// or with which all formulas have.
    Budget {
        n: u32,
    },
    /// A formula asks for a font that its family does not have.
    MissingFamily {
        n: u32,
        fam: u8,
        size: Size,
    },
    /// A formula asks for a character that its font does not have.
    MissingChar {
        n: u32,
        fam: u8,
        size: Size,
        code: u8,
    },
    /// A formula has a pair of characters whose ligature keeps one of them, which is not set.
    SmartLigature {
        n: u32,
        fam: u8,
        size: Size,
        first: u8,
        second: u8,
    },
    /// A length of a formula, or a coordinate of a place of it, in scaled points, out of range.
    Overflow {
        n: u32,
        value: i128,
    },
    /// A delimiter of a formula with more repeats than it may have.
    TooTall {
        n: u32,
        count: u64,
    },
    /// A formula with too many groups open at a token.
    TooDeep {
        n: u32,
        token: u32,
    },
    /// Too many pages, places on them, or bytes of a file.
    TooMuch {
        kind: Much,
        count: u64,
    },
    /// A byte of a DVI file, by its offset.
    BadDvi {
        offset: u64,
        cause: u8,
    },
    /// The number of a page that a DVI file does not have, 0 to 65535.
    BadPick {
        page: u32,
    },
    /// A DVI file, counted from 0, with another magnification than file 0.
    MagClash {
        file: u32,
    },
    /// A byte of one of several DVI files, by the file's number from 0 and the byte's offset.
    BadFile {
        file: u32,
        offset: u64,
        cause: u8,
    },
    /// There was no memory.
    OutOfMemory,
}

impl From<AllocError> for Status {
    ghost from_gives = { λ _ status. status ≡ OutOfMemory };

    fn from(_: AllocError) -> Self {
        Status::OutOfMemory
    }
}

impl<T: Drop> From<AllocFailed<T>> for Status {
    ghost from_gives = { λ _ status. status ≡ OutOfMemory };

    fn from(_: AllocFailed<T>) -> Self {
        Status::OutOfMemory
    }
}

impl Status {
    /// The number that the process ends with: 0 for `Done`, and another for each refusal.
    pub fn code(&self) -> u8
        ensures { result ≡ code_of self.now }
    {
        match self {
            Status::Done => 0,
            Status::BadWords => 2,
            Status::ReadFault { .. } => 20,
            Status::TooLong { .. } => 21,
            Status::WriteFault { .. } => 22,
            Status::FontList { .. } => 30,
            Status::BadTfm { .. } => 31,
            Status::BadFamily { .. } => 32,
            Status::BadSource { .. } => 40,
            Status::BadFormula { .. } => 41,
            Status::Budget { .. } => 42,
            Status::MissingFamily { .. } => 43,
            Status::MissingChar { .. } => 44,
            Status::SmartLigature { .. } => 45,
            Status::Overflow { .. } => 46,
            Status::TooTall { .. } => 47,
            Status::TooDeep { .. } => 48,
            Status::TooMuch { .. } => 49,
            Status::BadDvi { .. } => 50,
            Status::BadPick { .. } => 51,
            Status::MagClash { .. } => 52,
            Status::BadFile { .. } => 53,
            Status::OutOfMemory => 60,
        }
    }
}
