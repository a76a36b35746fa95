//! What a status is about.
ghost use Rattle.std.specs.Prelude.{◌≡◌};
ghost use Rattle.mt_status.specs.Statuses.{subject_of};

use crate::status::{Much, Status};
use mt_family::Size;
use mt_scan::ReadCause;

/// Characters of a font that a status names.
#[derive(Clone, Copy, Debug)]
pub enum Characters {
    /// None.
    None,
    /// One that the font does not have.
    One(u8),
    /// Two with a ligature that is not set.
    Pair(u8, u8),
}

/// A family of the font list at a size, with the characters of its font that a status names.
#[derive(Clone, Copy, Debug)]
pub struct NamedFamily {
    /// The number of the family.
    pub family: u8,
    /// The size.
    pub size: Size,
    /// The characters.
    pub characters: Characters,
}

/// What is at fault in one of the DVI files. Files are counted from 0.
#[derive(Clone, Copy, Debug)]
pub enum DviFault {
    /// A byte of the only file, by its offset, and the cause.
    Byte(u64, u8),
    /// A byte of one of several files, by the file, the byte's offset and the cause.
    ByteOfFile(u32, u64, u8),
    /// A page that the only file does not have.
    Page,
    /// The magnification of this file, which is not that of the first one.
    Magnification(u32),
}

/// The numbers that a status has of a fault of the reading.
#[derive(Clone, Copy, Debug)]
pub enum Numbers {
    /// Those of a formula, of a token and of a cause; too many open groups are a cause as the others.
    Token(u32, u32, u8),
    /// That of a formula as a whole.
    Formula(u32),
    /// That of a page.
    Page(u64),
}

/// What a status is about.
#[derive(Clone, Copy, Debug)]
pub enum Subject {
    /// Nothing that can be shown.
    Nothing,
    /// A file that could not be read.
    Unread,
    /// A line of the font list, counted from 1.
    ListLine(u32),
    /// A font of the list, counted from 0.
    Font(u32),
    /// A family of the list.
    Family(NamedFamily),
    /// A byte of the source, by its offset, and the cause.
    Byte(u64, u8),
    /// The fault at which the reading of the source stops.
    Fault(Numbers),
    /// A formula of the source that is read and not set, by its number, and the family that it asks for.
    Formula(u32, Option<NamedFamily>),
    /// The formula of the source that has a place too many, whose number the run notes.
    Places,
    /// One of the DVI files.
    Dvi(DviFault),
}

fn named(family: u8, size: Size, characters: Characters) -> NamedFamily
    ensures { result ≡ record { family = family; size = size; characters = characters } }
{
    NamedFamily {
        family,
        size,
        characters,
    }
}

impl Status {
    /// What it is about.
    pub fn subject(&self) -> Subject
        ensures { result ≡ subject_of self.now }
    {
        match self {
            Status::Done
            | Status::BadWords
            | Status::TooLong { .. }
            | Status::WriteFault { .. }
            | Status::OutOfMemory => Subject::Nothing,
            Status::ReadFault { .. } => Subject::Unread,
            Status::FontList { line, .. } => Subject::ListLine(*line),
            Status::BadTfm { font, .. } => Subject::Font(*font),
            Status::BadFamily { fam, size, .. } => {
                Subject::Family(named(*fam, *size, Characters::None))
            }
            Status::BadSource { offset, cause } => Subject::Byte(*offset, *cause),
            Status::BadFormula { n, token, cause } => {
                Subject::Fault(Numbers::Token(*n, *token, *cause))
            }
            Status::TooDeep { n, token } => {
                Subject::Fault(Numbers::Token(*n, *token, ReadCause::TooDeep.number()))
            }
            Status::Budget { n } => Subject::Fault(Numbers::Formula(*n)),
            Status::Overflow { n, .. } | Status::TooTall { n, .. } => Subject::Formula(*n, None),
            Status::MissingFamily { n, fam, size } => {
                Subject::Formula(*n, Some(named(*fam, *size, Characters::None)))
            }
            Status::MissingChar { n, fam, size, code } => {
                Subject::Formula(*n, Some(named(*fam, *size, Characters::One(*code))))
            }
            Status::SmartLigature {
                n,
                fam,
                size,
                first,
                second,
            } => Subject::Formula(
                *n,
                Some(named(*fam, *size, Characters::Pair(*first, *second))),
            ),
            Status::TooMuch { kind, count } => match kind {
                Much::Pages => Subject::Fault(Numbers::Page(*count)),
                Much::Places => Subject::Places,
                Much::Bytes => Subject::Nothing,
            },
            Status::BadDvi { offset, cause } => Subject::Dvi(DviFault::Byte(*offset, *cause)),
            Status::BadPick { .. } => Subject::Dvi(DviFault::Page),
            Status::MagClash { file } => Subject::Dvi(DviFault::Magnification(*file)),
            Status::BadFile {
                file,
                offset,
                cause,
            } => Subject::Dvi(DviFault::ByteOfFile(*file, *offset, *cause)),
        }
    }
}
