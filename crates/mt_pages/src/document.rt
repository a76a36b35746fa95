//! Why a source has no document.
ghost use Rattle.std.specs.Prelude.{◌≡◌, false};
ghost use Rattle.mt_reader.specs.Documents.{DocumentAnswer};
ghost use Rattle.mt_reader.specs.Refusals.{IsExpandRefusal, IsReadRefusal, IsRefusal};
ghost use Rattle.mt_status.specs.Notes.{has_too_many_places};
ghost use Rattle.mt_status.specs.Origins.{IsPure};
ghost use Rattle.mt_pages.specs.Documents.{document_from, is_too_deep, token_refusal};

use mt_macro::ExpandError;
use mt_reader::{DocError, ReadError};
use mt_scan::ReadCause;
use mt_status::{MISSING_ARGUMENT, Much, Status};
use mt_token::TokenError;

fn token_refusal(error: TokenError) -> Status
    ensures { result ≡ token_refusal error }
{
    match error.place() {
        Some(offset) => Status::BadSource {
            offset: u64::from(offset),
            cause: error.number(),
        },
        None => Status::OutOfMemory,
    }
}

// Formula n is not expanded.
fn expand_refusal(n: u32, error: ExpandError) -> Status
    ensures is { (answer : DocumentAnswer) → IsExpandRefusal n error answer
        → document_from answer ≡ Err result }
    ensures few { has_too_many_places result ≡ false }
{
    match error {
        ExpandError::Budget { .. } | ExpandError::TooLong => Status::Budget { n },
        ExpandError::MissingArgument(token) => Status::BadFormula {
            n,
            token,
            cause: MISSING_ARGUMENT,
        },
        ExpandError::Unbalanced(_) | ExpandError::OutOfMemory => Status::OutOfMemory,
    }
}

// Whether a formula has too many open groups, which is a status of its own.
fn is_too_deep(cause: ReadCause) -> bool
    ensures { result ≡ is_too_deep cause }
{
    matches!(cause, ReadCause::TooDeep)
}

// Formula n is not read.
fn read_refusal(n: u32, error: ReadError) -> Status
    ensures is { (answer : DocumentAnswer) → IsReadRefusal n error answer
        → document_from answer ≡ Err result }
    ensures few { has_too_many_places result ≡ false }
{
    match error.fault() {
        Some((cause, token)) if is_too_deep(cause) => Status::TooDeep { n, token },
        Some((cause, token)) => Status::BadFormula {
            n,
            token,
            cause: cause.number(),
        },
        None => Status::OutOfMemory,
    }
}

/// Why a source has no document.
pub fn document_refusal(error: DocError) -> Status
    ensures is { (answer : DocumentAnswer) → IsRefusal error answer
        → IsPure (document_from answer) (Err result) }
    ensures few { has_too_many_places result ≡ false }
{
    match error {
        DocError::Source(cause) => token_refusal(cause),
        DocError::Outside { n, place, cause } => Status::BadFormula {
            n,
            token: place,
            cause: cause.number(),
        },
        DocError::Expand { n, cause } => expand_refusal(n, cause),
        DocError::Read { n, cause } => read_refusal(n, cause),
        DocError::Total { n, .. } => Status::Budget { n },
        DocError::Pages(count) => Status::TooMuch {
            kind: Much::Pages,
            count: u64::from(count),
        },
        DocError::OutOfMemory => Status::OutOfMemory,
    }
}
