//! The files of a run, fetched once more.
ghost use Rattle.std.specs.Prelude.{◌≡◌, ◌<◌, ◌≤◌, ◌^◌, length, IfOk};

use crate::text::Unsaid;
use mt_family::{FontList, MAX_LIST_BYTES, read_font_list};
use mt_outside::Cabinet;
use mt_scaled::Bytes;
use std::alloc::Global;

/// A file of at most so many bytes.
pub fn fetched<C: Cabinet>(
    alloc: Global,
    cabinet: &mut C,
    name: &str,
    limit: u64,
) -> Result<Bytes, Unsaid>
    requires { limit < 2 ^ 40 }
    ensures within { IfOk result (λ bytes. length bytes ≤ limit) }
    ensures holds { C.holds cabinet.new ≡ C.holds cabinet.old }
{
    cabinet.fetch(alloc, name, limit).map_err(|_| Unsaid)
}

/// The forms that lines of a font list may have.
#[derive(Clone, Copy, Debug, PartialEq, Eq)]
pub enum ListForms {
    /// Those of version 1.
    First,
    /// Those of version 2.
    Second,
}

/// A font list, and the forms of its lines.
#[derive(Drop)]
pub struct ReadList {
    /// The list.
    pub list: FontList,
    /// The forms of its lines.
    pub forms: ListForms,
}

/// What the first line of a font list begins with; its version follows.
pub const LIST_HEAD: &[u8] = b"mathset fonts ";

fn forms_of(bytes: &[u8]) -> ListForms {
    match bytes.strip_prefix(LIST_HEAD) {
        Some([b'2', ..]) => ListForms::Second,
        _ => ListForms::First,
    }
}

/// A font list without a fault.
pub fn fetched_list<C: Cabinet>(
    alloc: Global,
    cabinet: &mut C,
    name: &str,
) -> Result<ReadList, Unsaid>
    ensures holds { C.holds cabinet.new ≡ C.holds cabinet.old }
{
    let bytes = fetched(alloc, cabinet, name, MAX_LIST_BYTES)?;
    match read_font_list(alloc, bytes.as_slice()) {
        Ok(list) => Ok(ReadList {
            list,
            forms: forms_of(bytes.as_slice()),
        }),
        Err(_) => Err(Unsaid),
    }
}
