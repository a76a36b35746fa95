//! Files with their names, and lists of them.
use mt_scaled::{Bytes, Items, Name};

/// A file with its name.
#[derive(Debug, Drop)]
pub struct Held {
    /// The name by which it is fetched.
    pub name: Name,
    /// All its bytes.
    pub bytes: Bytes,
}

/// Files. Of two with one name the first counts.
pub type FileList = Items<Held>;

/// Numbers of calls, counted from 1.
pub type CallList = Items<u64>;
