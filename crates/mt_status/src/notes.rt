//! What a run notes beside its status.
ghost use Rattle.std.specs.Prelude.{◌≡◌, None};

use mt_scaled::Units;

/// What a run notes beside its status, for the lines that explain a fault: what was read and set for that status, so
/// that it need not be read or set once more.
#[derive(Clone, Copy, Debug)]
pub struct Notes {
    /// What em and ex are in the fonts of the run, once they are read.
    pub units: Option<Units>,
    /// The number of the formula that has a place too many, counted from 1.
    pub formula: Option<u32>,
}

impl Notes {
    /// Nothing is noted.
    pub fn none() -> Notes
        ensures { result ≡ record { units = None; formula = None } }
    {
        Notes {
            units: None,
            formula: None,
        }
    }
}
