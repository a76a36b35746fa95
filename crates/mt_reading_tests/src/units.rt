//! The lengths of a font that the tests of reading take.
use mt_scaled::Units;

/// The em and the ex of a font of 10pt.
pub const UNITS: Units = Units {
    em: 655_360,
    ex: 282_168,
};
