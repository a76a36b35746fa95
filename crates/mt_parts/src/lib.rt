//! Parts of a formula that are set by rules of their own: fractions, radicals, lines over and under
//! a body, accents, and rows centred on the axis (The TeXbook, Appendix G, rules 8 to 12 and 15;
//! tex.web §734 to §748); and those of plain TeX: roots with a degree, phantoms, and delimiters of
//! fixed sizes (The TeXbook, chapters 16 to 18 and Appendix B).
#![tactic(auto)]

mod accents;
mod big;
mod boxed;
mod centred;
mod fraction;
mod lines;
mod radical;
mod root;
mod rows;
mod rules;
mod shifts;
mod veil;

pub use accents::{accent_box, accent_on_marks};
pub use big::{big_box, big_on_marks};
pub use centred::{vcenter_box, vcenter_on_marks};
pub use fraction::{fraction_box, fraction_on_marks};
pub use lines::{overline_box, overline_on_marks, underline_box, underline_on_marks};
pub use mt_rules::Shifts;
pub use radical::{radical_box, radical_on_marks};
pub use root::{RootKerns, raise_of_degree, root_kerns, root_on_marks, root_row};
pub use shifts::fraction_shifts;
pub use veil::{veil_box, veil_on_marks};
