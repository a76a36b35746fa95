//! Superscripts and subscripts: beside a nucleus (The TeXbook, Appendix G, rule 18), and above and
//! below a large operator (rule 13a).
#![tactic(auto)]

mod attach;
mod limits;
mod shifts;

pub use attach::{Nucleus, attach_scripts, both_on_marks, sub_on_marks, sup_on_marks};
pub use limits::{limits_box, limits_on_marks};
pub use mt_rules::Shifts;
pub use shifts::script_shifts;
