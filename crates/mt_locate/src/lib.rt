//! Where in a source a fault is that refuses it: its byte, its token, and the macro in whose body the token is ([`locate`]).
#![tactic(auto)]

mod definitions;
mod fault_token;
mod finding;
mod places;
mod sought;
mod traces;
mod unmatched;

pub use finding::locate;
pub use places::{Definition, FaultyFormula, Located};
