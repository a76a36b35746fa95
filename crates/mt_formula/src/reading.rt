//! Lists, read into an arena.

pub mod argument;
pub mod context;
pub mod displays;
pub mod ends;
pub mod fraction;
pub mod given;
pub mod list;
pub mod noads;
pub mod parts;
pub mod rows;
pub mod stop;
pub mod tables;
pub mod whole_list;
