//! Tests of the crates below the program that set and write: sets of fonts, boxes, the parts of a formula, its
//! conversion, lists in an arena, displays and DVI files. A module is named after its crate, without `mt_`.
#![tactic(auto)]

#[cfg(test)]
mod align;
#[cfg(test)]
mod arena;
#[cfg(test)]
mod boxes;
#[cfg(test)]
mod convert;
#[cfg(test)]
mod delim;
#[cfg(test)]
mod display;
#[cfg(test)]
mod display_rows;
#[cfg(test)]
mod dvi;
#[cfg(test)]
mod dviops;
#[cfg(test)]
mod dviread;
#[cfg(test)]
mod family;
#[cfg(test)]
mod fonts;
#[cfg(test)]
mod library;
#[cfg(test)]
mod pages;
#[cfg(test)]
mod parts;
#[cfg(test)]
mod piece_stack;
#[cfg(test)]
mod pieces;
#[cfg(test)]
mod rules;
#[cfg(test)]
mod scripts;
#[cfg(test)]
mod spacing;
