//! Tests of the crates below the program that read: arithmetic, files, font metrics, tokens, macros and formulas.
//! A module is named after its crate, without `mt_`, or after what it reads.
#![tactic(auto)]

#[cfg(test)]
mod formula;
#[cfg(test)]
mod macros;
#[cfg(test)]
mod outside;
#[cfg(test)]
mod plain;
#[cfg(test)]
mod reader;
#[cfg(test)]
mod samples;
#[cfg(test)]
mod scaled;
#[cfg(test)]
mod scan;
#[cfg(test)]
mod tables;
#[cfg(test)]
mod tfm;
#[cfg(test)]
mod token;
#[cfg(test)]
mod units;
