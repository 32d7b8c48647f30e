//! The word rules of document 01, a function for each, and its assertions' tests.
#![tactic(auto)]

pub mod arithmetic;
pub mod assertions;
pub mod bitwise;
pub mod hints;
mod msb;
