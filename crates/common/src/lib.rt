//! What several layers share: a word's two halves, and the words that specs/ has for bits and lists, with the laws about them.
#![tactic(auto)]

pub mod halves;
