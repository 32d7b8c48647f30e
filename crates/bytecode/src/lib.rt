//! The bytecode of document 01: its opcodes, the instruction, the layout of the fields, and the decoder.
#![tactic(auto)]

pub mod decoder;
pub mod instruction;
pub mod layout;
pub mod opcode;
