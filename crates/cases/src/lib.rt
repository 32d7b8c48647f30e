//! The cases that document 01 marks, as one table about the definitions: specs/Table.antt. There is no code here; programs run the same cases.
#![tactic(auto)]
