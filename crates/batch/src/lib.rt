//! Demand 3, and what demand 2 says of a single parcel: theorems about the definitions that the contracts of `run`, `raise` and `join` cite.
//! There is no code here; a caller cuts, runs and joins as it likes, and specs/Demands.antt says what comes of it.
#![tactic(auto)]
