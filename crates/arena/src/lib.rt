// Trees in lent memory: nodes in words, shared; trees read from bytes and written as bytes.
#![tactic(auto)]

pub mod nodes;
pub mod reading;
pub mod writing;
