// Where a program's expressions stand, and the memory that they are worked out in.
#![tactic(auto)]

pub mod places;
pub mod store;
pub mod text;
pub mod words;
