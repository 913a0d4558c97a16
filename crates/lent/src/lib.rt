// Lent memory that is filled from its front on: a stack of values, and bytes that are written.
#![tactic(auto)]

pub mod output;
pub mod stack;
