//! Where variables come from: what a call's size-change graph is made from.
#![tactic(auto)]

pub mod origin;
pub mod view;
