// Reads a script: bytes to where its functions start and where its expressions end.
#![tactic(auto)]

pub mod ends;
pub mod expressions;
pub mod functions;
pub mod head;
mod needs;
pub mod program;
