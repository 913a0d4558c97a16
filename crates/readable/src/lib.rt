// Trees as text for people: `.` a leaf, `(l r)` a node, `[a b c]` a list, and a decimal number.
#![tactic(auto)]

pub mod parsing;
pub mod tokens;
