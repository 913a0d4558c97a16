// The two public calls, what they answer, and the answers as numbers for other languages.
#![tactic(auto)]

mod floors;
mod go_call;
mod judge_call;
mod numbers;
mod words;

pub use floors::{Limits, judge_words};
pub use go_call::{Refusal, Value, go};
pub use judge_call::{Judged, judge};
pub use numbers::RanC;
pub use words::split_tables;
