// Worked scripts and bad input, as tests.
#![tactic(auto)]

#[cfg(test)]
mod go_tests;
#[cfg(test)]
mod judge_tests;
#[cfg(test)]
mod reading_tests;
