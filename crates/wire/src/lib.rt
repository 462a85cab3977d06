// The lowest layer: units, refusals, and the numbers, counts and words of a file.
// What each function promises is in specs/.
#![tactic(auto)]

pub mod count;
pub mod number;
pub mod refusal;
pub mod units;
pub mod word;
