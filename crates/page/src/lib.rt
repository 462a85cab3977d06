// The page of a file, as text in a lent buffer; format facts from words; the answer for whole input; and
// the small program. What each function promises is in specs/.
#![tactic(auto)]

pub mod answer;
pub mod program;
pub mod sheet;
pub mod words;
