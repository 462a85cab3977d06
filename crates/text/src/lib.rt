// Texts as bytes: a text with holes written into a lent buffer, numbers read from digits, and a list cut at a
// mark. What each function promises is in specs/.
#![tactic(auto)]

pub mod digits;
pub mod fill;
pub mod mark;
