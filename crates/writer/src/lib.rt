// The writer: from lent parts, the shortest file that shows them.
#![tactic(auto)]

mod check;
pub mod file;
mod group;
mod key;
pub mod parts;
mod section;
mod size;
