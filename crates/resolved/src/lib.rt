// The nodes of a file by any layout record: the slot table and digests by index. What each function
// promises is in specs/.
#![tactic(auto)]

pub mod digests;
pub mod slots;
