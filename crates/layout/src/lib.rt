// The scan: the layout of any file, exactly by the format's rules; and roots and entries by index
// over any layout record. What each function promises is in specs/.
#![tactic(auto)]

pub mod facts;
pub mod forest;
mod head;
pub mod index;
pub mod scan;
