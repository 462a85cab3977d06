// The advice map: its walk over a lent table of key offsets, the lookup of a key in that table, the values of a key, and the table by place.
// What each function promises is in specs/.
#![tactic(auto)]

pub mod lookup;
pub mod table;
pub mod walk;
