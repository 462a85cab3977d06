// Keys by their offset in a file: a table of offsets sorted by them, in place. And keys by their number in a lent slice, with
// a claim on their order.
// What `settle` and `check_claim` promise is in specs/.
#![tactic(auto)]

pub mod claim;
pub mod sort;
