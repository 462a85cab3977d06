// The functions that crate vekalumist_c exports: each asks one function of the crates below, over arrays of fixed length and lent slices, and
// stores what it says.
// Returned is 0, and the lent answer holds the answer; or a refusal's number, and the lent place holds its place. What is not stored stays as
// it was. A function that takes a slice has `raw` in its name: the C header's functions without it also take a null pointer of length 0.
#![tactic(auto)]

mod answer;
pub mod counts;
pub mod digests;
pub mod entries;
pub mod files;
pub mod map;
pub mod write;

ghost use Rattle.std.specs.Prelude.{◌≡◌};
ghost use Rattle.vekalumist.specs.Calls.{version};

const VERSION: u64 = 400;

// The version that is linked.
pub fn veka_version() -> u64
    ensures { result ≡ version }
{
    VERSION
}
