// The library for C: each function is that of crate vekalumist with its name, and promises the same. This crate is built as the archive, and no
// crate can use it.
#![tactic(auto)]

pub mod counts;
pub mod digests;
pub mod entries;
pub mod files;
pub mod map;
pub mod write;

ghost use Rattle.std.specs.Prelude.{◌≡◌};
ghost use Rattle.vekalumist.specs.Calls.{version};

// The version that is linked.
#[unsafe(no_mangle)]
pub extern "C" fn veka_version() -> u64
    ensures { result ≡ version }
{
    vekalumist::veka_version()
}
