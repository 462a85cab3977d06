// What is given beside a file: the format facts and the allocation bound, which is none or so many bytes.
ghost use Rattle.std.specs.Prelude.{◌≡◌, ◌*◌, ◌≤◌, ◌<◌};
ghost use Rattle.layout.specs.Facts.{bad_format, over_budget, hash_bytes};

// The format facts, by value. Nothing here knows any others.
#[derive(Clone, Copy)]
pub struct FormatFacts {
    pub magic: [u8; 4],
    pub version: [u8; 3],
    pub hashless: u8,
    pub reserved: u8,
    pub max_nodes: usize,
}

// Whether the facts are no format. (`|`: each test is cheap, and none needs another.)
#[tactic(auto, unfolding(crate::specs::Facts::bad_format))]
pub fn bad_format(f: FormatFacts) -> bool
    ensures { result ≡ bad_format f }
{
    (f.hashless.count_ones() != 1) | (f.hashless & f.reserved != 0) | (0x4000_0000 < f.max_nodes)
}

// Whether so many things of a size are beyond the bound.
#[tactic(auto, unfolding(crate::specs::Facts::over_budget))]
pub(crate) fn over_budget(bound: Option<usize>, size: usize, count: usize) -> bool
    requires { 0 < size }
    ensures { result ≡ over_budget bound size count }
{
    bound.is_some_and(|bytes| bytes / size < count)
}

// How many hashes of 32 bytes: one an internal node, none where the file is hashless.
pub fn hash_count(hashless: bool, internal: usize) -> usize
    ensures bytes { 32 * result ≡ hash_bytes hashless internal }
    ensures few { result ≤ internal }
{
    if hashless { 0 } else { internal }
}
