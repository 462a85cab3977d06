// The parts of a file, as C lends them: flat lists.
#[derive(Clone, Copy)]
pub struct Parts<'a> {
    pub flags: u8,
    pub roots: &'a [u32],
    // block data
    pub blocks: &'a [u8],
    // a word for each node
    pub words: &'a [u64],
    // digests of the external nodes, 32 bytes each, and hashes of the others
    pub external: &'a [u8],
    pub hashes: &'a [u8],
    // four numbers for each key of the map, how many values it has, and these, one key's after the other's
    pub keys: &'a [u64],
    pub lengths: &'a [u64],
    pub values: &'a [u64],
}
