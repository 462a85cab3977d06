// The layout record: where the sections of a file lie. Anyone may make one; only the scan's are known
// to fit their file.
use wire::units::{ByteOffset, Slot};

// The counts of digest rows are the slots past the last row. A hashless file has no node hashes.
#[derive(Clone, Copy)]
pub struct ForestLayout {
    pub node_count: usize,
    pub internal_node_count: Slot,
    pub external_node_count: Slot,
    pub roots_count: usize,
    pub roots_offset: ByteOffset,
    pub basic_block_offset: ByteOffset,
    pub basic_block_len: usize,
    pub node_entry_offset: ByteOffset,
    pub external_digest_offset: ByteOffset,
    pub node_hash_offset: Option<ByteOffset>,
    pub advice_map_offset: ByteOffset,
}
