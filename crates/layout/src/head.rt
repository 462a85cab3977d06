// What stands at the head of a file: what the header and the two node counts say.
ghost use Rattle.std.specs.Prelude.{◌≡◌, ◌+◌, ◌^◌, ◌≤◌, ◌<◌};
ghost use Rattle.layout.specs.Facts.{hash_bytes};

use crate::facts::hash_count;
use crate::forest::ForestLayout;
use wire::count::long_one;
use wire::units::{ByteOffset, Slot};

// One of the four counts: what it says, where the file goes on after it, and whether it is the shortest.
#[derive(Clone, Copy)]
pub(crate) struct CountAt {
    pub count: usize,
    pub next: ByteOffset,
    pub shortest: bool,
}

#[derive(Clone, Copy)]
pub(crate) struct Head {
    pub hashless: bool,
    pub internal: CountAt,
    pub external: CountAt,
    ghost few: { internal.count + external.count ≤ 2 ^ 30 },
}

impl Head {
    ghost use Rattle.layout.specs.Steps.{nodes_of, node_count, fixed_of, layout_of, long_of};

    pub(crate) fn node_count(self) -> usize
        ensures { result ≡ node_count (nodes_of self) }
    {
        self.internal.count + self.external.count
    }

    // The bytes of the hashes.
    fn hash_bytes(self) -> usize
        ensures { result ≡ hash_bytes self.hashless self.internal.count }
    {
        32 * hash_count(self.hashless, self.internal.count)
    }

    // The bytes of entries, digests and hashes.
    pub(crate) fn fixed_bytes(self) -> usize
        ensures { result ≡ fixed_of (nodes_of self) }
    {
        8 * self.node_count() + (32 * self.external.count + self.hash_bytes())
    }

    // The layout record. All its sections are inside the file, so nothing wraps.
    pub(crate) fn layout(self, roots: CountAt, blocks: CountAt) -> ForestLayout
        requires { blocks.next.0 + (blocks.count + fixed_of (nodes_of self)) < 2 ^ 64 }
        ensures { result ≡ layout_of (nodes_of self) roots blocks }
    {
        let entries_at = blocks.next.0 + blocks.count;
        let digests_at = entries_at + 8 * self.node_count();
        let hashes_at = digests_at + 32 * self.external.count;
        let map_at = hashes_at + self.hash_bytes();
        ForestLayout {
            node_count: self.node_count(),
            internal_node_count: Slot(self.internal.count),
            external_node_count: Slot(self.external.count),
            roots_count: roots.count,
            roots_offset: roots.next,
            basic_block_offset: blocks.next,
            basic_block_len: blocks.count,
            node_entry_offset: ByteOffset(entries_at),
            external_digest_offset: ByteOffset(digests_at),
            node_hash_offset: (!self.hashless).then_some(ByteOffset(hashes_at)),
            advice_map_offset: ByteOffset(map_at),
        }
    }

    // How many of the four counts are long.
    pub(crate) fn long_counts(self, roots: CountAt, blocks: CountAt) -> usize
        ensures { result ≡ long_of (nodes_of self) roots blocks }
    {
        long_one(self.internal.shortest)
            + long_one(self.external.shortest)
            + long_one(roots.shortest)
            + long_one(blocks.shortest)
    }
}
