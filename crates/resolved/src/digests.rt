// The digest of a node by its index: in the section of its kind, in its slot, which is counted or
// taken from a lent table. Digest rows are not held against the section's count: a layout record may
// say anything, and each reader looks at the bytes again.
ghost use Rattle.std.specs.Prelude.{◌≡◌};
ghost use Rattle.rows.specs.Rows.{row_place};
ghost use Rattle.resolved.specs.Digests.{section_of, digest_at, digest_in, digest_by_counting, digest_with_table};
ghost use Rattle.resolved.specs.Shown.{shown_digest};

use info::node::is_external;
use layout::forest::ForestLayout;
use rows::{read_entries, row_entry, row_place};
use wire::refusal::{Refusal, Refused};
use wire::units::{ByteOffset, Slot};
use wire::word::read_word;

// The unit of a slot becomes that of a place here, and nowhere else: where the row of a slot starts.
pub fn digest_place(section: ByteOffset, slot: Slot) -> Option<ByteOffset>
    ensures { result ≡ row_place section.0 32 slot.0 }
{
    row_place(section, 32, slot.0)
}

// The digest in a slot of a section, for the node asked for.
fn digest_at(
    s: &[u8],
    index: usize,
    section: ByteOffset,
    slot: Slot,
) -> Result<[u64; 4], Refused<usize>>
    ensures { shown_digest result ≡ digest_at s.now index section.0 slot.0 }
{
    let Some(at) = digest_place(section, slot) else {
        return Err(Refused {
            why: Refusal::Overflow,
            at: index,
        });
    };
    let (word, _) = read_word(s, at).map_err(|refused| refused.told_at(index))?;
    Ok(word)
}

// The digest of a node of a kind in its slot. Each section has a call of its own: with one call, after the section was
// chosen, a digest took 1.04 of its time.
fn digest_in(
    s: &[u8],
    layout: ForestLayout,
    index: usize,
    external: bool,
    slot: Slot,
) -> Result<[u64; 4], Refused<usize>>
    ensures { shown_digest result ≡ digest_in s.now index slot.0 (section_of layout external) }
{
    if external {
        return digest_at(s, index, layout.external_digest_offset, slot);
    }
    let Some(section) = layout.node_hash_offset else {
        return Err(Refused {
            why: Refusal::NoHash,
            at: index,
        });
    };
    digest_at(s, index, section, slot)
}

// The digest of a node, its slot counted: the earlier nodes are read once each.
pub fn digest_by_counting(
    s: &[u8],
    layout: ForestLayout,
    index: usize,
) -> Result<[u64; 4], Refused<usize>>
    ensures { shown_digest result ≡ digest_by_counting s.now layout index }
{
    if layout.node_count <= index {
        return Err(Refused {
            why: Refusal::Index,
            at: index,
        });
    }
    let first = layout.node_entry_offset;
    let externals = read_entries(s, first, index)?;
    let external = is_external(row_entry(s, first, index)?);
    let slot = if external {
        externals
    } else {
        index - externals
    };
    digest_in(s, layout, index, external, Slot(slot))
}

// The digest of a node, its slot taken from a table.
pub fn digest_with_table(
    s: &[u8],
    layout: ForestLayout,
    index: usize,
    table: &[u32],
) -> Result<[u64; 4], Refused<usize>>
    ensures { shown_digest result ≡ digest_with_table s.now layout index table.now }
{
    if layout.node_count <= index {
        return Err(Refused {
            why: Refusal::Index,
            at: index,
        });
    }
    if table.len() < layout.node_count {
        return Err(Refused {
            why: Refusal::Room,
            at: index,
        });
    }
    let external = is_external(row_entry(s, layout.node_entry_offset, index)?);
    digest_in(s, layout, index, external, Slot(table[index] as usize))
}
