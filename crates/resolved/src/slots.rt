// The slot table: each node's number among the earlier nodes of its kind, External or not, in a table that the caller
// lends. Two passes, so that a refused table is as it was: the first reads every entry, the second
// needs only each node's tag, which is in the top byte of its row.
ghost use Rattle.std.specs.Prelude.{◌≡◌, ◌++◌, ◌+◌, ◌*◌, ◌^◌, ◌<◌, ◌≤◌, length, drop};
ghost use Rattle.resolved.specs.Nodes.{external_row};
ghost use Rattle.resolved.specs.Slots.{slots_of, slots_outcome, table_after};
ghost use Rattle.resolved.specs.Shown.{shown_slots};

use layout::forest::ForestLayout;
use rows::read_entries;
use wire::refusal::{Refusal, Refused};
use wire::units::ByteOffset;

const MAX_NODES: usize = 0x4000_0000;

// Writes the slots of the first n nodes, whose rows all have entries: by number, of which a slot is made. Without a branch: the test of the top byte is
// `is_external` of the row's entry (`top_kind` in proofs/SlotLaws.antt), and both `if`s choose between two numbers.
fn fill_slots(s: &[u8], first: ByteOffset, n: usize, table: &mut [u32])
    requires { (n ≤ 2 ^ 30) × ((n ≤ length table.old) × (0 < n → first.0 + 8 * n ≤ length s.now)) }
    ensures { table.new ≡ slots_of (external_row s.now first.0) n ++ drop n table.old }
{
    let base = first.0;
    let mut externals: u32 = 0;
    for i in 0..n {
        let external = s[base + 8 * i + 7] / 16 == 8;
        table[i] = if external {
            externals
        } else {
            (i as u32) - externals
        };
        externals += u32::from(external);
    }
}

// Fills the slot table of the nodes of a layout record, and says what is left of the bound.
pub fn build_slots(
    s: &[u8],
    layout: ForestLayout,
    bound: Option<usize>,
    table: &mut [u32],
) -> Result<Option<usize>, Refused<usize>>
    ensures result_value { shown_slots result ≡ slots_outcome s.now layout bound (length table.old) }
    ensures table_after { table.new ≡ table_after s.now layout bound table.old }
{
    let first = layout.node_entry_offset;
    let nodes = layout.node_count;
    if MAX_NODES < nodes {
        return Err(Refused {
            why: Refusal::TooMany,
            at: 0,
        });
    }
    let bytes = 4 * nodes;
    if bound.is_some_and(|bound| bound < bytes) {
        return Err(Refused {
            why: Refusal::Budget,
            at: 0,
        });
    }
    if table.len() < nodes {
        return Err(Refused {
            why: Refusal::Room,
            at: 0,
        });
    }
    read_entries(s, first, nodes)?;
    fill_slots(s, first, nodes, table);
    Ok(bound.map(|bound| bound - bytes))
}
