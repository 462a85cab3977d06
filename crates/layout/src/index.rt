// Roots and entries by index, over any layout record: anyone may make one, so each reader checks again. (File and record are two
// arguments here and above: the view, which holds both, is by its named form a layer over these readers: form-1 of docs/DECISIONS.md.)
ghost use Rattle.std.specs.Prelude.{◌≡◌};
ghost use Rattle.layout.specs.Index.{root_outcome, node_outcome};
ghost use Rattle.rows.specs.Shown.{shown_row};
ghost use Rattle.layout.specs.Shown.{shown_root};

use crate::forest::ForestLayout;
use info::MastNodeEntry;
use rows::{row_entry, row_place};
use wire::number::{is_short, u32_at};
use wire::refusal::{Refusal, Refused};

// A procedure root, as a node's number, or why there is none, with the index asked for.
#[tactic(auto, unfolding(crate::specs::Index::root_outcome, crate::specs::Index::root_rules, wire::specs::Le::number_at, wire::specs::Table::first_met))]
pub fn read_procedure_root_at(
    s: &[u8],
    layout: ForestLayout,
    index: usize,
) -> Result<u32, Refused<usize>>
    ensures { shown_root result ≡ root_outcome s.now layout index }
{
    let refused = |why| Refused { why, at: index };
    if layout.roots_count <= index {
        return Err(refused(Refusal::Index));
    }
    let Some(at) = row_place(layout.roots_offset, 4, index) else {
        return Err(refused(Refusal::Overflow));
    };
    if is_short(s, at, 4) {
        return Err(refused(Refusal::Short));
    }
    let id = u32_at(s, at);
    if layout.node_count <= id as usize {
        return Err(refused(Refusal::RootId));
    }
    Ok(id as u32)
}

#[tactic(auto, unfolding(crate::specs::Index::node_outcome, crate::specs::Index::node_rules, rows::specs::Rows::row_outcome, wire::specs::Table::first_met))]
pub fn read_node_entry_at(
    s: &[u8],
    layout: ForestLayout,
    index: usize,
) -> Result<MastNodeEntry, Refused<usize>>
    ensures { shown_row result ≡ node_outcome s.now layout index }
{
    if layout.node_count <= index {
        return Err(Refused {
            why: Refusal::Index,
            at: index,
        });
    }
    row_entry(s, layout.node_entry_offset, index)
}
