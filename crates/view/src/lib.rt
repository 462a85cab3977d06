// A view of a file: its bytes beside the layout, which is any record. The readers are its
// methods and call those of the bytes and the layout, so each promises what that one promises. The functions
// below them take the bytes and the layout, make a view and read through it: their callers see no view.
#![tactic(auto)]

ghost use Rattle.std.specs.Prelude.{◌≡◌};
ghost use Rattle.layout.specs.Index.{root_outcome, node_outcome};
ghost use Rattle.rows.specs.Shown.{shown_row};
ghost use Rattle.layout.specs.Shown.{shown_root};
ghost use Rattle.resolved.specs.Digests.{digest_by_counting};
ghost use Rattle.resolved.specs.Shown.{shown_digest};

use info::MastNodeEntry;
use layout::forest::ForestLayout;
use layout::index::{read_node_entry_at, read_procedure_root_at};
use resolved::digests::digest_by_counting;
use wire::refusal::Refused;

#[derive(Clone, Copy)]
pub struct ForestView<'a> {
    pub bytes: &'a [u8],
    pub layout: ForestLayout,
}

impl<'a> ForestView<'a> {
    pub fn new(bytes: &'a [u8], layout: ForestLayout) -> ForestView<'a>
        ensures { (result.bytes ≡ bytes.entry) × (result.layout ≡ layout) }
    {
        ForestView { bytes, layout }
    }

    pub fn root(self, index: usize) -> Result<u32, Refused<usize>>
        ensures { shown_root result ≡ root_outcome self.entry.bytes.now self.entry.layout index }
    {
        read_procedure_root_at(self.bytes, self.layout, index)
    }

    pub fn entry(self, index: usize) -> Result<MastNodeEntry, Refused<usize>>
        ensures { shown_row result ≡ node_outcome self.entry.bytes.now self.entry.layout index }
    {
        read_node_entry_at(self.bytes, self.layout, index)
    }

    pub fn digest(self, index: usize) -> Result<[u64; 4], Refused<usize>>
        ensures { shown_digest result ≡ digest_by_counting self.entry.bytes.now self.entry.layout index }
    {
        digest_by_counting(self.bytes, self.layout, index)
    }
}

pub fn root_in(s: &[u8], layout: ForestLayout, index: usize) -> Result<u32, Refused<usize>>
    ensures { shown_root result ≡ root_outcome s.now layout index }
{
    ForestView::new(s, layout).root(index)
}

pub fn entry_in(
    s: &[u8],
    layout: ForestLayout,
    index: usize,
) -> Result<MastNodeEntry, Refused<usize>>
    ensures { shown_row result ≡ node_outcome s.now layout index }
{
    ForestView::new(s, layout).entry(index)
}

pub fn digest_in(s: &[u8], layout: ForestLayout, index: usize) -> Result<[u64; 4], Refused<usize>>
    ensures { shown_digest result ≡ digest_by_counting s.now layout index }
{
    ForestView::new(s, layout).digest(index)
}
