// A file: its flags, its layout, its roots, and the checks of all nodes.
ghost use Rattle.std.specs.Prelude.{◌≡◌};
ghost use Rattle.vekalumist.specs.Answers.{number_in, answered, placed};
ghost use Rattle.vekalumist.specs.Calls.{flags_call, scan_call, root_call, children_call, order_call, strict_call};

use crate::answer::tell;
use checks::{check_children, check_order, check_strict};
use crossing::{bound_of, facts_of, layout_of, scanned_row};
use layout::index::read_procedure_root_at;
use layout::scan::scan_layout;
use wire::refusal::{Refusal, Refused};
use wire::units::ByteOffset;

// The flags byte.
#[tactic(auto, unfolding(wire::specs::Table::first_met, crate::specs::Calls::flags_call))]
pub fn veka_raw_flags(s: &[u8], flags: &mut u8, place: &mut u64) -> u64
    ensures value { result ≡ number_in (flags_call s.now) }
    ensures flags_after { flags.new ≡ answered flags.old (flags_call s.now) }
    ensures place_after { place.new ≡ placed place.old (flags_call s.now) }
{
    let read = s.get(4).copied().ok_or(Refused {
        why: Refusal::Short,
        at: ByteOffset(4),
    });
    tell(read, flags, place)
}

// The layout of a file, and how many of its four counts are long.
pub fn veka_raw_scan(
    s: &[u8],
    marks: &[u8; 9],
    max_nodes: usize,
    allow: bool,
    bound: &[u64; 2],
    scanned: &mut [u64; 13],
    place: &mut u64,
) -> u64
    ensures value { result ≡ number_in (scan_call s.now marks.now max_nodes allow bound.now) }
    ensures scanned_after { scanned.new ≡ answered scanned.old (scan_call s.now marks.now max_nodes allow bound.now) }
    ensures place_after { place.new ≡ placed place.old (scan_call s.now marks.now max_nodes allow bound.now) }
{
    let read = scan_layout(s, facts_of(marks, max_nodes), allow, bound_of(bound));
    tell(read.map(scanned_row), scanned, place)
}

// The root at an index.
pub fn veka_raw_root(
    s: &[u8],
    layout: &[u64; 12],
    index: usize,
    root: &mut u32,
    place: &mut u64,
) -> u64
    ensures value { result ≡ number_in (root_call s.now layout.now index) }
    ensures root_after { root.new ≡ answered root.old (root_call s.now layout.now index) }
    ensures place_after { place.new ≡ placed place.old (root_call s.now layout.now index) }
{
    tell(
        read_procedure_root_at(s, layout_of(layout), index),
        root,
        place,
    )
}

// Whether every child is below its parent.
pub fn veka_raw_children(s: &[u8], layout: &[u64; 12], place: &mut u64) -> u64
    ensures value { result ≡ number_in (children_call s.now layout.now) }
    ensures place_after { place.new ≡ placed place.old (children_call s.now layout.now) }
{
    tell(check_children(s, layout_of(layout)), &mut (), place)
}

// Whether the nodes are in order.
pub fn veka_raw_order(s: &[u8], layout: &[u64; 12], place: &mut u64) -> u64
    ensures value { result ≡ number_in (order_call s.now layout.now) }
    ensures place_after { place.new ≡ placed place.old (order_call s.now layout.now) }
{
    tell(check_order(s, layout_of(layout)), &mut (), place)
}

// Whether every entry stands in its written form.
pub fn veka_raw_strict(s: &[u8], layout: &[u64; 12], place: &mut u64) -> u64
    ensures value { result ≡ number_in (strict_call s.now layout.now) }
    ensures place_after { place.new ≡ placed place.old (strict_call s.now layout.now) }
{
    tell(check_strict(s, layout_of(layout)), &mut (), place)
}
