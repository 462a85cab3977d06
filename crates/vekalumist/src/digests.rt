// Digests, and the slot table.
ghost use Rattle.std.specs.Prelude.{◌≡◌, length};
ghost use Rattle.vekalumist.specs.Answers.{number_in, answered, placed};
ghost use Rattle.vekalumist.specs.Calls.{digest_call, digest_table_call, slots_call, slots_after};

use crate::answer::tell;
use crossing::{bound_of, bound_row, layout_of};
use resolved::digests::{digest_by_counting, digest_with_table};
use resolved::slots::build_slots;

// The digest of a node, its slot counted.
pub fn veka_raw_digest(
    s: &[u8],
    layout: &[u64; 12],
    index: usize,
    digest: &mut [u64; 4],
    place: &mut u64,
) -> u64
    ensures value { result ≡ number_in (digest_call s.now layout.now index) }
    ensures digest_after { digest.new ≡ answered digest.old (digest_call s.now layout.now index) }
    ensures place_after { place.new ≡ placed place.old (digest_call s.now layout.now index) }
{
    tell(
        digest_by_counting(s, layout_of(layout), index),
        digest,
        place,
    )
}

// The digest of a node, its slot taken from a slot table.
pub fn veka_raw_digest_with_table(
    s: &[u8],
    layout: &[u64; 12],
    index: usize,
    table: &[u32],
    digest: &mut [u64; 4],
    place: &mut u64,
) -> u64
    ensures value { result ≡ number_in (digest_table_call s.now layout.now index table.now) }
    ensures digest_after { digest.new ≡ answered digest.old (digest_table_call s.now layout.now index table.now) }
    ensures place_after { place.new ≡ placed place.old (digest_table_call s.now layout.now index table.now) }
{
    tell(
        digest_with_table(s, layout_of(layout), index, table),
        digest,
        place,
    )
}

// The slot table of the nodes, in the lent table: what is left of the bound.
pub fn veka_raw_slots(
    s: &[u8],
    layout: &[u64; 12],
    bound: &[u64; 2],
    table: &mut [u32],
    left: &mut [u64; 2],
    place: &mut u64,
) -> u64
    ensures value { result ≡ number_in (slots_call s.now layout.now bound.now (length table.old)) }
    ensures left_after { left.new ≡ answered left.old (slots_call s.now layout.now bound.now (length table.old)) }
    ensures place_after { place.new ≡ placed place.old (slots_call s.now layout.now bound.now (length table.old)) }
    ensures table_after { table.new ≡ slots_after s.now layout.now bound.now table.old }
{
    let rest = build_slots(s, layout_of(layout), bound_of(bound), table);
    tell(rest.map(bound_row), left, place)
}
