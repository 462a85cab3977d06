// The scan: stages of a few tests each, in the table's order (specs/Scan.antt). A stage promises its
// segment of the table, and the scan has the stages in a row (specs/Steps.antt).
#![tactic(auto, unfolding(crate::specs::Facts::bad_format, wire::specs::Counts::count_outcome, wire::specs::Table::first_met))]

ghost use Rattle.std.specs.Prelude.{◌≡◌, ◌+◌, ◌*◌, ◌^◌, ◌≤◌, length, OnOk, IfOk};
ghost use Rattle.wire.specs.Table.{checked};
ghost use Rattle.layout.specs.Given.{Given};
ghost use Rattle.layout.specs.Scan.{scan_outcome};
ghost use Rattle.layout.specs.Steps.{nodes_of, node_count, preamble_rules, marks_outcome, budget_rules, entry_section_rules};
ghost use Rattle.layout.specs.Steps.{count_at, head_outcome, roots_outcome, blocks_outcome};
ghost use Rattle.layout.specs.Shown.{shown_scan, shown_stage, shown_head};

use crate::facts::{FormatFacts, bad_format, over_budget};
use crate::forest::ForestLayout;
use crate::head::{CountAt, Head};
use rows::read_entries;
use wire::count::read_count;
use wire::number::is_short;
use wire::refusal::{Refusal, Refused};
use wire::units::ByteOffset;

// What the scan gives: the layout of a file, and how many of its four counts are long.
#[derive(Clone, Copy)]
pub struct Scanned {
    pub layout: ForestLayout,
    pub long_counts: usize,
}

fn refused(why: Refusal, at: ByteOffset) -> Refused<ByteOffset>
    ensures { result ≡ record { why = why; at = at } }
{
    Refused { why, at }
}

// FORMAT and magic, and that flags and version are whole.
fn check_preamble(f: FormatFacts, s: &[u8]) -> Result<(), Refused<ByteOffset>>
    ensures rules { shown_stage result ≡ checked (preamble_rules f s.now) }
    ensures few { OnOk result (f.max_nodes ≤ 2 ^ 30) }
    ensures whole { OnOk result (8 ≤ length s.now) }
{
    if bad_format(f) {
        return Err(refused(Refusal::Format, ByteOffset(0)));
    }
    if s.len() < 4 {
        return Err(refused(Refusal::Short, ByteOffset(0)));
    }
    if !s.starts_with(&f.magic) {
        return Err(refused(Refusal::Magic, ByteOffset(0)));
    }
    if s.len() < 5 {
        return Err(refused(Refusal::Short, ByteOffset(4)));
    }
    if s.len() < 8 {
        return Err(refused(Refusal::Short, ByteOffset(5)));
    }
    Ok(())
}

// Whether the file is hashless; but first version, reserved bits, and hashless where it is not allowed.
fn check_marks(f: FormatFacts, allow: bool, s: &[u8]) -> Result<bool, Refused<ByteOffset>>
    requires { 8 ≤ length s.now }
    ensures { shown_stage result ≡ marks_outcome f allow s.now }
{
    let outdated = s[5..8] != f.version[..];
    let reserved = s[4] & f.reserved != 0;
    let hashless = s[4] & f.hashless != 0;
    if outdated {
        return Err(refused(Refusal::Version, ByteOffset(5)));
    }
    if reserved {
        return Err(refused(Refusal::Flags, ByteOffset(4)));
    }
    if hashless && !allow {
        return Err(refused(Refusal::Hashless, ByteOffset(4)));
    }
    Ok(hashless)
}

// The count that starts at a place.
fn count_at(s: &[u8], start: ByteOffset) -> Result<CountAt, Refused<ByteOffset>>
    ensures { shown_stage result ≡ count_at s.now start.0 }
{
    let (count, after) = read_count(s, start)?;
    Ok(CountAt {
        count: count.value as usize,
        next: after.at,
        shortest: count.shortest,
    })
}

// The two node counts, and their sum.
fn read_head(s: &[u8], f: FormatFacts, hashless: bool) -> Result<Head, Refused<ByteOffset>>
    requires { f.max_nodes ≤ 2 ^ 30 }
    ensures { shown_head result ≡ head_outcome f hashless s.now }
{
    let internal = count_at(s, ByteOffset(8))?;
    let external = count_at(s, internal.next)?;
    let Some(nodes) = internal.count.checked_add(external.count) else {
        return Err(refused(Refusal::Overflow, ByteOffset(8)));
    };
    if f.max_nodes < nodes {
        return Err(refused(Refusal::TooMany, ByteOffset(8)));
    }
    Ok(Head {
        hashless,
        internal,
        external,
    })
}

// Nodes of 8 bytes, externals of 32 and, with hashes, internals of 32.
fn check_budgets(bound: Option<usize>, head: Head) -> Result<(), Refused<ByteOffset>>
    ensures { shown_stage result ≡ checked (budget_rules bound (nodes_of head)) }
{
    if over_budget(bound, 8, head.node_count())
        || over_budget(bound, 32, head.external.count)
        || (!head.hashless && over_budget(bound, 32, head.internal.count))
    {
        return Err(refused(Refusal::Budget, ByteOffset(8)));
    }
    Ok(())
}

// The count of the roots, which are inside the file.
fn read_roots(
    s: &[u8],
    bound: Option<usize>,
    start: ByteOffset,
) -> Result<CountAt, Refused<ByteOffset>>
    ensures rules { shown_stage result ≡ roots_outcome bound start.0 s.now }
    ensures inside { IfOk result (λ roots. roots.next.0 + 4 * roots.count ≤ length s.now) }
{
    let roots = count_at(s, start)?;
    if over_budget(bound, 4, roots.count) {
        return Err(refused(Refusal::Budget, start));
    }
    let Some(bytes) = roots.count.checked_mul(4) else {
        return Err(refused(Refusal::Overflow, start));
    };
    if is_short(s, roots.next, bytes) {
        return Err(refused(Refusal::Short, roots.next));
    }
    Ok(roots)
}

// The block length. The block data, and the sections of `fixed` bytes after it, are inside the file.
fn read_blocks(
    s: &[u8],
    bound: Option<usize>,
    start: ByteOffset,
    fixed: usize,
) -> Result<CountAt, Refused<ByteOffset>>
    ensures rules { shown_stage result ≡ blocks_outcome bound start.0 fixed s.now }
    ensures inside { IfOk result (λ blocks. blocks.next.0 + (blocks.count + fixed) ≤ length s.now) }
{
    let blocks = count_at(s, start)?;
    let Some(bytes) = blocks.count.checked_add(fixed) else {
        return Err(refused(Refusal::Overflow, start));
    };
    if over_budget(bound, 1, bytes) {
        return Err(refused(Refusal::Budget, start));
    }
    if is_short(s, blocks.next, bytes) {
        return Err(refused(Refusal::Short, blocks.next));
    }
    Ok(blocks)
}

// The entries, and whether as many are external as the header says. (A head handed over in memory would
// cost the scan of a small file more than all its tests.)
#[inline(always)]
fn check_entries(s: &[u8], first: ByteOffset, head: Head) -> Result<(), Refused<ByteOffset>>
    requires { first.0 + 8 * node_count (nodes_of head) ≤ length s.now }
    ensures { shown_stage result ≡ checked (entry_section_rules first.0 (nodes_of head) s.now) }
{
    let externals = match read_entries(s, first, head.node_count()) {
        Ok(externals) => externals,
        Err(row) => return Err(row.told_at(ByteOffset(first.0 + 8 * row.at))),
    };
    if externals != head.external.count {
        return Err(refused(Refusal::Externals, head.internal.next));
    }
    Ok(())
}

// The layout of a file under format facts; whether hashless files are allowed; under a bound.
pub fn scan_layout(
    s: &[u8],
    f: FormatFacts,
    allow: bool,
    bound: Option<usize>,
) -> Result<Scanned, Refused<ByteOffset>>
    ensures result_value { shown_scan result ≡ scan_outcome f s.now allow bound }
    ensures given { Given f s.now }
{
    check_preamble(f, s)?;
    let hashless = check_marks(f, allow, s)?;
    let head = read_head(s, f, hashless)?;
    check_budgets(bound, head)?;
    let roots = read_roots(s, bound, head.external.next)?;
    let length_at = ByteOffset(roots.next.0 + 4 * roots.count);
    let blocks = read_blocks(s, bound, length_at, head.fixed_bytes())?;
    check_entries(s, ByteOffset(blocks.next.0 + blocks.count), head)?;
    Ok(Scanned {
        layout: head.layout(roots, blocks),
        long_counts: head.long_counts(roots, blocks),
    })
}
