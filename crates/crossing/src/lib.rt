// What crosses to C as an array of fixed length, and what it stands for: format facts, layouts, bounds, entries.
// Functions, and no `From`: arrays are nobody's type here, and the types on the other side are those of crates that
// know nothing of C.
#![tactic(auto)]

ghost use Rattle.std.specs.Prelude.{◌≡◌};
ghost use Rattle.crossing.specs.Arrays.{facts_of, optional_of, layout_of, bound_of, optional_row, layout_row, scanned_row, bound_row, entry_row};

use info::MastNodeEntry;
use info::node::kind_of;
use layout::facts::FormatFacts;
use layout::forest::ForestLayout;
use layout::scan::Scanned;
use wire::units::{ByteOffset, Slot};

// Nine bytes: magic, version, the hashless mask, the reserved mask; and the node maximum.
#[tactic(auto, unfolding(crate::specs::Arrays::facts_of))]
pub fn facts_of(marks: &[u8; 9], max_nodes: usize) -> FormatFacts
    ensures { result ≡ facts_of marks.now max_nodes }
{
    FormatFacts {
        magic: [marks[0], marks[1], marks[2], marks[3]],
        version: [marks[4], marks[5], marks[6]],
        hashless: marks[7],
        reserved: marks[8],
        max_nodes,
    }
}

// A flag and a number: a flag of 0 is none.
#[tactic(auto, unfolding(crate::specs::Arrays::optional_of))]
fn optional_of(flag: u64, n: u64) -> Option<usize>
    ensures { result ≡ optional_of flag n }
{
    (flag != 0).then_some(n as usize)
}

// A number as 1 and the number, none as 0 and 0.
fn optional_row(n: Option<usize>) -> [u64; 2]
    ensures { result ≡ optional_row n }
{
    match n {
        Some(n) => [1, n as u64],
        None => [0, 0],
    }
}

// Any twelve numbers are a layout.
#[tactic(auto, unfolding(crate::specs::Arrays::layout_of))]
pub fn layout_of(row: &[u64; 12]) -> ForestLayout
    ensures { result ≡ layout_of row.now }
{
    ForestLayout {
        node_count: row[0] as usize,
        internal_node_count: Slot(row[1] as usize),
        external_node_count: Slot(row[2] as usize),
        roots_count: row[3] as usize,
        roots_offset: ByteOffset(row[4] as usize),
        basic_block_offset: ByteOffset(row[5] as usize),
        basic_block_len: row[6] as usize,
        node_entry_offset: ByteOffset(row[7] as usize),
        external_digest_offset: ByteOffset(row[8] as usize),
        node_hash_offset: optional_of(row[9], row[10]).map(ByteOffset),
        advice_map_offset: ByteOffset(row[11] as usize),
    }
}

// The twelve numbers of a layout.
pub fn layout_row(l: ForestLayout) -> [u64; 12]
    ensures { result ≡ layout_row l }
{
    let hashes = optional_row(l.node_hash_offset.map(|at| at.0));
    [
        l.node_count as u64,
        l.internal_node_count.0 as u64,
        l.external_node_count.0 as u64,
        l.roots_count as u64,
        l.roots_offset.0 as u64,
        l.basic_block_offset.0 as u64,
        l.basic_block_len as u64,
        l.node_entry_offset.0 as u64,
        l.external_digest_offset.0 as u64,
        hashes[0],
        hashes[1],
        l.advice_map_offset.0 as u64,
    ]
}

// The thirteen numbers of a scan's answer: the layout's, and how many counts are long. (Number by number: with the twelve copied as
// a slice a scan of 16 nodes took 71 ns where it takes 56.)
pub fn scanned_row(scanned: Scanned) -> [u64; 13]
    ensures { result ≡ scanned_row (record { layout = scanned.layout; long = scanned.long_counts }) }
{
    let row = layout_row(scanned.layout);
    [
        row[0],
        row[1],
        row[2],
        row[3],
        row[4],
        row[5],
        row[6],
        row[7],
        row[8],
        row[9],
        row[10],
        row[11],
        scanned.long_counts as u64,
    ]
}

// A flag of 0 is no bound.
pub fn bound_of(row: &[u64; 2]) -> Option<usize>
    ensures { result ≡ bound_of row.now }
{
    optional_of(row[0], row[1])
}

pub fn bound_row(bound: Option<usize>) -> [u64; 2]
    ensures { result ≡ bound_row bound }
{
    optional_row(bound)
}

// The kind and two numbers of an entry.
pub fn entry_row(entry: MastNodeEntry) -> [u64; 3]
    ensures { result ≡ entry_row entry }
{
    let (a, b) = match entry {
        MastNodeEntry::Join {
            left_child_id: a,
            right_child_id: b,
        }
        | MastNodeEntry::Split {
            if_branch_id: a,
            else_branch_id: b,
        } => (a, b),
        MastNodeEntry::Loop { body_id: a }
        | MastNodeEntry::Block { ops_offset: a }
        | MastNodeEntry::Call { callee_id: a }
        | MastNodeEntry::SysCall { callee_id: a } => (a, 0),
        MastNodeEntry::Dyn | MastNodeEntry::Dyncall | MastNodeEntry::External => (0, 0),
    };
    [u64::from(kind_of(entry)), u64::from(a), u64::from(b)]
}
