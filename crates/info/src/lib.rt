// The 8-byte node entry: decoded from a word, encoded to one, read at a place of a file. What else is asked of a node is in
// node.rt. What each function promises is in specs/.
#![tactic(auto)]

pub mod node;

ghost use Rattle.std.specs.Prelude.{◌≡◌, ◌+◌, ◌*◌, ◌^◌, ◌<◌, ◌≤◌, ◌||◌, IsTrue, Ok, Err};
ghost use Rattle.wire.specs.declared.refusal.Refusal.TheVariants.{Payload};
ghost use Rattle.wire.specs.Shown.{shown_read};
ghost use Rattle.info.specs.Entry.{decode_outcome, encode_outcome, wide_id, canonical, entry_outcome};
ghost use Rattle.info.specs.Shown.{shown_decoded, shown_encoded};

use crate::node::kind_of;
use wire::number::read_u64;
use wire::refusal::{Refusal, Refused};
use wire::units::{ByteOffset, Cursor};

// The tag is above the payload, and a pair is two ids below ID_LIMIT.
const TAG_UNIT: u64 = 0x1000_0000_0000_0000;

const ID_LIMIT: u64 = 0x4000_0000;

#[derive(Clone, Copy)]
pub enum MastNodeEntry {
    Join {
        left_child_id: u32,
        right_child_id: u32,
    },
    Split {
        if_branch_id: u32,
        else_branch_id: u32,
    },
    Loop {
        body_id: u32,
    },
    Block {
        // offset of the operations in the block data
        ops_offset: u32,
    },
    Call {
        callee_id: u32,
    },
    SysCall {
        callee_id: u32,
    },
    Dyn,
    Dyncall,
    External,
}

// A refusal of a word or an entry alone, which stands at no place: it is told at 0.
fn at_0(why: Refusal) -> Refused<ByteOffset>
    ensures { result ≡ record { why = why; at = record { 0 = 0 } } }
{
    Refused {
        why,
        at: ByteOffset(0),
    }
}

// The payload of one number.
fn single(payload: u64) -> Result<u32, Refused<ByteOffset>>
    ensures fits { payload < 2 ^ 32 → result ≡ Ok payload }
    ensures wide { 2 ^ 32 ≤ payload → result ≡ Err (record { why = Payload; at = record { 0 = 0 } }) }
{
    u32::try_from(payload).map_err(|_| at_0(Refusal::Payload))
}

// The entry of a word, or TAG or PAYLOAD at 0.
#[tactic(auto, unfolding(wire::specs::Table::first_met, crate::specs::Entry::decode_outcome, crate::specs::Entry::decode_rules, crate::specs::Entry::entry_of, crate::specs::Entry::bad_tag, crate::specs::Entry::bad_payload))]
pub fn decode_entry(word: u64) -> Result<MastNodeEntry, Refused<ByteOffset>>
    ensures { shown_decoded result ≡ decode_outcome 0 word }
{
    let payload = word % TAG_UNIT;
    Ok(match word / TAG_UNIT {
        0 => MastNodeEntry::Join {
            left_child_id: (payload / ID_LIMIT) as u32,
            right_child_id: (payload % ID_LIMIT) as u32,
        },
        1 => MastNodeEntry::Split {
            if_branch_id: (payload / ID_LIMIT) as u32,
            else_branch_id: (payload % ID_LIMIT) as u32,
        },
        2 => MastNodeEntry::Loop {
            body_id: single(payload)?,
        },
        3 => MastNodeEntry::Block {
            ops_offset: single(payload)?,
        },
        4 => MastNodeEntry::Call {
            callee_id: single(payload)?,
        },
        5 => MastNodeEntry::SysCall {
            callee_id: single(payload)?,
        },
        6 => MastNodeEntry::Dyn,
        7 => MastNodeEntry::Dyncall,
        8 => MastNodeEntry::External,
        9.. => return Err(at_0(Refusal::Tag)),
    })
}

// The payload of two ids.
fn pair(left: u32, right: u32) -> Result<u64, Refused<ByteOffset>>
    ensures fits { left < 2 ^ 30 → right < 2 ^ 30 → result ≡ Ok (left * 2 ^ 30 + right) }
    ensures wide { IsTrue (wide_id left || wide_id right) → result ≡ Err (record { why = Payload; at = record { 0 = 0 } }) }
{
    let left_id = u64::from(left);
    let right_id = u64::from(right);
    if left_id < ID_LIMIT && right_id < ID_LIMIT {
        Ok(left_id * ID_LIMIT + right_id)
    } else {
        Err(at_0(Refusal::Payload))
    }
}

// The word of an entry, or PAYLOAD at 0.
#[tactic(auto, unfolding(wire::specs::Table::first_met, crate::specs::Entry::encode_outcome))]
pub fn encode_entry(entry: MastNodeEntry) -> Result<u64, Refused<ByteOffset>>
    ensures { shown_encoded result ≡ encode_outcome entry }
{
    let payload = match entry {
        MastNodeEntry::Join {
            left_child_id: left,
            right_child_id: right,
        }
        | MastNodeEntry::Split {
            if_branch_id: left,
            else_branch_id: right,
        } => pair(left, right)?,
        MastNodeEntry::Loop { body_id: number }
        | MastNodeEntry::Block { ops_offset: number }
        | MastNodeEntry::Call { callee_id: number }
        | MastNodeEntry::SysCall { callee_id: number } => u64::from(number),
        MastNodeEntry::Dyn | MastNodeEntry::Dyncall | MastNodeEntry::External => 0,
    };
    Ok(u64::from(kind_of(entry)) * TAG_UNIT + payload)
}

// The written form of the entry that a word reads as. It compares the tag and makes no entry, for the sake of loops over words
// (docs/DECISIONS.md, form-3).
pub fn canonical_word(word: u64) -> u64
    ensures { result ≡ canonical word }
{
    let tag = word / TAG_UNIT;
    if tag < 6 {
        return word;
    }
    tag * TAG_UNIT
}

// The entry at a place with the next place, or SHORT, TAG or PAYLOAD at the place asked for.
pub fn read_entry(s: &[u8], at: ByteOffset) -> Result<(MastNodeEntry, Cursor), Refused<ByteOffset>>
    ensures { shown_read result ≡ entry_outcome s.now at.0 }
{
    let (word, next) = read_u64(s, at)?;
    let entry = decode_entry(word).map_err(|refused| refused.told_at(at))?;
    Ok((entry, next))
}
