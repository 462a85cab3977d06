// Entries: of a word, to a word, and of a node by its index.
ghost use Rattle.std.specs.Prelude.{◌≡◌, ◌↔◌, ◌+◌, ◌*◌, ◌≤◌, length, IsTrue, OnErr};
ghost use Rattle.info.specs.Entry.{decode_outcome};
ghost use Rattle.wire.specs.Le.{le_at};
ghost use Rattle.wire.specs.Shown.{shown_by};
ghost use Rattle.crossing.specs.Arrays.{entry_row};
ghost use Rattle.vekalumist.specs.Answers.{number_in, answered, placed, laid};
ghost use Rattle.vekalumist.specs.Inner.{number_of_entry, entry_of_kind};
ghost use Rattle.vekalumist.specs.Calls.{decode_call, encode_call, entry_call};

use crate::answer::tell;
use info::node::make_entry;
use info::{MastNodeEntry, encode_entry};
use rows::row_place;
use wire::refusal::{Refusal, Refused};
use wire::units::ByteOffset;

// The tag is above the payload, and a pair is two ids below ID_LIMIT. (The format's two numbers, as in info:
// to read them there would be no plainer.)
const TAG_UNIT: u64 = 0x1000_0000_0000_0000;

const ID_LIMIT: u64 = 0x4000_0000;

const SINGLE_MAX: u64 = 0xFFFF_FFFF;

// The entry of a word: its kind and two numbers.
pub fn veka_decode_entry(word: u64, entry: &mut [u64; 3], place: &mut u64) -> u64
    ensures value { result ≡ number_in (decode_call word) }
    ensures after { entry.new ≡ answered entry.old (decode_call word) }
    ensures place_after { place.new ≡ placed place.old (decode_call word) }
{
    tell(store_word(word, 0, entry), &mut (), place)
}

// A number of an entry.
#[tactic(auto, unfolding(wire::specs::Table::first_met))]
fn narrow(n: u64) -> Result<u32, Refused<usize>>
    ensures { shown_by (λ n. n) result ≡ number_of_entry n }
{
    u32::try_from(n).map_err(|_| Refused {
        why: Refusal::Payload,
        at: 0,
    })
}

// The entry of a kind and two numbers. Numbers that the kind has not are not looked at.
fn entry_of_kind(kind: u64, a: u64, b: u64) -> Result<MastNodeEntry, Refused<usize>>
    ensures { shown_by (λ e. e) result ≡ entry_of_kind kind a b }
{
    let kind = kind as usize;
    match kind {
        0 | 1 => make_entry(kind, narrow(a)?, narrow(b)?),
        2..=5 => make_entry(kind, narrow(a)?, 0),
        _ => make_entry(kind, 0, 0),
    }
}

// The word of an entry of a kind and two numbers.
fn word_of_entry(entry: &[u64; 3]) -> Result<u64, Refused<usize>>
    ensures { shown_by (λ w. w) result ≡ encode_call entry.now }
{
    let entry = entry_of_kind(entry[0], entry[1], entry[2])?;
    Ok(encode_entry(entry)?)
}

// The word of an entry, which is given as its kind and two numbers.
pub fn veka_encode_entry(entry: &[u64; 3], word: &mut u64, place: &mut u64) -> u64
    ensures value { result ≡ number_in (encode_call entry.now) }
    ensures word_after { word.new ≡ answered word.old (encode_call entry.now) }
    ensures place_after { place.new ≡ placed place.old (encode_call entry.now) }
{
    tell(word_of_entry(entry), word, place)
}

// Stores the kind and two numbers of a word; or TAG or PAYLOAD at i, and nothing is stored. It is what decoding says, but entries are asked for
// one by one: with a `MastNodeEntry` on the way (`read_node_entry_at(..).map(entry_row)`) each took 1.2 to 1.5 of its time, as an array in
// the `Ok` 1.12.
#[tactic(auto, using(crate::proofs::EntryLaws::rows), unfolding(wire::specs::Table::first_met, info::specs::Entry::decode_outcome, info::specs::Entry::decode_rules, info::specs::Entry::entry_of, info::specs::Entry::bad_tag, info::specs::Entry::bad_payload))]
fn store_word(word: u64, i: usize, entry: &mut [u64; 3]) -> Result<(), Refused<usize>>
    ensures stored { shown_by (λ _. entry.new) result ≡ laid entry_row (decode_outcome i word) }
    ensures refused { OnErr result (entry.new ≡ entry.old) }
{
    let tag = word / TAG_UNIT;
    let payload = word % TAG_UNIT;
    if 8 < tag {
        return Err(Refused {
            why: Refusal::Tag,
            at: i,
        });
    }
    if tag < 2 {
        *entry = [tag, payload / ID_LIMIT, payload % ID_LIMIT];
        return Ok(());
    }
    if 5 < tag {
        *entry = [tag, 0, 0];
        return Ok(());
    }
    if SINGLE_MAX < payload {
        return Err(Refused {
            why: Refusal::Payload,
            at: i,
        });
    }
    *entry = [tag, payload, 0];
    Ok(())
}

// Whether row i of the entries from `first` on lies in the file. What is left behind `first` is divided, so that nothing is too large.
fn row_inside(s: &[u8], first: usize, i: usize) -> bool
    ensures { IsTrue result ↔ first + 8 * (i + 1) ≤ length s.now }
{
    first <= s.len() && i < (s.len() - first) / 8
}

// The number of the 8 bytes at a place that are all there, which are not looked for again.
#[tactic(auto, using(wire::proofs::Numbers::eight_bytes))]
fn word_inside(s: &[u8], at: usize) -> u64
    requires { at + 8 ≤ length s.now }
    ensures { result ≡ le_at s.now at 8 }
{
    u64::from_le_bytes([
        s[at],
        s[at + 1],
        s[at + 2],
        s[at + 3],
        s[at + 4],
        s[at + 5],
        s[at + 6],
        s[at + 7],
    ])
}

// The same of a node's word. Of the layout two numbers are read: how many nodes there are, and where their entries start. That the row lies
// in the file is asked by itself, and why it does not only then: with a place, a number read there and the refusals of both on the way
// (`row_place`, `read_u64`) an entry asked for in turn took a sixth to a quarter more.
fn store_node(
    s: &[u8],
    layout: &[u64; 12],
    index: usize,
    entry: &mut [u64; 3],
) -> Result<(), Refused<usize>>
    ensures stored { shown_by (λ _. entry.new) result ≡ entry_call s.now layout.now index }
    ensures refused { OnErr result (entry.new ≡ entry.old) }
{
    if layout[0] as usize <= index {
        return Err(Refused {
            why: Refusal::Index,
            at: index,
        });
    }
    let first = layout[7] as usize;
    if row_inside(s, first, index) {
        return store_word(word_inside(s, first + 8 * index), index, entry);
    }
    if row_place(ByteOffset(first), 8, index).is_none() {
        return Err(Refused {
            why: Refusal::Overflow,
            at: index,
        });
    }
    Err(Refused {
        why: Refusal::Short,
        at: index,
    })
}

// The entry of a node.
pub fn veka_raw_entry(
    s: &[u8],
    layout: &[u64; 12],
    index: usize,
    entry: &mut [u64; 3],
    place: &mut u64,
) -> u64
    ensures value { result ≡ number_in (entry_call s.now layout.now index) }
    ensures after { entry.new ≡ answered entry.old (entry_call s.now layout.now index) }
    ensures place_after { place.new ≡ placed place.old (entry_call s.now layout.now index) }
{
    tell(store_node(s, layout, index, entry), &mut (), place)
}
