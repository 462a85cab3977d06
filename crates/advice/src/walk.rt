// The map walk: reads every entry, and leaves the offsets of the keys in the lent table, keys rising.
ghost use Rattle.std.specs.Prelude.{◌≡◌, ◌*◌, length, OnOk};
ghost use Rattle.wire.specs.Le.{is_short};
ghost use Rattle.wire.specs.Shown.{shown_read};
ghost use Rattle.advice.specs.Walk.{walk_outcome, key_table};
ghost use Rattle.advice.specs.Inner.{length_outcome, values_outcome, shown_values, entry_end_outcome, FilledTo};
ghost use Rattle.advice.specs.Shown.{shown_walk};

use keys::sort::settle;
use wire::count::{Count, long_one, read_count};
use wire::refusal::{Refusal, Refused};
use wire::units::{ByteOffset, Cursor};
use wire::word::check_word;

// The greatest length whose values take at most 2^64 - 1 bytes.
const LENGTH_MAX: usize = usize::MAX / 8;

// A map that was walked: the number of its entries, the place after it, and how many of its counts are long.
#[derive(Clone, Copy)]
pub struct Walked {
    pub entries: usize,
    pub end: Cursor,
    pub long_counts: usize,
}

// The values of a key: where they start, and how many elements they are.
#[derive(Clone, Copy)]
pub struct Values {
    pub at: ByteOffset,
    pub len: usize,
}

// How many keys were filled in, and what the walk says unless one of them stands twice.
#[derive(Clone, Copy)]
struct Filled {
    n: usize,
    walked: Result<Walked, Refused<ByteOffset>>,
}

// Whether so many values at a place are not all there. What is left is divided by 8, so that the place
// after them waits for no product.
fn values_short(s: &[u8], from: ByteOffset, len: usize) -> bool
    ensures { result ≡ is_short s.now from.0 (8 * len) }
{
    if s.len() < from.0 {
        return true;
    }
    (s.len() - from.0) / 8 < len
}

// The values of a length that was read at a place, which start at `from`; they are not judged.
fn values_from(
    s: &[u8],
    at: ByteOffset,
    length: Count,
    from: ByteOffset,
) -> Result<Values, Refused<ByteOffset>>
    ensures { shown_values result ≡ length_outcome s.now at.0 (record { value = length; next = from.0 }) }
{
    let len = length.value as usize;
    if LENGTH_MAX < len {
        return Err(Refused {
            why: Refusal::Overflow,
            at,
        });
    }
    if values_short(s, from, len) {
        return Err(Refused {
            why: Refusal::Short,
            at: from,
        });
    }
    Ok(Values { at: from, len })
}

// The length at a place, and its values.
pub(crate) fn read_values(s: &[u8], at: ByteOffset) -> Result<Values, Refused<ByteOffset>>
    ensures { shown_values result ≡ values_outcome s.now at.0 }
{
    let (length, from) = read_count(s, at)?;
    values_from(s, at, length, from.at)
}

// The entry at a place, its key, its length and room for its values: whether its length is the shortest,
// and the place after it.
fn read_map_entry(s: &[u8], at: ByteOffset) -> Result<(bool, Cursor), Refused<ByteOffset>>
    ensures { shown_read result ≡ entry_end_outcome s.now at.0 }
{
    let after_key = check_word(s, at)?;
    let (length, from) = read_count(s, after_key.at)?;
    let values = values_from(s, after_key.at, length, from.at)?;
    let end = ByteOffset(values.at.0 + 8 * values.len);
    Ok((length.shortest, Cursor { at: end }))
}

// Fills in the offsets of a map's keys as they come, up to the first entry that is refused, and counts the long counts.
// Duplicates are left for later. (By number: the place in the table, its room and the answer are made of it.)
fn fill(s: &[u8], at: ByteOffset, count: Count, keys: &mut [u64]) -> Filled
    ensures { FilledTo s.now at.0 count keys.old keys.new result }
{
    let n = count.value as usize;
    let mut from = at;
    let mut long_counts = long_one(count.shortest);
    for i in 0..n {
        if keys.len() <= i {
            return Filled {
                n: i,
                walked: Err(Refused {
                    why: Refusal::Room,
                    at: from,
                }),
            };
        }
        match read_map_entry(s, from) {
            Err(refused) => {
                return Filled {
                    n: i,
                    walked: Err(refused),
                };
            }
            Ok((shortest, next)) => {
                keys[i] = from.0 as u64;
                from = next.at;
                long_counts += long_one(shortest);
            }
        }
    }
    Filled {
        n,
        walked: Ok(Walked {
            entries: n,
            end: Cursor { at: from },
            long_counts,
        }),
    }
}

// The walk, with the table as it was left where something is refused. A duplicate among the entries that were read comes
// before what stopped the reading.
fn walk_entries(s: &[u8], at: ByteOffset, keys: &mut [u64]) -> Result<Walked, Refused<ByteOffset>>
    ensures result_value { shown_walk result ≡ walk_outcome (length keys.old) s.now at.0 }
    ensures keys_after { OnOk result (keys.new ≡ key_table s.now at.0 keys.old) }
{
    let (count, first) = read_count(s, at)?;
    let filled = fill(s, first.at, count, keys);
    if let Some(twice) = settle(s, &mut keys[..filled.n]) {
        return Err(Refused {
            why: Refusal::Duplicate,
            at: ByteOffset(twice as usize),
        });
    }
    filled.walked
}

// The map at a place. Accepted: its n key offsets are the table's first n numbers, keys rising, and the rest is as it was.
// Refused: the whole table is zero.
pub fn walk_map(s: &[u8], at: ByteOffset, keys: &mut [u64]) -> Result<Walked, Refused<ByteOffset>>
    ensures result_value { shown_walk result ≡ walk_outcome (length keys.old) s.now at.0 }
    ensures keys_after { keys.new ≡ key_table s.now at.0 keys.old }
{
    let walked = walk_entries(s, at, keys);
    if walked.is_err() {
        keys.fill(0);
    }
    walked
}
