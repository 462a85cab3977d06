// Lookup of a key over any table of key offsets, by halving, and the values of a key as a part of the file.
ghost use Rattle.std.specs.Prelude.{◌≡◌, ◌+◌, ◌-◌, ◌*◌, ◌^◌, ◌≤◌, ◌<◌, length};
ghost use Rattle.advice.specs.Lookup.{halving, lookup_outcome, values_part};
ghost use Rattle.advice.specs.Shown.{shown_lookup};
ghost use Rattle.advice.specs.Inner.{Within, left_outcome, turned, shown_halved, elements_outcome, shown_elements, found_values_outcome, shown_values};

use crate::walk::{Values, read_values};
use std::cmp::Ordering;
use wire::number::{is_short, u64_at};
use wire::refusal::{Refusal, Refused};
use wire::units::ByteOffset;
use wire::word::{is_element, word_at, word_order};

// Fewer keys than this are near: waiting for each costs less than a jump that is guessed wrong.
const FEW: usize = 0x8000;

// The values of a key, if the table has it, and how many keys were compared.
#[derive(Clone, Copy)]
pub struct MapLookup {
    pub values: Option<Values>,
    pub compared: usize,
}

// What a halving has left: a range of the table's places, by its first and their number, and the number of keys compared.
// The file, the table and the key go beside it: a struct of them would be made once, and taken apart in two loops.
#[derive(Clone, Copy)]
struct Range {
    low: usize,
    size: usize,
    compared: usize,
}

// One turn of the halving: below the middle, or above it. What is added is selected, and not the sum: a selected sum becomes a
// jump, and half of these are guessed wrong.
fn turn(range: Range, below: bool) -> Range
    requires { (0 < range.size) × (range.low + range.size < 2 ^ 64) × (range.compared < 2 ^ 64 - 1) }
    ensures { result ≡ turned below range }
{
    let half = range.size / 2;
    let passed = if below { 0 } else { half + 1 };
    let fewer = if below { 0 } else { 1 - range.size % 2 };
    Range {
        low: range.low + passed,
        size: half - fewer,
        compared: range.compared + 1,
    }
}

// Turns by the first elements alone, as far as they tell: a tie, or a key that is not all in the file, is left to the plain
// halving. (A `while`: a range says when nothing is left of it.)
fn narrow(s: &[u8], keys: &[u64], range: Range, key: [u64; 4]) -> Range
    requires { Within (length keys.now) range }
    ensures within { Within (length keys.now) result }
    ensures same { left_outcome s.now keys.now key result ≡ left_outcome s.now keys.now key range }
{
    let first = key[0];
    let mut left = range;
    while 0 < left.size {
        let at = ByteOffset(keys[left.low + left.size / 2] as usize);
        if is_short(s, at, 32) {
            return left;
        }
        let middle = u64_at(s, at);
        if first == middle {
            return left;
        }
        left = turn(left, first < middle);
    }
    left
}

// The range is halved: an equal key ends it, and the middle is dropped with one of the halves. Answers where the equal key
// is, if there is one, and how many keys were compared, which `binary_search_by` does not say. And places, not a slice of
// what is left: that becomes selects without a jump, and a lookup among 100,000 keys took 1.8 times as long.
fn halve_left(
    s: &[u8],
    keys: &[u64],
    range: Range,
    key: [u64; 4],
) -> Result<(Option<ByteOffset>, usize), Refused<ByteOffset>>
    requires { Within (length keys.now) range }
    ensures { shown_halved result ≡ left_outcome s.now keys.now key range }
{
    let mut low = range.low;
    let mut size = range.size;
    let mut compared = range.compared;
    while 0 < size {
        let half = size / 2;
        let at = ByteOffset(keys[low + half] as usize);
        if is_short(s, at, 32) {
            return Err(Refused {
                why: Refusal::Short,
                at,
            });
        }
        compared += 1;
        match word_order(key, word_at(s, at)) {
            Ordering::Less => size = half,
            Ordering::Equal => return Ok((Some(at), compared)),
            Ordering::Greater => {
                low += half + 1;
                size -= half + 1;
            }
        }
    }
    Ok((None, compared))
}

// The halving of the first n offsets. Few keys: without jumps first. Many, and far: a guessed jump reads ahead.
fn halve(
    s: &[u8],
    keys: &[u64],
    n: usize,
    key: [u64; 4],
) -> Result<(Option<ByteOffset>, usize), Refused<ByteOffset>>
    requires { n ≤ length keys.now }
    ensures { shown_halved result ≡ halving s.now keys.now key n 0 n 0 }
{
    let mut range = Range {
        low: 0,
        size: n,
        compared: 0,
    };
    if n < FEW {
        range = narrow(s, keys, range, key);
    }
    halve_left(s, keys, range, key)
}

// Whether some values are all elements, or the place of the first that is none: by number, of which that place is
// made, so that an iterator would be counted beside.
fn check_elements(s: &[u8], values: Values) -> Result<(), Refused<ByteOffset>>
    requires { values.at.0 + 8 * values.len ≤ length s.now }
    ensures { shown_elements result ≡ elements_outcome s.now values.at.0 values.len }
{
    for i in 0..values.len {
        let at = ByteOffset(values.at.0 + 8 * i);
        if !is_element(u64_at(s, at)) {
            return Err(Refused {
                why: Refusal::Element,
                at,
            });
        }
    }
    Ok(())
}

// The values of the key at a place: the length and the values as in the walk, and then each value is judged.
fn read_found(s: &[u8], at: ByteOffset) -> Result<Values, Refused<ByteOffset>>
    requires { at.0 + 32 ≤ length s.now }
    ensures { shown_values result ≡ found_values_outcome s.now at.0 }
{
    let values = read_values(s, ByteOffset(at.0 + 32))?;
    check_elements(s, values)?;
    Ok(values)
}

// A key among the first n offsets of a table, over any bytes and any table. A refusal has its place as a plain number: with
// ROOM it is the n that was given, and no byte offset. (n stands beside the table, since a table that is shorter is that refusal.)
pub fn lookup(s: &[u8], keys: &[u64], n: usize, key: [u64; 4]) -> Result<MapLookup, Refused<usize>>
    ensures { shown_lookup result ≡ lookup_outcome s.now keys.now n key }
{
    if keys.len() < n {
        return Err(Refused {
            why: Refusal::Room,
            at: n,
        });
    }
    let (met, compared) = halve(s, keys, n, key)?;
    let values = match met {
        Some(at) => Some(read_found(s, at)?),
        None => None,
    };
    Ok(MapLookup { values, compared })
}

// The values of a key, as a part of the file: empty where the lookup refuses or says absent.
pub fn values<'a>(s: &'a [u8], keys: &[u64], n: usize, key: [u64; 4]) -> &'a [u8]
    ensures { result.now ≡ values_part s.now (lookup_outcome s.now keys.now n key) }
{
    let Ok(found) = lookup(s, keys, n, key) else {
        return &s[..0];
    };
    let Some(values) = found.values else {
        return &s[..0];
    };
    let from = values.at.0;
    let end = from + 8 * values.len;
    &s[from..end]
}
