// The advice map.
ghost use Rattle.std.specs.Prelude.{◌≡◌, ◌*◌, ◌^◌, ◌<◌, length, IfSome};
ghost use Rattle.advice.specs.Walk.{key_table};
ghost use Rattle.advice.specs.Table.{key_outcome, places_needed};
ghost use Rattle.advice.specs.Shown.{looked};
ghost use Rattle.vekalumist.specs.Answers.{number_in, answered, placed, walked_row, map_entry_row, looked_row, part_row};
ghost use Rattle.vekalumist.specs.Calls.{walk_call, map_entry_call, lookup_call, values_call};

use crate::answer::tell;
use advice::lookup::{MapLookup, lookup};
use advice::table::{MapEntry, entry_at, key_at, most_places};
use advice::walk::{Walked, walk_map};
use wire::units::ByteOffset;

// How many places of a key table are enough for the map at a place.
pub fn veka_raw_places(s: &[u8], at: usize) -> u64
    ensures { result ≡ places_needed s.now at }
{
    most_places(s, ByteOffset(at)) as u64
}

// The map at a place, its key offsets in the lent table: the number of entries, the place after it, the bytes that follow
// it, and how many of its counts are long.
pub fn veka_raw_walk(
    s: &[u8],
    at: usize,
    keys: &mut [u64],
    walked: &mut [u64; 4],
    place: &mut u64,
) -> u64
    ensures value { result ≡ number_in (walk_call (length keys.old) s.now at) }
    ensures walked_after { walked.new ≡ answered walked.old (walk_call (length keys.old) s.now at) }
    ensures place_after { place.new ≡ placed place.old (walk_call (length keys.old) s.now at) }
    ensures keys_after { keys.new ≡ key_table s.now at keys.old }
{
    let row = |walked: Walked| -> [u64; 4]
        ensures { result ≡ walked_row s.entry.now (record { entries = walked.entries; end = walked.end.at.0; long = walked.long_counts }) }
    {
        let end = walked.end.at.0;
        [
            walked.entries as u64,
            end as u64,
            s.len().saturating_sub(end) as u64,
            walked.long_counts as u64,
        ]
    };
    tell(walk_map(s, ByteOffset(at), keys).map(row), walked, place)
}

// The key at a place of a table.
pub fn veka_raw_key(
    s: &[u8],
    keys: &[u64],
    index: usize,
    key: &mut [u64; 4],
    place: &mut u64,
) -> u64
    ensures value { result ≡ number_in (key_outcome s.now keys.now index) }
    ensures key_after { key.new ≡ answered key.old (key_outcome s.now keys.now index) }
    ensures place_after { place.new ≡ placed place.old (key_outcome s.now keys.now index) }
{
    tell(key_at(s, keys, index), key, place)
}

// The key, the number of its values, and the place of the first.
fn map_entry_row(entry: MapEntry) -> [u64; 6]
    ensures { result ≡ map_entry_row (record { key = entry.key; values = entry.values.at.0; len = entry.values.len }) }
{
    let MapEntry { key, values } = entry;
    [
        key[0],
        key[1],
        key[2],
        key[3],
        values.len as u64,
        values.at.0 as u64,
    ]
}

// The entry of the map at a place of a table: its key, the number of its values, the place of the first.
pub fn veka_raw_map_entry(
    s: &[u8],
    keys: &[u64],
    index: usize,
    entry: &mut [u64; 6],
    place: &mut u64,
) -> u64
    ensures value { result ≡ number_in (map_entry_call s.now keys.now index) }
    ensures after { entry.new ≡ answered entry.old (map_entry_call s.now keys.now index) }
    ensures place_after { place.new ≡ placed place.old (map_entry_call s.now keys.now index) }
{
    tell(entry_at(s, keys, index).map(map_entry_row), entry, place)
}

// Whether a key is there, the place of its values and their number, and the keys compared.
fn looked_row(found: MapLookup) -> [u64; 4]
    ensures { result ≡ looked_row (looked found.values found.compared) }
{
    let compared = found.compared as u64;
    match found.values {
        Some(values) => [1, values.at.0 as u64, values.len as u64, compared],
        None => [0, 0, 0, compared],
    }
}

// The values of a key: whether it is there, their place and number, the keys compared.
pub fn veka_raw_lookup(
    s: &[u8],
    keys: &[u64],
    n: usize,
    key: &[u64; 4],
    looked: &mut [u64; 4],
    place: &mut u64,
) -> u64
    ensures value { result ≡ number_in (lookup_call s.now keys.now n key.now) }
    ensures looked_after { looked.new ≡ answered looked.old (lookup_call s.now keys.now n key.now) }
    ensures place_after { place.new ≡ placed place.old (lookup_call s.now keys.now n key.now) }
{
    tell(lookup(s, keys, n, *key).map(looked_row), looked, place)
}

// Whether a key is there, the place of its values and their number of bytes.
fn part_row(found: MapLookup) -> [u64; 3]
    requires { IfSome found.values (λ values. 8 * values.len < 2 ^ 64) }
    ensures { result ≡ part_row (looked found.values found.compared) }
{
    match found.values {
        Some(values) => [1, values.at.0 as u64, 8 * values.len as u64],
        None => [0, 0, 0],
    }
}

// The values of a key as a part of the file: whether it is there, its place and its number of bytes.
pub fn veka_raw_values(
    s: &[u8],
    keys: &[u64],
    n: usize,
    key: &[u64; 4],
    part: &mut [u64; 3],
    place: &mut u64,
) -> u64
    ensures value { result ≡ number_in (values_call s.now keys.now n key.now) }
    ensures part_after { part.new ≡ answered part.old (values_call s.now keys.now n key.now) }
    ensures place_after { place.new ≡ placed place.old (values_call s.now keys.now n key.now) }
{
    tell(lookup(s, keys, n, *key).map(part_row), part, place)
}
