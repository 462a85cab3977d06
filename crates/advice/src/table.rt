// The key table by place: the key at a place and the entry of the map there, over any bytes and any table; and how many
// places are enough to lend for a map. (File and table are two arguments: a struct would be made for
// one read and taken apart at once.)
ghost use Rattle.std.specs.Prelude.{◌≡◌};
ghost use Rattle.advice.specs.Table.{key_outcome, map_entry_outcome, places_needed};
ghost use Rattle.advice.specs.Shown.{shown_key, shown_map_entry};

use crate::walk::{Values, read_values};
use wire::count::read_count;
use wire::refusal::{Refusal, Refused};
use wire::units::ByteOffset;
use wire::word::read_word;

// An entry of the map: its key, and its values.
#[derive(Clone, Copy)]
pub struct MapEntry {
    pub key: [u64; 4],
    pub values: Values,
}

// The key at a place of the table. A refusal has its place as a plain number: with INDEX it is the place of the table
// that was asked for, and no byte offset.
pub fn key_at(s: &[u8], keys: &[u64], index: usize) -> Result<[u64; 4], Refused<usize>>
    ensures { shown_key result ≡ key_outcome s.now keys.now index }
{
    if keys.len() <= index {
        return Err(Refused {
            why: Refusal::Index,
            at: index,
        });
    }
    let at = ByteOffset(keys[index] as usize);
    let (key, _) = read_word(s, at)?;
    Ok(key)
}

// The entry of the map at a place of the table: its key, and its length and values as the walk reads them. Values are
// not judged.
pub fn entry_at(s: &[u8], keys: &[u64], index: usize) -> Result<MapEntry, Refused<usize>>
    ensures { shown_map_entry result ≡ map_entry_outcome s.now keys.now index }
{
    let key = key_at(s, keys, index)?;
    let length = ByteOffset(keys[index] as usize + 32);
    let values = read_values(s, length)?;
    Ok(MapEntry { key, values })
}

// How many places of a key table are enough for the map at a place: as many as it says it has entries, or one more than
// have room in the file, whichever is less. The one more is for the entry that is cut off: ROOM comes before its SHORT.
pub fn most_places(s: &[u8], at: ByteOffset) -> usize
    ensures { result ≡ places_needed s.now at.0 }
{
    let Ok((count, first)) = read_count(s, at) else {
        return 0;
    };
    let room = (s.len() - first.at.0) / 33 + 1;
    room.min(count.value as usize)
}
