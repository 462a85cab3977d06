// The advice map.
ghost use Rattle.std.specs.Prelude.{◌≡◌, length};
ghost use Rattle.advice.specs.Walk.{key_table};
ghost use Rattle.advice.specs.Table.{key_outcome, places_needed};
ghost use Rattle.vekalumist.specs.Answers.{number_in, answered, placed};
ghost use Rattle.vekalumist.specs.Calls.{walk_call, map_entry_call, lookup_call, values_call};

// How many places of a key table are enough for the map at a place.
#[unsafe(no_mangle)]
pub extern "C" fn veka_raw_places(s: &[u8], at: usize) -> u64
    ensures { result ≡ places_needed s.now at }
{
    vekalumist::map::veka_raw_places(s, at)
}

// The map at a place, its key offsets in the lent table: the number of entries, the place after it, the bytes that follow
// it, and how many of its counts are long.
#[unsafe(no_mangle)]
pub extern "C" fn veka_raw_walk(
    s: &[u8],
    at: usize,
    keys: &mut [u64],
    walked: &mut [u64; 4],
    place: &mut u64,
) -> u64
    ensures value { result ≡ number_in (walk_call (length keys.old) s.now at) }
    ensures walked_after { walked.new ≡ answered walked.old (walk_call (length keys.old) s.now at) }
    ensures place_after { place.new ≡ placed place.old (walk_call (length keys.old) s.now at) }
    ensures keys_after { keys.new ≡ key_table s.now at keys.old }
{
    vekalumist::map::veka_raw_walk(s, at, keys, walked, place)
}

// The key at a place of a table.
#[unsafe(no_mangle)]
pub extern "C" fn veka_raw_key(
    s: &[u8],
    keys: &[u64],
    index: usize,
    key: &mut [u64; 4],
    place: &mut u64,
) -> u64
    ensures value { result ≡ number_in (key_outcome s.now keys.now index) }
    ensures key_after { key.new ≡ answered key.old (key_outcome s.now keys.now index) }
    ensures place_after { place.new ≡ placed place.old (key_outcome s.now keys.now index) }
{
    vekalumist::map::veka_raw_key(s, keys, index, key, place)
}

// The entry of the map at a place of a table: its key, the number of its values, the place of the first.
#[unsafe(no_mangle)]
pub extern "C" fn veka_raw_map_entry(
    s: &[u8],
    keys: &[u64],
    index: usize,
    entry: &mut [u64; 6],
    place: &mut u64,
) -> u64
    ensures value { result ≡ number_in (map_entry_call s.now keys.now index) }
    ensures after { entry.new ≡ answered entry.old (map_entry_call s.now keys.now index) }
    ensures place_after { place.new ≡ placed place.old (map_entry_call s.now keys.now index) }
{
    vekalumist::map::veka_raw_map_entry(s, keys, index, entry, place)
}

// The values of a key: whether it is there, their place and number, the keys compared.
#[unsafe(no_mangle)]
pub extern "C" fn veka_raw_lookup(
    s: &[u8],
    keys: &[u64],
    n: usize,
    key: &[u64; 4],
    looked: &mut [u64; 4],
    place: &mut u64,
) -> u64
    ensures value { result ≡ number_in (lookup_call s.now keys.now n key.now) }
    ensures looked_after { looked.new ≡ answered looked.old (lookup_call s.now keys.now n key.now) }
    ensures place_after { place.new ≡ placed place.old (lookup_call s.now keys.now n key.now) }
{
    vekalumist::map::veka_raw_lookup(s, keys, n, key, looked, place)
}

// The values of a key as a part of the file: whether it is there, its place and its number of bytes.
#[unsafe(no_mangle)]
pub extern "C" fn veka_raw_values(
    s: &[u8],
    keys: &[u64],
    n: usize,
    key: &[u64; 4],
    part: &mut [u64; 3],
    place: &mut u64,
) -> u64
    ensures value { result ≡ number_in (values_call s.now keys.now n key.now) }
    ensures part_after { part.new ≡ answered part.old (values_call s.now keys.now n key.now) }
    ensures place_after { place.new ≡ placed place.old (values_call s.now keys.now n key.now) }
{
    vekalumist::map::veka_raw_values(s, keys, n, key, part, place)
}
