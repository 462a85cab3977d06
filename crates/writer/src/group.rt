// Groups of sections: a group is a section, with the same kind of contract. Each section goes into a part of its own.
ghost use Rattle.std.specs.Prelude.{◌≡◌, [], ◌∷◌, ◌++◌, map, ◌+◌, ◌*◌, length};
ghost use Rattle.wire.specs.Rows.{rows};
ghost use Rattle.wire.specs.Counts.{shortest_len, count_bytes};
ghost use Rattle.info.specs.Entry.{canonical};
ghost use Rattle.writer.specs.Writer.{sum, advice_bytes};

use crate::parts::Parts;
use crate::section::{put_bytes, put_count, put_rows};
use info::canonical_word;
use layout::facts::FormatFacts;
use wire::count::shortest_len;

// Magic, flags, version.
fn write_marks(f: FormatFacts, flags: u8, part: &mut [u8])
    requires { length part.old ≡ 8 }
    ensures { part.new ≡ f.magic ++ ((flags ∷ []) ++ f.version) }
{
    let (magic, rest) = part.split_at_mut(4);
    let (flag, version) = rest.split_at_mut(1);
    magic.copy_from_slice(&f.magic);
    flag.copy_from_slice(&[flags]);
    version.copy_from_slice(&f.version);
}

// The header, and the two node counts.
pub(crate) fn write_head(
    f: FormatFacts,
    flags: u8,
    internal: usize,
    external: usize,
    part: &mut [u8],
)
    requires { length part.old ≡ 8 + shortest_len internal + shortest_len external }
    ensures { part.new ≡ (f.magic ++ ((flags ∷ []) ++ f.version)) ++ (count_bytes internal ++ count_bytes external) }
{
    let (marks, counts) = part.split_at_mut(8);
    let (first, second) = counts.split_at_mut(shortest_len(internal as u64));
    write_marks(f, flags, marks);
    put_count(internal, first);
    put_count(external, second);
}

pub(crate) fn write_roots(roots: &[u32], part: &mut [u8])
    requires { length part.old ≡ shortest_len (length roots.now) + 4 * length roots.now }
    ensures { part.new ≡ count_bytes (length roots.now) ++ rows 4 roots.now }
{
    let (count, rows) = part.split_at_mut(shortest_len(roots.len() as u64));
    put_count(roots.len(), count);
    put_rows::<4, _, _>(roots, u64::from, rows);
}

pub(crate) fn write_blocks(blocks: &[u8], part: &mut [u8])
    requires { length part.old ≡ shortest_len (length blocks.now) + length blocks.now }
    ensures { part.new ≡ count_bytes (length blocks.now) ++ blocks.now }
{
    let (count, bytes) = part.split_at_mut(shortest_len(blocks.len() as u64));
    put_count(blocks.len(), count);
    put_bytes(blocks, bytes);
}

// Entries in their written form, external digests, hashes.
pub(crate) fn write_nodes(parts: &Parts<'_>, part: &mut [u8])
    requires { length part.old ≡ 8 * length parts.now.words.now + length parts.now.external.now + length parts.now.hashes.now }
    ensures { part.new ≡ rows 8 (map canonical parts.now.words.now) ++ (parts.now.external.now ++ parts.now.hashes.now) }
{
    let (entries, digests) = part.split_at_mut(8 * parts.words.len());
    let (external, hashes) = digests.split_at_mut(parts.external.len());
    put_rows::<8, _, _>(parts.words, canonical_word, entries);
    put_bytes(parts.external, external);
    put_bytes(parts.hashes, hashes);
}

// One entry of the map: its key, the number of its values, and these.
fn write_entry(key: &[u64], values: &[u64], part: &mut [u8])
    requires { length part.old ≡ 8 * length key.now + shortest_len (length values.now) + 8 * length values.now }
    ensures { part.new ≡ rows 8 key.now ++ (count_bytes (length values.now) ++ rows 8 values.now) }
{
    let (first, rest) = part.split_at_mut(8 * key.len());
    let (count, rows) = rest.split_at_mut(shortest_len(values.len() as u64));
    put_rows::<8, _, _>(key, |x| x, first);
    put_count(values.len(), count);
    put_rows::<8, _, _>(values, |x| x, rows);
}

// The entries of the map, each into its own part. (That keys and values fit their lengths is asked here and in `write_map`, since
// lent parts may be any: a struct of the three lists would serve these two alone.)
#[tactic(auto, using(crate::proofs::Entries::entry_room, crate::proofs::Entries::values_there))]
fn write_entries(keys: &[u64], lengths: &[u64], values: &[u64], part: &mut [u8])
    requires keys_len { (length keys.now ≡ 4 * length lengths.now) × (length values.now ≡ sum lengths.now) }
    requires part_len { length part.old ≡ 8 * length keys.now + sum (map shortest_len lengths.now) + 8 * length values.now }
    ensures { part.new ≡ advice_bytes keys.now lengths.now values.now }
{
    // By a place: had the part itself moved on (`part = rest`), a proof would not know what was written.
    let mut at = 0;
    let mut left = values;
    for (i, &n) in lengths.iter().enumerate() {
        let (own, others) = left.split_at(n as usize);
        let end = at + (32 + shortest_len(n) + 8 * own.len());
        write_entry(&keys[4 * i..4 * i + 4], own, &mut part[at..end]);
        at = end;
        left = others;
    }
}

// The map: the number of its entries, and these.
pub(crate) fn write_map(parts: &Parts<'_>, part: &mut [u8])
    requires keys_len { (length parts.now.keys.now ≡ 4 * length parts.now.lengths.now) × (length parts.now.values.now ≡ sum parts.now.lengths.now) }
    requires part_len { length part.old ≡ shortest_len (length parts.now.lengths.now) + 8 * length parts.now.keys.now + sum (map shortest_len parts.now.lengths.now) + 8 * length parts.now.values.now }
    ensures { part.new ≡ count_bytes (length parts.now.lengths.now) ++ advice_bytes parts.now.keys.now parts.now.lengths.now parts.now.values.now }
{
    let (count, entries) = part.split_at_mut(shortest_len(parts.lengths.len() as u64));
    put_count(parts.lengths.len(), count);
    write_entries(parts.keys, parts.lengths, parts.values, entries);
}
