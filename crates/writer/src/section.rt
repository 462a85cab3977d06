// Section writers. Each is lent a part of exactly its section's length, and fills it.
ghost use Rattle.std.specs.Prelude.{◌≡◌, ◌*◌, ℕ, map, length};
ghost use Rattle.std.specs.Fn.{AnyResult};
ghost use Rattle.wire.specs.Rows.{rows};
ghost use Rattle.wire.specs.Counts.{shortest_len, count_bytes};

use wire::count::write_count;
use wire::number::put_le;
use wire::units::ByteOffset;

// A count in its shortest form.
#[tactic(auto, using(crate::proofs::Counted::count_alone))]
pub(crate) fn put_count(v: usize, part: &mut [u8])
    requires { length part.old ≡ shortest_len v }
    ensures { part.new ≡ count_bytes v }
{
    let _ = write_count(part, ByteOffset(0), v as u64);
}

// Bytes as they are. (By a loop: `copy_from_slice` of a length that is not known is a call of memmove, a name that the archive
// would need from outside.)
pub(crate) fn put_bytes(bytes: &[u8], part: &mut [u8])
    requires { length part.old ≡ length bytes.now }
    ensures { part.new ≡ bytes.now }
{
    for (i, &byte) in bytes.iter().enumerate() {
        part[i] = byte;
    }
}

// A row of N bytes for each item: the number that is made of it, lowest byte first.
pub(crate) fn put_rows<const N: usize, T: Copy, F: Fn(T) -> u64>(
    items: &[T],
    number: F,
    part: &mut [u8],
)
    requires callable { F.IsAlwaysCallable number }
    requires room { length part.old ≡ N * length items.now }
    ensures { (value : T → ℕ) → ((x : T) → AnyResult F.Fn number (x, tt) (λ n. n ≡ value x)) → part.new ≡ rows N (map value items.now) }
{
    // By places: of what is written into `chunks_exact_mut` a proof knows no byte.
    for (i, &item) in items.iter().enumerate() {
        put_le(number(item), &mut part[N * i..N * i + N]);
    }
}
