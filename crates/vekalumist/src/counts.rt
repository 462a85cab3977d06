// Counts.
ghost use Rattle.std.specs.Prelude.{◌≡◌};
ghost use Rattle.wire.specs.Counts.{shortest_len, write_outcome, with_count};
ghost use Rattle.vekalumist.specs.Answers.{number_in, answered, placed, count_row};
ghost use Rattle.vekalumist.specs.Calls.{count_call};

use crate::answer::tell;
use wire::count::{Count, read_count, shortest_len, write_count};
use wire::units::{ByteOffset, Cursor};

// Its value, its length, the place after it, and whether its length is the shortest.
fn count_row(read: (Count, Cursor)) -> [u64; 4]
    ensures { result ≡ count_row (record { value = read.0; next = read.1.at.0 }) }
{
    let (count, next) = read;
    [
        count.value,
        count.len as u64,
        next.at.0 as u64,
        u64::from(count.shortest),
    ]
}

// The count at a place: its value, its length, the place after it, and whether its length is the shortest.
pub fn veka_raw_read_count(s: &[u8], at: usize, count: &mut [u64; 4], place: &mut u64) -> u64
    ensures value { result ≡ number_in (count_call s.now at) }
    ensures count_after { count.new ≡ answered count.old (count_call s.now at) }
    ensures place_after { place.new ≡ placed place.old (count_call s.now at) }
{
    tell(read_count(s, ByteOffset(at)).map(count_row), count, place)
}

// The length of a number's shortest form.
pub fn veka_shortest_len(v: u64) -> u64
    ensures { result ≡ shortest_len v }
{
    shortest_len(v) as u64
}

// A number stored in its shortest form: the place after it.
pub fn veka_raw_write_count(
    out: &mut [u8],
    at: usize,
    v: u64,
    next: &mut u64,
    place: &mut u64,
) -> u64
    ensures value { result ≡ number_in (write_outcome out.old at v) }
    ensures next_after { next.new ≡ answered next.old (write_outcome out.old at v) }
    ensures place_after { place.new ≡ placed place.old (write_outcome out.old at v) }
    ensures out_after { out.new ≡ with_count out.old at v }
{
    let written = write_count(out, ByteOffset(at), v).map(|after| after.at.0 as u64);
    tell(written, next, place)
}
