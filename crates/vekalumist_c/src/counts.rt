// Counts.
ghost use Rattle.std.specs.Prelude.{◌≡◌};
ghost use Rattle.wire.specs.Counts.{shortest_len, write_outcome, with_count};
ghost use Rattle.vekalumist.specs.Answers.{number_in, answered, placed};
ghost use Rattle.vekalumist.specs.Calls.{count_call};

// The count at a place: its value, its length, the place after it, and whether its length is the shortest.
#[unsafe(no_mangle)]
pub extern "C" fn veka_raw_read_count(
    s: &[u8],
    at: usize,
    count: &mut [u64; 4],
    place: &mut u64,
) -> u64
    ensures value { result ≡ number_in (count_call s.now at) }
    ensures count_after { count.new ≡ answered count.old (count_call s.now at) }
    ensures place_after { place.new ≡ placed place.old (count_call s.now at) }
{
    vekalumist::counts::veka_raw_read_count(s, at, count, place)
}

// The length of a number's shortest form.
#[unsafe(no_mangle)]
pub extern "C" fn veka_shortest_len(v: u64) -> u64
    ensures { result ≡ shortest_len v }
{
    vekalumist::counts::veka_shortest_len(v)
}

// A number stored in its shortest form: the place after it.
#[unsafe(no_mangle)]
pub extern "C" fn veka_raw_write_count(
    out: &mut [u8],
    at: usize,
    v: u64,
    next: &mut u64,
    place: &mut u64,
) -> u64
    ensures value { result ≡ number_in (write_outcome out.old at v) }
    ensures next_after { next.new ≡ answered next.old (write_outcome out.old at v) }
    ensures place_after { place.new ≡ placed place.old (write_outcome out.old at v) }
    ensures out_after { out.new ≡ with_count out.old at v }
{
    vekalumist::counts::veka_raw_write_count(out, at, v, next, place)
}
