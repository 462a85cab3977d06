// Entries: of a word, to a word, and of a node by its index.
ghost use Rattle.std.specs.Prelude.{◌≡◌};
ghost use Rattle.vekalumist.specs.Answers.{number_in, answered, placed};
ghost use Rattle.vekalumist.specs.Calls.{decode_call, encode_call, entry_call};

// The entry of a word: its kind and two numbers.
#[unsafe(no_mangle)]
pub extern "C" fn veka_decode_entry(word: u64, entry: &mut [u64; 3], place: &mut u64) -> u64
    ensures value { result ≡ number_in (decode_call word) }
    ensures after { entry.new ≡ answered entry.old (decode_call word) }
    ensures place_after { place.new ≡ placed place.old (decode_call word) }
{
    vekalumist::entries::veka_decode_entry(word, entry, place)
}

// The word of an entry, which is given as its kind and two numbers.
#[unsafe(no_mangle)]
pub extern "C" fn veka_encode_entry(entry: &[u64; 3], word: &mut u64, place: &mut u64) -> u64
    ensures value { result ≡ number_in (encode_call entry.now) }
    ensures word_after { word.new ≡ answered word.old (encode_call entry.now) }
    ensures place_after { place.new ≡ placed place.old (encode_call entry.now) }
{
    vekalumist::entries::veka_encode_entry(entry, word, place)
}

// The entry of a node. Of the layout it reads two numbers: how many nodes there are, and where their entries start.
#[unsafe(no_mangle)]
pub extern "C" fn veka_raw_entry(
    s: &[u8],
    layout: &[u64; 12],
    index: usize,
    entry: &mut [u64; 3],
    place: &mut u64,
) -> u64
    ensures value { result ≡ number_in (entry_call s.now layout.now index) }
    ensures after { entry.new ≡ answered entry.old (entry_call s.now layout.now index) }
    ensures place_after { place.new ≡ placed place.old (entry_call s.now layout.now index) }
{
    vekalumist::entries::veka_raw_entry(s, layout, index, entry, place)
}
