// The writer.
ghost use Rattle.std.specs.Prelude.{◌≡◌, length};
ghost use Rattle.writer.specs.Shown.{lent};
ghost use Rattle.vekalumist.specs.Answers.{number_in, answered, placed};
ghost use Rattle.vekalumist.specs.Calls.{write_call, write_after};

use crate::answer::tell;
use crossing::facts_of;
use writer::file::write_forest_hinted;
use writer::parts::Parts;

// The file of lent parts, at the start of the output: its length. `order` claims how the keys rise; it changes the time and nothing else.
pub fn veka_raw_write(
    marks: &[u8; 9],
    max_nodes: usize,
    flags: u8,
    roots: &[u32],
    blocks: &[u8],
    words: &[u64],
    external: &[u8],
    hashes: &[u8],
    keys: &[u64],
    lengths: &[u64],
    values: &[u64],
    order: &[u64],
    out: &mut [u8],
    size: &mut u64,
    place: &mut u64,
) -> u64
    ensures value { result ≡ number_in (write_call marks.now max_nodes (lent flags roots.now blocks.now words.now external.now hashes.now keys.now lengths.now values.now) (length out.old)) }
    ensures size_after { size.new ≡ answered size.old (write_call marks.now max_nodes (lent flags roots.now blocks.now words.now external.now hashes.now keys.now lengths.now values.now) (length out.old)) }
    ensures place_after { place.new ≡ placed place.old (write_call marks.now max_nodes (lent flags roots.now blocks.now words.now external.now hashes.now keys.now lengths.now values.now) (length out.old)) }
    ensures out_after { out.new ≡ write_after marks.now max_nodes (lent flags roots.now blocks.now words.now external.now hashes.now keys.now lengths.now values.now) out.old }
{
    let parts = Parts {
        flags,
        roots,
        blocks,
        words,
        external,
        hashes,
        keys,
        lengths,
        values,
    };
    let written = write_forest_hinted(facts_of(marks, max_nodes), &parts, order, out);
    tell(written.map(|n| n as u64), size, place)
}
