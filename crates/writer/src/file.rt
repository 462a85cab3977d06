// The whole file: judged, counted, and only then written, so that a refusal leaves the output as it was.
ghost use Rattle.std.specs.Prelude.{◌≡◌, ◌≤◌, length};
ghost use Rattle.writer.specs.Shown.{shown_write, lent_parts};
ghost use Rattle.writer.specs.Writer.{written_file, write_outcome, output_after};
ghost use Rattle.writer.specs.Inner.{file_size, Fitting};

use crate::group::{write_blocks, write_head, write_map, write_nodes, write_roots};
use crate::parts::Parts;
use layout::facts::FormatFacts;
use wire::count::shortest_len;
use wire::refusal::Refused;

// Into an output of exactly the file's size.
fn write_file(f: FormatFacts, parts: &Parts<'_>, externals: usize, out: &mut [u8])
    requires few { externals ≤ length parts.now.words.now }
    requires fitting { Fitting (lent_parts parts.now) externals }
    requires out_len { length out.old ≡ file_size 8 (lent_parts parts.now) externals }
    ensures { out.new ≡ written_file f (lent_parts parts.now) }
{
    let internal = parts.words.len() - externals;
    let (head, rest) = out.split_at_mut(
        8 + shortest_len(internal as u64) + shortest_len(externals as u64),
    );
    let (roots, rest) = rest.split_at_mut(
        shortest_len(parts.roots.len() as u64) + 4 * parts.roots.len(),
    );
    let (blocks, rest) = rest.split_at_mut(
        shortest_len(parts.blocks.len() as u64) + parts.blocks.len(),
    );
    let (nodes, map) = rest.split_at_mut(
        8 * parts.words.len() + parts.external.len() + parts.hashes.len(),
    );
    write_head(f, parts.flags, internal, externals, head);
    write_roots(parts.roots, roots);
    write_blocks(parts.blocks, blocks);
    write_nodes(parts, nodes);
    write_map(parts, map);
}

// The file of lent parts, at the start of the output: its length. `order` is a claim: the numbers of the keys as these rise,
// those of the same key as they rise. Empty or wrong it changes the time, and never the answer.
pub fn write_forest_hinted(
    f: FormatFacts,
    parts: &Parts<'_>,
    order: &[u64],
    out: &mut [u8],
) -> Result<usize, Refused<usize>>
    ensures result_value { shown_write result ≡ write_outcome f (lent_parts parts.now) (length out.old) }
    ensures out_after { out.new ≡ output_after f (lent_parts parts.now) out.old }
{
    let externals = parts.check(f, order)?;
    let size = parts.size_within(externals, out.len())?;
    write_file(f, parts, externals, &mut out[..size]);
    Ok(size)
}

// The same, where nothing is claimed of the keys' order.
pub fn write_forest(
    f: FormatFacts,
    parts: &Parts<'_>,
    out: &mut [u8],
) -> Result<usize, Refused<usize>>
    ensures result_value { shown_write result ≡ write_outcome f (lent_parts parts.now) (length out.old) }
    ensures out_after { out.new ≡ output_after f (lent_parts parts.now) out.old }
{
    write_forest_hinted(f, parts, &[], out)
}
