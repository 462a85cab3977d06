// The page of a layout and the line of a refusal, written into a lent buffer from its start on.
ghost use Rattle.std.specs.Prelude.{◌≡◌};
ghost use Rattle.wire.specs.Refusals.{number_of};
ghost use Rattle.text.specs.Text.{text_outcome, with_text};
ghost use Rattle.page.specs.Page.{page_text, refusal_text};
ghost use Rattle.text.specs.Shown.{shown_text};

use layout::forest::ForestLayout;
use text::fill::write_filled;
use wire::refusal::{Refusal, Refused, refusal_number};
use wire::units::ByteOffset;

// The page of a layout and the end of its map. The two texts differ in the line of the node hashes: one text
// would need a hole that takes no number.
pub fn write_page(l: ForestLayout, end: ByteOffset, out: &mut [u8]) -> Result<usize, Refused<usize>>
    ensures result_value { shown_text result ≡ text_outcome out.old (page_text l end.0) }
    ensures out_after { out.new ≡ with_text out.old (page_text l end.0) }
{
    match l.node_hash_offset {
        Some(hashes) => write_filled(
            b"nodes # internal # external #\n\
              roots # at #\n\
              blocks # at #\n\
              entries at #\n\
              external digests at #\n\
              node hashes at #\n\
              advice at # end #\n",
            &[
                l.node_count,
                l.internal_node_count.0,
                l.external_node_count.0,
                l.roots_count,
                l.roots_offset.0,
                l.basic_block_len,
                l.basic_block_offset.0,
                l.node_entry_offset.0,
                l.external_digest_offset.0,
                hashes.0,
                l.advice_map_offset.0,
                end.0,
            ],
            out,
        ),
        None => write_filled(
            b"nodes # internal # external #\n\
              roots # at #\n\
              blocks # at #\n\
              entries at #\n\
              external digests at #\n\
              node hashes none\n\
              advice at # end #\n",
            &[
                l.node_count,
                l.internal_node_count.0,
                l.external_node_count.0,
                l.roots_count,
                l.roots_offset.0,
                l.basic_block_len,
                l.basic_block_offset.0,
                l.node_entry_offset.0,
                l.external_digest_offset.0,
                l.advice_map_offset.0,
                end.0,
            ],
            out,
        ),
    }
}

// The line of a refusal.
pub fn write_refusal(why: Refusal, at: ByteOffset, out: &mut [u8]) -> Result<usize, Refused<usize>>
    ensures result_value { shown_text result ≡ text_outcome out.old (refusal_text (number_of why) at.0) }
    ensures out_after { out.new ≡ with_text out.old (refusal_text (number_of why) at.0) }
{
    let numbers = [usize::from(refusal_number(why)), at.0];
    write_filled(b"refused # at #\n", &numbers, out)
}
