// The answer for whole input: its page, or the first refusal alone.
ghost use Rattle.std.specs.Prelude.{◌≡◌, length};
ghost use Rattle.text.specs.Text.{text_outcome, with_text};
ghost use Rattle.page.specs.Answer.{answer_text, keys_after};
ghost use Rattle.text.specs.Shown.{shown_text};

use crate::sheet::{write_page, write_refusal};
use layout::facts::FormatFacts;
use whole::read_whole;
use wire::refusal::{Refusal, Refused};
use wire::units::ByteOffset;

// The most bytes that are taken.
const MOST: usize = 65536;

// Input of more than 65,536 bytes is refused by its size alone. Hashless files are allowed, and there is no bound.
pub fn layout_page(
    s: &[u8],
    f: FormatFacts,
    keys: &mut [u64],
    out: &mut [u8],
) -> Result<usize, Refused<usize>>
    ensures result_value { shown_text result ≡ text_outcome out.old (answer_text f (length keys.old) s.now) }
    ensures out_after { out.new ≡ with_text out.old (answer_text f (length keys.old) s.now) }
    ensures keys_after { keys.new ≡ keys_after f s.now keys.old }
{
    if MOST < s.len() {
        return write_refusal(Refusal::Room, ByteOffset(MOST), out);
    }
    match read_whole(s, f, true, None, keys) {
        Ok(whole) => write_page(whole.layout, whole.end, out),
        Err(refused) => write_refusal(refused.why, refused.at, out),
    }
}
