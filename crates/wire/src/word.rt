// Elements and words of four, read from 32 bytes, and the order of words.
ghost use Rattle.std.specs.Prelude.{◌≡◌};
ghost use Rattle.wire.specs.Words.{is_element, four_at, word_at, word_outcome, word_order};
ghost use Rattle.wire.specs.Shown.{shown_read, shown_check};

use crate::number::{is_short, u64_at};
use crate::refusal::{Refusal, Refused};
use crate::units::{ByteOffset, Cursor};
use std::cmp::Ordering;

const MODULUS: u64 = 18446744069414584321;

// Whether a number is an element of the field.
pub fn is_element(x: u64) -> bool
    ensures { result ≡ is_element x }
{
    x < MODULUS
}

// The four numbers of the 32 bytes at a place, not judged; all zero where they are not all there.
pub fn word_at(s: &[u8], at: ByteOffset) -> [u64; 4]
    ensures { result ≡ word_at s.now at.0 }
{
    if is_short(s, at, 32) {
        return [0; 4];
    }
    let from = at.0;
    let a = u64_at(s, at);
    let b = u64_at(s, ByteOffset(from + 8));
    let c = u64_at(s, ByteOffset(from + 16));
    let d = u64_at(s, ByteOffset(from + 24));
    [a, b, c, d]
}

// Whether the 32 bytes at a place are a word: SHORT, then ELEMENT, at the place.
pub fn check_word(s: &[u8], at: ByteOffset) -> Result<Cursor, Refused<ByteOffset>>
    ensures { shown_check result (four_at s.now at.0) ≡ word_outcome s.now at.0 }
{
    if is_short(s, at, 32) {
        return Err(Refused {
            why: Refusal::Short,
            at,
        });
    }
    let from = at.0;
    let a = is_element(u64_at(s, at));
    let b = is_element(u64_at(s, ByteOffset(from + 8)));
    let c = is_element(u64_at(s, ByteOffset(from + 16)));
    let d = is_element(u64_at(s, ByteOffset(from + 24)));
    if a & b & c & d {
        return Ok(Cursor {
            at: ByteOffset(from + 32),
        });
    }
    Err(Refused {
        why: Refusal::Element,
        at,
    })
}

// The word at a place, and the place after it.
pub fn read_word(s: &[u8], at: ByteOffset) -> Result<([u64; 4], Cursor), Refused<ByteOffset>>
    ensures { shown_read result ≡ word_outcome s.now at.0 }
{
    let next = check_word(s, at)?;
    Ok((word_at(s, at), next))
}

// The order of two words: by the first element in which they differ, as numbers.
pub fn word_order(a: [u64; 4], b: [u64; 4]) -> Ordering
    ensures { result ≡ word_order a b }
{
    a.cmp(&b)
}
