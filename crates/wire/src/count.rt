// Counts in the vint64 form: read at any place, written in the shortest form.
ghost use Rattle.std.specs.Prelude.{◌≡◌, true, ◌+◌, ◌≤◌, length, get_or, eqb};
ghost use Rattle.std.proofs.lemmas.List.Edits.{sets};
ghost use Rattle.wire.specs.Table.{pick};
ghost use Rattle.wire.specs.Le.{is_short};
ghost use Rattle.wire.specs.Counts.{count_outcome, shortest_len, Form, count_form, write_outcome, with_count};
ghost use Rattle.wire.specs.Shown.{shown_found, shown_read, shown_written};

use crate::number::{is_short, number_in, put_le};
use crate::refusal::{Refusal, Refused};
use crate::units::{ByteOffset, Cursor};

// A count as it stands in a file: what it says, in how many bytes, and whether no fewer would do.
#[derive(Clone, Copy)]
pub struct Count {
    pub value: u64,
    pub len: usize,
    pub shortest: bool,
}

// Whether v has no form of fewer than len bytes: they are one, or something stands above what one byte
// less would hold.
fn is_shortest(len: usize, v: u64) -> bool
    requires { Form len v }
    ensures { result ≡ eqb len (shortest_len v) }
{
    (len == 1) | (v >> (7 * (len - 1)) != 0)
}

// The count at a place with fewer than eight bytes left, which are not read together; nothing if it is
// not whole.
fn count_near_end(s: &[u8], at: ByteOffset) -> Option<Count>
    requires { is_short s.now at.0 8 ≡ true }
    ensures { shown_found at.0 result ≡ count_outcome s.now at.0 }
{
    let from = at.0;
    if s.len() <= from {
        return None;
    }
    let len = u8::trailing_zeros(s[from]) as usize + 1;
    if s.len() - from < len {
        return None;
    }
    let value = number_in(&s[from..from + len]) >> len;
    Some(Count {
        value,
        len,
        shortest: is_shortest(len, value),
    })
}

// The count at a place with eight bytes left, or more, of which the first is 0: the eight after it, if
// nine are left.
fn longest_count(s: &[u8], at: ByteOffset) -> Option<Count>
    requires { (at.0 + 8 ≤ length s.now) × (get_or s.now at.0 0 ≡ 0) }
    ensures { shown_found at.0 result ≡ count_outcome s.now at.0 }
{
    let from = at.0;
    if s.len() - 8 == from {
        return None;
    }
    let value = number_in(&s[from + 1..from + 1 + 8]);
    Some(Count {
        value,
        len: 9,
        shortest: is_shortest(9, value),
    })
}

// The count at a place. Where eight bytes are left they are read together and shifted: up, which drops
// the bytes behind the count, and down past the bits that tell its length. Between the two its top seven
// bits are the word's.
fn find_count(s: &[u8], at: ByteOffset) -> Option<Count>
    ensures { shown_found at.0 result ≡ count_outcome s.now at.0 }
{
    if is_short(s, at, 8) {
        return count_near_end(s, at);
    }
    let from = at.0;
    let first = s[from];
    if first == 0 {
        return longest_count(s, at);
    }
    let zeros = u8::trailing_zeros(first) as usize;
    let up = number_in(&s[from..from + 8]) << (56 - 8 * zeros);
    Some(Count {
        value: up >> (57 - 7 * zeros),
        len: zeros + 1,
        shortest: (zeros == 0) | (up >> 57 != 0),
    })
}

// The count at a place, and the place after it. The answer is made once, of whatever was found, so that
// this stays small enough to be compiled into its callers.
pub fn read_count(s: &[u8], at: ByteOffset) -> Result<(Count, Cursor), Refused<ByteOffset>>
    ensures { shown_read result ≡ count_outcome s.now at.0 }
{
    match find_count(s, at) {
        None => Err(Refused {
            why: Refusal::Short,
            at,
        }),
        Some(count) => {
            let next = ByteOffset(at.0 + count.len);
            Ok((count, Cursor { at: next }))
        }
    }
}

// How many long counts one count is: none if it is the shortest.
pub fn long_one(shortest: bool) -> usize
    ensures { (result ≡ pick shortest 0 1) × (result ≤ 1) }
{
    usize::from(!shortest)
}

// The length of v's shortest form.
pub fn shortest_len(v: u64) -> usize
    ensures { result ≡ shortest_len v }
{
    for len in 1..9 {
        if v >> (7 * len) == 0 {
            return len;
        }
    }
    9
}

// Stores the form of v in len bytes from `at` on.
fn write_form(out: &mut [u8], at: usize, len: usize, v: u64)
    requires { Form len v × (at + len ≤ length out.old) }
    ensures { out.new ≡ sets out.old at (count_form len v) }
{
    if len <= 8 {
        let end = at + len;
        put_le((2 * v + 1) << (len - 1), &mut out[at..end]);
    } else {
        out[at] = 0;
        let first = at + 1;
        let end = first + 8;
        put_le(v, &mut out[first..end]);
    }
}

// Stores v in its shortest form from a place on, or refuses and changes nothing.
pub fn write_count(out: &mut [u8], at: ByteOffset, v: u64) -> Result<Cursor, Refused<ByteOffset>>
    ensures result_value { shown_written result ≡ write_outcome out.old at.0 v }
    ensures out_after { out.new ≡ with_count out.old at.0 v }
{
    let from = at.0;
    let len = shortest_len(v);
    if is_short(out, at, len) {
        return Err(Refused {
            why: Refusal::Room,
            at,
        });
    }
    write_form(out, from, len, v);
    Ok(Cursor {
        at: ByteOffset(from + len),
    })
}
