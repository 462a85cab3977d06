// Little-endian numbers of 4 and 8 bytes, at any place of a slice.
ghost use Rattle.std.specs.Prelude.{◌≡◌, ◌+◌, ◌≤◌, ◌<◌, length};
ghost use Rattle.wire.specs.Le.{le, le_bytes, is_short, number_at, number_outcome};
ghost use Rattle.wire.specs.Shown.{shown_read};

use crate::refusal::{Refusal, Refused};
use crate::units::{ByteOffset, Cursor};

// A part of at most 8 bytes as a number. Where its length is fixed at 8 or 4 this compiles to one load. Other
// lengths go byte by byte, the highest first: a copy into eight bytes is a call, and every count took a
// twentieth to a tenth longer with one.
pub(crate) fn number_in(part: &[u8]) -> u64
    requires { length part.now ≤ 8 }
    ensures { result ≡ le part.now }
{
    if let Ok(bytes) = <[u8; 8]>::try_from(part) {
        return u64::from_le_bytes(bytes);
    }
    if let Ok(bytes) = <[u8; 4]>::try_from(part) {
        return u64::from(u32::from_le_bytes(bytes));
    }
    let mut number: u64 = 0;
    for i in (0..part.len()).rev() {
        number = number * 256 + u64::from(part[i]);
    }
    number
}

// Whether n bytes at a place are not all there. It takes n from the length and adds nothing, so any
// place and any n will do; where n is fixed, a loop over places takes it off once.
pub fn is_short(s: &[u8], at: ByteOffset, n: usize) -> bool
    ensures { result ≡ is_short s.now at.0 n }
{
    if s.len() < n {
        return true;
    }
    s.len() - n < at.0
}

// The number of the N bytes at a place; 0 where they are not all there.
fn number_at<const N: usize>(s: &[u8], at: ByteOffset) -> u64
    requires { N ≤ 8 }
    ensures { result ≡ number_at N s.now at.0 }
{
    if is_short(s, at, N) {
        return 0;
    }
    number_in(&s[at.0..at.0 + N])
}

// The same of 4 bytes. (The two widths that are asked for: a public function may not require that N is at most 8.)
pub fn u32_at(s: &[u8], at: ByteOffset) -> u64
    ensures { result ≡ number_at 4 s.now at.0 }
{
    number_at::<4>(s, at)
}

// The same of 8 bytes, as `u32_at`.
pub fn u64_at(s: &[u8], at: ByteOffset) -> u64
    ensures { result ≡ number_at 8 s.now at.0 }
{
    number_at::<8>(s, at)
}

// The number of the N bytes at a place with the place after them, or SHORT.
fn read_number<const N: usize>(
    s: &[u8],
    at: ByteOffset,
) -> Result<(u64, Cursor), Refused<ByteOffset>>
    requires { N ≤ 8 }
    ensures { shown_read result ≡ number_outcome N s.now at.0 }
{
    if is_short(s, at, N) {
        return Err(Refused {
            why: Refusal::Short,
            at,
        });
    }
    let next = ByteOffset(at.0 + N);
    Ok((number_in(&s[at.0..at.0 + N]), Cursor { at: next }))
}

// The same of 4 bytes, as `u32_at`.
pub fn read_u32(s: &[u8], at: ByteOffset) -> Result<(u64, Cursor), Refused<ByteOffset>>
    ensures { shown_read result ≡ number_outcome 4 s.now at.0 }
{
    read_number::<4>(s, at)
}

// The same of 8 bytes, as `u32_at`.
pub fn read_u64(s: &[u8], at: ByteOffset) -> Result<(u64, Cursor), Refused<ByteOffset>>
    ensures { shown_read result ≡ number_outcome 8 s.now at.0 }
{
    read_number::<8>(s, at)
}

// x's bytes, lowest first, as many as the part holds.
pub fn put_le(x: u64, part: &mut [u8])
    ensures { part.new ≡ le_bytes (length part.old) x }
{
    let mut rest = x;
    for byte in part {
        *byte = (rest % 256) as u8;
        rest /= 256;
    }
}
